//! What is read of how a copy ended: the bytes of a verified one, and a word for any other.
ghost use Rattle.std.specs.Prelude.{◌≡◌};
ghost use Rattle.fts_counts.specs.Outcomes.{size_of, bytes_by, outcome_word};

use fts_tables::Outcome;

/// The size of a verified copy, and none of any other.
pub fn size_of(outcome: Outcome) -> Option<u64>
    ensures { result ≡ size_of outcome }
{
    match outcome {
        Outcome::Verified { size, .. } => Some(size),
        Outcome::SourceMissing => None,
        Outcome::DestinationExists => None,
        Outcome::SourceSize { .. } => None,
        Outcome::SourceDigest { .. } => None,
        Outcome::ReadBackDiffers { .. } => None,
        Outcome::StoreFailed => None,
        Outcome::Stopped => None,
    }
}

/// The bytes that were copied for good: the size of a verified copy, and 0 of any other.
pub fn bytes_by(outcome: Outcome) -> u64
    ensures { result ≡ bytes_by outcome }
{
    match size_of(outcome) {
        Some(size) => size,
        None => 0,
    }
}

/// The word for an outcome, without its number or digest; the empty text of a verified copy.
pub fn outcome_word(outcome: Outcome) -> &'static str
    ensures { result.now ≡ outcome_word outcome }
{
    match outcome {
        Outcome::Verified { .. } => "",
        Outcome::SourceMissing => "source missing",
        Outcome::DestinationExists => "destination exists",
        Outcome::SourceSize { .. } => "source size",
        Outcome::SourceDigest { .. } => "source digest",
        Outcome::ReadBackDiffers { .. } => "read back differs",
        Outcome::StoreFailed => "store failed",
        Outcome::Stopped => "stopped",
    }
}
