//! Groups of reasons, by which jobs may be asked for (`specs/Groups.antt`): a reason's text without number or digest, as a snapshot names its failures.
ghost use Rattle.std.specs.Prelude.{◌≡◌};
ghost use Rattle.fts_pages.specs.Groups.{group_of, is_group};

use fts_counts::outcome_word;
use fts_tables::Reason;

/// The group of a reason; the empty text where a file has no reason, or its copy was verified.
pub fn group_of(reason: Reason) -> &'static str
    ensures { result.now ≡ group_of reason }
{
    match reason {
        Reason::None => "",
        Reason::Cancelled => "cancelled",
        Reason::Expired => "expired",
        Reason::Ended(outcome) => outcome_word(outcome),
    }
}

/// Whether a word names a group of reasons.
pub fn is_group(word: &str) -> bool
    ensures { result ≡ is_group word.now }
{
    word == "source missing"
        || word == "destination exists"
        || word == "source size"
        || word == "source digest"
        || word == "read back differs"
        || word == "store failed"
        || word == "stopped"
        || word == "cancelled"
        || word == "expired"
}
