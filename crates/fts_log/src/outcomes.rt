//! How a copy ended, in the words of the service's replies and with their numbers.
ghost use Rattle.std.specs.Prelude.{◌≡◌, ◌++◌, IfOk, decimal};
ghost use Rattle.fts_log.specs.EventLines.{bytes_of, outcome_text};

use crate::fields::put_number;
use fts_tables::{Memory, Outcome};
use std::alloc::Global;

/// The bytes of a copy that was verified, and 0 of any other.
pub(crate) fn bytes_of(outcome: Outcome) -> u64
    ensures { result ≡ bytes_of outcome }
{
    if let Outcome::Verified { size, .. } = outcome {
        size
    } else {
        0
    }
}

/// These words.
fn words(alloc: Global, words: &str) -> Result<Vec<u8>, Memory>
    ensures { IfOk result (λ text. text.items ≡ words.now) }
{
    let text = Vec::from_slice(alloc, words.as_bytes())?;
    Ok(text)
}

/// These words and a number.
fn words_and_number(alloc: Global, words: &str, number: u64) -> Result<Vec<u8>, Memory>
    ensures { IfOk result (λ text. text.items ≡ words.now ++ decimal number) }
{
    let mut text = Vec::from_slice(alloc, words.as_bytes())?;
    put_number(&mut text, number)?;
    Ok(text)
}

/// The text of an outcome.
pub(crate) fn outcome_text(alloc: Global, outcome: Outcome) -> Result<Vec<u8>, Memory>
    ensures { IfOk result (λ text. text.items ≡ outcome_text outcome) }
{
    match outcome {
        Outcome::Verified { .. } => words(alloc, "verified"),
        Outcome::SourceMissing => words(alloc, "source missing"),
        Outcome::DestinationExists => words(alloc, "destination exists"),
        Outcome::SourceSize { seen } => words_and_number(alloc, "source size ", seen),
        Outcome::SourceDigest { seen } => {
            let mut text = words(alloc, "source digest ")?;
            let digits = hex::encode(alloc, seen)?;
            text.extend_from_slice(digits.as_bytes())?;
            Ok(text)
        }
        Outcome::ReadBackDiffers { at } => words_and_number(alloc, "read back differs at ", at),
        Outcome::StoreFailed => words(alloc, "store failed"),
        Outcome::Stopped => words(alloc, "stopped"),
    }
}
