//! Texts of replies: states, kinds and reasons in their words, ids as UUIDs in lower case (RFC 9562), digests in lower hexadecimal digits,
//! places as URLs. Each is a definition of `specs/Objects.antt` or `specs/Json.antt`.
ghost use Rattle.std.specs.Prelude.{◌≡◌, ◌++◌, IfOk, decimal};
ghost use Rattle.std.specs.String.{string_bytes};
ghost use Rattle.hex.specs.Hex.{encode_lower};
ghost use Rattle.fts_routes.specs.Json.{id_text, digest_text};
ghost use Rattle.fts_routes.specs.Objects.{file_state_text, job_state_text, kind_text, outcome_text, reason_text};
ghost use Rattle.fts_routes.specs.Objects.{surl_text, checksum_text, seen_digest_text_of};

use fts_tables::{FileState, JobKind, JobState, Memory, Outcome, Place, Reason};
use std::alloc::Global;
use uuid::Uuid;

/// The word of a file's state.
pub fn file_state_text(state: FileState) -> &'static str
    ensures { result.now ≡ file_state_text state }
{
    match state {
        FileState::Submitted => "SUBMITTED",
        FileState::Active => "ACTIVE",
        FileState::Finished => "FINISHED",
        FileState::Failed => "FAILED",
        FileState::Canceled => "CANCELED",
        FileState::NotUsed => "NOT_USED",
    }
}

/// The word of a job's state.
pub fn job_state_text(state: JobState) -> &'static str
    ensures { result.now ≡ job_state_text state }
{
    match state {
        JobState::Submitted => "SUBMITTED",
        JobState::Active => "ACTIVE",
        JobState::Finished => "FINISHED",
        JobState::FinishedDirty => "FINISHEDDIRTY",
        JobState::Failed => "FAILED",
        JobState::Canceled => "CANCELED",
    }
}

/// The word of a job's kind.
pub fn kind_text(kind: JobKind) -> &'static str
    ensures { result.now ≡ kind_text kind }
{
    match kind {
        JobKind::Plain => "plain",
        JobKind::Replica => "replica",
        JobKind::Multihop => "multihop",
    }
}

/// An id as a UUID.
pub fn id_text(alloc: Global, id: u128) -> Result<String, Memory>
    ensures { IfOk result (λ text. string_bytes text ≡ id_text id) }
{
    let mut buffer = Uuid::encode_buffer();
    let id = Uuid::from_u128(id).hyphenated();
    let text = String::from_str(alloc, id.encode_lower(&mut buffer))?;
    Ok(text)
}

/// A digest in hexadecimal digits.
pub fn digest_text(alloc: Global, digest: [u8; 16]) -> Result<String, Memory>
    ensures { IfOk result (λ text. string_bytes text ≡ digest_text digest) }
{
    hex_text(alloc, &digest)
}

/// Bytes in lower hexadecimal digits.
pub fn hex_text(alloc: Global, bytes: &[u8]) -> Result<String, Memory>
    ensures { IfOk result (λ text. string_bytes text ≡ encode_lower bytes.now) }
{
    let text = hex::encode(alloc, bytes)?;
    Ok(text)
}

/// The checksum that is wanted, where one is.
pub fn checksum_text(alloc: Global, wanted: Option<[u8; 16]>) -> Result<String, Memory>
    ensures { IfOk result (λ text. string_bytes text ≡ checksum_text wanted) }
{
    match wanted {
        None => Ok(String::new(alloc)),
        Some(digest) => {
            let digits = digest_text(alloc, digest)?;
            let text = format!(in alloc; "MD5:{digits}")?;
            Ok(text)
        }
    }
}

/// The digest that was seen, of a file in this state.
pub fn seen_digest_text(
    alloc: Global,
    state: FileState,
    digest: Option<[u8; 16]>,
) -> Result<String, Memory>
    ensures { IfOk result (λ text. string_bytes text ≡ seen_digest_text_of state digest) }
{
    match digest {
        Some(digest) => {
            if state.is_finished() {
                digest_text(alloc, digest)
            } else {
                Ok(String::new(alloc))
            }
        }
        None => Ok(String::new(alloc)),
    }
}

/// A place as a URL.
pub fn surl_text(alloc: Global, place: &Place) -> Result<String, Memory>
    ensures { IfOk result (λ text. string_bytes text ≡ surl_text place.now) }
{
    let endpoint = place.endpoint.as_str();
    let path = place.path.as_str();
    let text = format!(in alloc; "{endpoint}/{path}")?;
    Ok(text)
}

/// Why a file stands as it does.
pub fn reason_text(alloc: Global, reason: Reason) -> Result<String, Memory>
    ensures { IfOk result (λ text. string_bytes text ≡ reason_text reason) }
{
    match reason {
        Reason::None => Ok(String::new(alloc)),
        Reason::Cancelled => literal(alloc, "cancelled"),
        Reason::Expired => literal(alloc, "expired"),
        Reason::Ended(outcome) => outcome_text(alloc, outcome),
    }
}

/// How a copy ended.
fn outcome_text(alloc: Global, outcome: Outcome) -> Result<String, Memory>
    ensures { IfOk result (λ text. string_bytes text ≡ outcome_text outcome) }
{
    match outcome {
        Outcome::Verified { .. } => Ok(String::new(alloc)),
        Outcome::SourceMissing => literal(alloc, "source missing"),
        Outcome::DestinationExists => literal(alloc, "destination exists"),
        Outcome::SourceSize { seen } => numbered(alloc, "source size ", seen),
        Outcome::SourceDigest { seen } => {
            let digits = digest_text(alloc, seen)?;
            let text = format!(in alloc; "source digest {digits}")?;
            Ok(text)
        }
        Outcome::ReadBackDiffers { at } => numbered(alloc, "read back differs at ", at),
        Outcome::StoreFailed => literal(alloc, "store failed"),
        Outcome::Stopped => literal(alloc, "stopped"),
    }
}

fn literal(alloc: Global, words: &str) -> Result<String, Memory>
    ensures { IfOk result (λ text. string_bytes text ≡ words.now) }
{
    let text = String::from_str(alloc, words)?;
    Ok(text)
}

fn numbered(alloc: Global, words: &str, number: u64) -> Result<String, Memory>
    ensures { IfOk result (λ text. string_bytes text ≡ words.now ++ decimal number) }
{
    let text = format!(in alloc; "{words}{number}")?;
    Ok(text)
}
