//! A file's checksum: `MD5:` in any case and 32 hexadecimal digits (RFC 1321), or one of another algorithm.
//! It is read only where verification is asked for; else nobody looks at it. `specs/Checksums.antt` is the definition.
ghost use Rattle.std.specs.Prelude.{◌≡◌};
ghost use Rattle.serde_json.specs.View.{view};
ghost use Rattle.fts_jobdoc.specs.Checksums.{checksum_of, checksum_in, checksum_by, md5_read};
ghost use Rattle.hex.specs.Hex.{decode_sized};

use crate::json::field;
use hex::decode_to_slice;
use serde_json::Value;

/// What a file's checksum asks for.
#[derive(Clone, Copy, Debug, PartialEq, Eq)]
pub enum Checksum {
    /// There is none, or an empty text.
    NotGiven,
    /// It is no checksum.
    Malformed,
    /// It is of another algorithm than MD5.
    Other,
    /// The digest that the file is to have.
    Md5([u8; 16]),
}

/// What a file's checksum asks for.
#[tactic(auto, unfolding(crate::specs::Checksums::checksum_of))]
pub fn read_checksum(file: &Value) -> Checksum
    ensures { result ≡ checksum_of (view file.now) }
{
    match field(file, "checksum") {
        Some(value) => match value.as_str() {
            Some(text) => checksum_in_text(text),
            None => Checksum::Malformed,
        },
        None => Checksum::NotGiven,
    }
}

#[tactic(auto, unfolding(crate::specs::Checksums::checksum_in))]
fn checksum_in_text(text: &str) -> Checksum
    ensures { result ≡ checksum_in text.now }
{
    if text.is_empty() {
        return Checksum::NotGiven;
    }
    match text.split_once(':') {
        Some((algorithm, digits)) => checksum_by_parts(algorithm, digits),
        None => Checksum::Malformed,
    }
}

fn checksum_by_parts(algorithm: &str, digits: &str) -> Checksum
    ensures { result ≡ checksum_by algorithm.now digits.now }
{
    if algorithm.is_empty() {
        Checksum::Malformed
    } else if algorithm.eq_ignore_ascii_case("md5") {
        read_md5(digits)
    } else {
        Checksum::Other
    }
}

fn read_md5(digits: &str) -> Checksum
    ensures { result ≡ md5_read (decode_sized digits.now 16) }
{
    let mut digest = [0; 16];
    match decode_to_slice(digits, &mut digest) {
        Ok(()) => Checksum::Md5(digest),
        Err(_) => Checksum::Malformed,
    }
}
