//! Two kinds of field by themselves, for other journals that spell numbers and texts as this one does: each is read at a place of bytes.
//! They are written by `write_number` and `write_text`, and `specs/Placed.antt` says what stands at a place.
ghost use Rattle.std.specs.Prelude.{◌≡◌, IfOk};
ghost use Rattle.fts_record.specs.Placed.{number_placed, text_placed};

use crate::numbers::number_of;
use crate::texts::text_of;
use fts_tables::{Label, Memory};
use std::alloc::Global;

/// The number whose first byte is at this place, and the place behind it; none where no number is spelled there.
pub fn read_number(bytes: &[u8], at: usize) -> Option<(u64, usize)>
    ensures { result ≡ number_placed bytes.now at }
{
    if at > bytes.len() {
        return None;
    }
    let (number, rest) = number_of(&bytes[at..])?;
    Some((number, bytes.len().saturating_sub(rest.len())))
}

/// The text whose length's first byte is at this place, and the place behind it; none where no text is spelled there.
pub fn read_text(alloc: Global, bytes: &[u8], at: usize) -> Result<Option<(Label, usize)>, Memory>
    ensures { IfOk result (λ found. found ≡ text_placed bytes.now at) }
{
    if at > bytes.len() {
        return Ok(None);
    }
    match text_of(&bytes[at..]) {
        Some((text, rest)) => {
            let label = Label::new(alloc, text)?;
            Ok(Some((label, bytes.len().saturating_sub(rest.len()))))
        }
        None => Ok(None),
    }
}
