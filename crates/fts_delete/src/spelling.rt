//! The bytes of an event, its one spelling: the byte of its kind, and its fields, spelled as in the service's own journal.
//! At an `Err` the buffer may hold a part of them, so each caller spells into a buffer of its own.
ghost use Rattle.std.specs.Prelude.{◌≡◌, ◌++◌, ◌∷◌, [], length, OnOk, IsTrue};
ghost use Rattle.std.specs.List.{list_all};
ghost use Rattle.fts_record.specs.Spelling.{number_bytes, list_bytes};
ghost use Rattle.fts_delete.specs.Spelling.{place_bytes, body_of, is_proper_place, has_places, IsProper};

use crate::events::Event;
use fts_record::{write_number, write_text};
use fts_tables::{Memory, Place};

/// The byte of an asking.
pub const ASK: u8 = 1;

/// The byte of a file that is gone.
pub const GONE: u8 = 2;

/// The byte of a file that was missed.
pub const MISSED: u8 = 3;

fn write_byte(byte: u8, out: &mut Vec<u8>) -> Result<(), Memory>
    ensures { OnOk result (out.new.items ≡ out.old.items ++ byte ∷ []) }
{
    match out.push(byte) {
        Ok(()) => Ok(()),
        Err(_) => Err(Memory),
    }
}

#[tactic(auto, unfolding(crate::specs::Spelling::place_bytes))]
fn write_place(place: &Place, out: &mut Vec<u8>) -> Result<(), Memory>
    ensures ok { OnOk result (out.new.items ≡ out.old.items ++ place_bytes place.now) }
    ensures proper { IsTrue (is_proper_place place.now) }
{
    let endpoint = place.endpoint.as_str();
    let path = place.path.as_str();
    write_text(endpoint, out)?;
    write_text(path, out)
}

fn write_places(places: &[Place], out: &mut Vec<u8>) -> Result<(), Memory>
    ensures ok { OnOk result (out.new.items ≡ out.old.items ++ list_bytes place_bytes places.now) }
    ensures proper { OnOk result (IsTrue (list_all is_proper_place places.now)) }
{
    write_number(places.len() as u64, out)?;
    for place in places {
        write_place(place, out)?;
    }
    Ok(())
}

fn write_id(kind: u8, id: u32, out: &mut Vec<u8>) -> Result<(), Memory>
    ensures { OnOk result (out.new.items ≡ out.old.items ++ kind ∷ number_bytes id) }
{
    write_byte(kind, out)?;
    write_number(u64::from(id), out)
}

/// Appends the bytes of an event. One that asks has 1 to `MAX_ASKED` places.
#[tactic(auto, unfolding(crate::specs::Spelling::body_of))]
pub fn write_event(event: &Event, out: &mut Vec<u8>) -> Result<(), Memory>
    requires { IsTrue (has_places event.now) }
    ensures ok { OnOk result (out.new.items ≡ out.old.items ++ body_of event.now) }
    ensures proper { OnOk result (IsProper event.now) }
{
    match event {
        Event::Ask { places } => {
            write_byte(ASK, out)?;
            write_places(places.as_slice(), out)
        }
        Event::Gone { id } => write_id(GONE, *id, out),
        Event::Missed { id } => write_id(MISSED, *id, out),
    }
}
