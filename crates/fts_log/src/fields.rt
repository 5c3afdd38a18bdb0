//! The parts of a line, each appended to what was written before.
//! Keeps: at `Ok` the line has grown by exactly the part (`specs/Quoting.antt`, `specs/Fields.antt`); at want of memory it may have grown by a part of it.
//! Called by `lines` alone.
ghost use Rattle.std.specs.Prelude.{◌≡◌, ◌++◌, ◌<◌, OnOk, codes, decimal};
ghost use Rattle.std.specs.List.{flat_map};
ghost use Rattle.fts_log.specs.Quoting.{hex_digit, escaped_byte, escaped, quoted};
ghost use Rattle.fts_log.specs.Fields.{field_text};

use fts_tables::Memory;
use itoa::Buffer;

/// A field: its name, and what it holds.
#[derive(Clone, Copy)]
pub(crate) enum Field<'a> {
    /// As it stands: a word of this crate.
    Word(&'a str, &'a str),
    Number(&'a str, u64),
    /// Any bytes, in quotes.
    Text(&'a str, &'a [u8]),
}

/// A digit below 16, to the base 16.
fn hex_digit(digit: u8) -> u8
    requires digit { digit < 16 }
    ensures { result ≡ hex_digit digit }
{
    if digit < 10 { b'0' + digit } else { 87 + digit }
}

/// A byte of a text.
fn put_byte(line: &mut Vec<u8>, byte: u8) -> Result<(), Memory>
    ensures { OnOk result (line.new.items ≡ line.old.items ++ escaped_byte byte) }
{
    if byte == b'"' || byte == b'\\' {
        line.extend_from_slice(&[b'\\', byte])?;
    } else if byte < 32 || byte == 127 {
        line.extend_from_slice(&[b'\\', b'x', hex_digit(byte / 16), hex_digit(byte % 16)])?;
    } else {
        line.extend_from_slice(&[byte])?;
    }
    Ok(())
}

/// The bytes of a text.
fn put_escaped(line: &mut Vec<u8>, text: &[u8]) -> Result<(), Memory>
    ensures { OnOk result (line.new.items ≡ line.old.items ++ escaped text.now) }
{
    for byte in text {
        put_byte(line, *byte)?;
    }
    Ok(())
}

/// A text in quotes.
#[tactic(auto, unfolding(crate::specs::Quoting::quoted))]
fn put_quoted(line: &mut Vec<u8>, text: &[u8]) -> Result<(), Memory>
    ensures { OnOk result (line.new.items ≡ line.old.items ++ quoted text.now) }
{
    line.extend_from_slice(b"\"")?;
    put_escaped(line, text)?;
    line.extend_from_slice(b"\"")?;
    Ok(())
}

/// A number.
pub(crate) fn put_number(line: &mut Vec<u8>, number: u64) -> Result<(), Memory>
    ensures { OnOk result (line.new.items ≡ line.old.items ++ decimal number) }
{
    let mut digits = Buffer::new();
    line.extend_from_slice(digits.format(number).as_bytes())?;
    Ok(())
}

/// What stands before that which a field holds.
fn put_name(line: &mut Vec<u8>, name: &str) -> Result<(), Memory>
    ensures { OnOk result (line.new.items ≡ line.old.items ++ (codes " " ++ name.now ++ codes "=")) }
{
    line.extend_from_slice(b" ")?;
    line.extend_from_slice(name.as_bytes())?;
    line.extend_from_slice(b"=")?;
    Ok(())
}

/// A field.
#[tactic(auto, unfolding(crate::specs::EventLines::field))]
fn put_field(line: &mut Vec<u8>, field: &Field<'_>) -> Result<(), Memory>
    ensures { OnOk result (line.new.items ≡ line.old.items ++ field_text field.now) }
{
    match *field {
        Field::Word(name, word) => {
            put_name(line, name)?;
            line.extend_from_slice(word.as_bytes())?;
        }
        Field::Number(name, number) => {
            put_name(line, name)?;
            put_number(line, number)?;
        }
        Field::Text(name, text) => {
            put_name(line, name)?;
            put_quoted(line, text)?;
        }
    }
    Ok(())
}

/// These fields, one behind the other.
pub(crate) fn put_fields(line: &mut Vec<u8>, fields: &[Field<'_>]) -> Result<(), Memory>
    ensures { OnOk result (line.new.items ≡ line.old.items ++ flat_map field_text fields.now) }
{
    for field in fields {
        put_field(line, field)?;
    }
    Ok(())
}
