//! Entries of the measurements. They are spelled as bytes and read back, so that nothing here has to prove that they keep their types' rules.
ghost use Rattle.std.specs.Prelude.{IfOk, IsTrue};
ghost use Rattle.fts_record.specs.Proper.{has_priority};

use fts_record::read_entry;
use fts_tables::Entry;
use std::alloc::Global;
use std::io;

/// The submission of a plain job of one file, which has 129 bytes and a digest.
pub const SUBMIT: &[u8] = b"\x00\x02\x80\xe2\xcf\xaa\x06\x00\x00\x00\x03\x00\x00\x00\x01\
    \x00\x11https://a.example\x07data/f1\x11https://b.example\x07data/f1\
    \x81\x01\x01\x90\x01\x50\x98\x3c\xd2\x4f\xb0\xd6\x96\x3f\x7d\x28\xe1\x7f\x72\x07default";

/// The entry that these bytes spell.
pub fn entry(alloc: Global, bytes: &[u8]) -> io::Result<Entry>
    ensures { IfOk result (λ entry. IsTrue (has_priority entry.command)) }
{
    match read_entry(alloc, bytes) {
        Ok(entry) => Ok(entry),
        Err(_) => Err(io::Error::other("an entry is not read")),
    }
}
