//! How far a file goes. An offset and a length are looked at together before anything is read or written there, so that no place behind
//! them is too great for a number (`fits_file`). The system's own bound is twice this one.
ghost use Rattle.std.specs.Prelude.{◌≡◌};
ghost use Rattle.fts_files.specs.Reach.{fits_file};

/// The longest file, in bytes.
const MAX_FILE_BYTES: u64 = 1 << 62;

/// Whether so many bytes at an offset lie in a file at all.
pub fn fits_file(offset: u64, count: usize) -> bool
    ensures { result ≡ fits_file offset count }
{
    offset <= MAX_FILE_BYTES && count as u64 <= MAX_FILE_BYTES - offset
}
