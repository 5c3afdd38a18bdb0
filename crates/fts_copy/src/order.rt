//! An order that was loaded: what is to be copied, with its names in room of their own.
//! Contracts see it as `Order`. Keeps: both paths are those of files (`IsOrder`), so neither is the part's, and the part's is the file's own.
ghost use Rattle.std.specs.Prelude.{◌≡◌, ◌≤◌, length};

use arrayvec::ArrayString;
use fts_tables::limits::MAX_NAME_BYTES;
use fts_tables::{FileRow, PartName, PlaceRef};
use std::marker::Model;

/// The bytes of the longest path of a part.
const MAX_PART_BYTES: usize = 20;

/// What is to be copied.
pub struct Loaded {
    source_endpoint: ArrayString<MAX_NAME_BYTES>,
    source_path: ArrayString<MAX_NAME_BYTES>,
    dest_endpoint: ArrayString<MAX_NAME_BYTES>,
    dest_path: ArrayString<MAX_NAME_BYTES>,
    part_path: ArrayString<MAX_PART_BYTES>,
    file: u32,
    size: u64,
    wanted: Option<[u8; 16]>,
    overwrite: bool,
}

impl Drop for Loaded {
    fn drop(self) {
        let Loaded {
            source_endpoint: _,
            source_path: _,
            dest_endpoint: _,
            dest_path: _,
            part_path: _,
            file: _,
            size: _,
            wanted: _,
            overwrite: _,
        } = self;
    }
}

impl Model for Loaded {
    ghost use Rattle.std.specs.Prelude.{◌≡◌};
    ghost use Rattle.fts_tables.specs.Places.{part_path as path_of_part};
    ghost use Rattle.fts_copy.specs.Copy.{Order, IsOrder};

    ghost Value = { Order };

    ghost view = { λ l. record {
      source = record { endpoint = l.source_endpoint.bytes; path = l.source_path.bytes };
      dest = record { endpoint = l.dest_endpoint.bytes; path = l.dest_path.bytes };
      file = l.file;
      size = l.size;
      wanted = l.wanted;
      overwrite = l.overwrite;
    } };

    ghost invariant = { λ l. IsOrder (record {
      source = record { endpoint = l.source_endpoint.bytes; path = l.source_path.bytes };
      dest = record { endpoint = l.dest_endpoint.bytes; path = l.dest_path.bytes };
      file = l.file;
      size = l.size;
      wanted = l.wanted;
      overwrite = l.overwrite;
    }) × (l.part_path.bytes ≡ path_of_part l.file) };
}

// A text in room of its own.
fn text<const N: usize>(from: &str) -> ArrayString<N>
    requires { length from.now ≤ N }
    ensures { result.bytes ≡ from.now }
{
    let mut text = ArrayString::new();
    text.push_str(from);
    text
}

impl Loaded {
    ghost use Rattle.std.specs.Prelude.{◌≡◌};
    ghost use Rattle.fts_store.specs.Store.{place_at};
    ghost use Rattle.fts_copy.specs.Copy.{order_of, part_of, is_other_size, is_other_digest, IsApart, StaysInside};

    /// What a file's row asks for.
    pub fn of(row: &FileRow, overwrite: bool) -> Loaded
        ensures order { result ≡ order_of row.now overwrite }
        ensures inside { StaysInside (order_of row.now overwrite) }
    {
        let mut room = PartName::new();
        let part = PlaceRef::part(row.dest.endpoint.as_str(), row.id, &mut room);
        Loaded {
            source_endpoint: text(row.source.endpoint.as_str()),
            source_path: text(row.source.path.as_str()),
            dest_endpoint: text(row.dest.endpoint.as_str()),
            dest_path: text(row.dest.path.as_str()),
            part_path: text(part.path),
            file: row.id,
            size: row.size,
            wanted: row.wanted,
            overwrite,
        }
    }

    /// Where the file is.
    pub fn source(&self) -> PlaceRef<'_>
        ensures place { place_at result ≡ self.now.source }
        ensures apart { IsApart self.now }
    {
        PlaceRef {
            endpoint: self.source_endpoint.as_str(),
            path: self.source_path.as_str(),
        }
    }

    /// Where the file is to be.
    pub fn dest(&self) -> PlaceRef<'_>
        ensures { place_at result ≡ self.now.dest }
    {
        PlaceRef {
            endpoint: self.dest_endpoint.as_str(),
            path: self.dest_path.as_str(),
        }
    }

    /// Where the file lies while it is written.
    pub fn part(&self) -> PlaceRef<'_>
        ensures { place_at result ≡ part_of self.now }
    {
        PlaceRef {
            endpoint: self.dest_endpoint.as_str(),
            path: self.part_path.as_str(),
        }
    }

    /// Whether another size is wanted.
    pub fn wants_other_size(&self, size: u64) -> bool
        ensures { result ≡ is_other_size self.now.size size }
    {
        self.size != 0 && self.size != size
    }

    /// Whether another digest is wanted.
    pub fn wants_other_digest(&self, digest: [u8; 16]) -> bool
        ensures { result ≡ is_other_digest self.now.wanted digest }
    {
        match self.wanted {
            Some(wanted) => wanted != digest,
            None => false,
        }
    }

    /// Whether what is at the destination may be replaced.
    pub fn overwrites(&self) -> bool
        ensures { result ≡ self.now.overwrite }
    {
        self.overwrite
    }
}
