//! The files of a load: what a generator draws for each, and their making in a store.
//! Keeps: a file is made by one call that creates it and one that appends its bytes, also where it has none (`make_sources`). It takes no memory.
ghost use Rattle.std.specs.Prelude.{◌≡◌, ◌≤◌, ◌+◌, ◌++◌, length, Some, OnOk, codes, decimal};
ghost use Rattle.fts_tables.specs.Counts.{CountsFaults};
ghost use Rattle.fts_store.specs.Calls.{Created, Appended, with_call};
ghost use Rattle.fts_store.specs.Store.{IsTold, IsFaithful, Stays, Same, SameBut, with_file};
ghost use Rattle.fts_load.specs.Sources.{file_count, rising_bytes, source_place};
ghost use Rattle.fts_load.specs.Made.{MakesSources};

use arrayvec::ArrayString;
use fts_store::{Store, StoreFailed};
use fts_tables::PlaceRef;
use itoa::Buffer;
use rand_pcg::Lcg64Xsh32;
use rand_pcg::rand_core::utils::NextWord;

/// One more than the most bytes of a file.
const SIZES: u32 = 4096;

/// How many first bytes there are.
const STARTS: u32 = 256;

/// The bytes of which each file's are a piece: as many as the greatest file has behind the greatest start.
const RISING_BYTES: usize = 4351;

/// The bytes of the longest path of a source: `load/s` and ten digits.
const MAX_PATH_BYTES: usize = 16;

/// The stream of the generator.
const STREAM: u64 = 1;

/// How many files a load has.
#[tactic(auto, unfolding(crate::specs::Sources::file_count))]
fn files() -> u32
    ensures count { result ≡ file_count }
    ensures few { result ≤ 2000 }
{
    2_000
}

/// Makes the files of a load in a store, on the endpoint of the sources. Where a call fails, those before it are there.
pub fn make_sources<E: Store>(store: &mut E, endpoint: &str, number: u64) -> Result<(), StoreFailed>
    ensures { MakesSources endpoint.now number (E.state store.old) (E.state store.new) (E.calls store.old) (E.calls store.new)
        (E.faults store.old) (E.faults store.new) result }
{
    let mut rising = [0; RISING_BYTES];
    fill(&mut rising);
    let mut random = Lcg64Xsh32::new(number, STREAM);
    let count = files();
    for made in 0..count {
        let size = (random.next_word() % SIZES) as usize;
        let start = (random.next_word() % STARTS) as usize;
        let bytes = piece(&rising, start, size);
        match make_source(store, endpoint, made + 1, bytes) {
            Ok(()) => {}
            Err(fault) => return Err(fault),
        }
    }
    Ok(())
}

/// Fills a buffer with bytes that rise from 0 on.
fn fill(buffer: &mut [u8])
    ensures { buffer.new ≡ rising_bytes 0 (length buffer.old) }
{
    for at in 0..buffer.len() {
        buffer[at] = (at % 256) as u8;
    }
}

/// A piece of rising bytes: so many from a start on.
#[tactic(auto, using(crate::proofs::Ranges::piece_rising))]
fn piece(rising: &[u8], start: usize, size: usize) -> &[u8]
    requires rising { rising.now ≡ rising_bytes 0 (length rising.now) }
    requires within { start + size ≤ length rising.now }
    ensures { result.now ≡ rising_bytes start size }
{
    &rising[start..start + size]
}

/// Makes one file.
#[tactic(auto, using(crate::proofs::Making::file_made), unfolding(crate::specs::Sources::source_place))]
fn make_source<E: Store>(
    store: &mut E,
    endpoint: &str,
    file: u32,
    bytes: &[u8],
) -> Result<(), StoreFailed>
    ensures stays { Stays (E.state store.old) (E.state store.new) }
    ensures made { IsTold (E.state store.old) → IsFaithful (E.state store.old)
        → OnOk result (Same (E.state store.new).files (with_file (E.state store.old).files (source_place endpoint.now file) (Some bytes.now))) }
    ensures others { IsTold (E.state store.old) → SameBut (source_place endpoint.now file) (E.state store.old).files (E.state store.new).files }
    ensures called { OnOk result (E.calls store.new ≡ with_call (with_call (E.calls store.old) (Created (source_place endpoint.now file) (Some tt)))
        (Appended (source_place endpoint.now file) bytes.now (Some tt))) }
    ensures cause { CountsFaults (E.faults store.old) (E.faults store.new) result }
{
    let path = source_path(file);
    let at = PlaceRef {
        endpoint,
        path: path.as_str(),
    };
    match store.create(at) {
        Ok(()) => {}
        Err(fault) => return Err(fault),
    }
    store.append(at, bytes)
}

/// The path of a file.
fn source_path(file: u32) -> ArrayString<MAX_PATH_BYTES>
    ensures { result.bytes ≡ codes "load/s" ++ decimal file }
{
    let mut digits = Buffer::new();
    let mut path = ArrayString::new();
    path.push_str("load/s");
    path.push_str(digits.format(file));
    path
}
