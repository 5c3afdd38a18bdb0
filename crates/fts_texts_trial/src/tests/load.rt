//! Of `fts_load`: calls with ample memory, and files and requests by their digests, which an independent program gave (`acceptance/load.py`).
use super::checks::{check, check_found, must};
use fts_load::{DroppingSink, LoadInput, make_requests, make_sources};
use fts_store::{MemoryStore, Store, StoreFailed};
use fts_tables::{Items, PlaceRef};
use fts_wire::{Sink, Source};
use md5::{Digest, Md5};
use std::alloc::{AllocError, Global};

const SOURCE: &str = "https://a.example";

const DEST: &str = "https://b.example";

/// A path, and the file's size, first byte, and MD5 in hexadecimal digits.
type FileRow = (&'static str, u64, u8, u128);

/// Files of number 7.
const FILES: [FileRow; 3] = [
    (
        "load/s1",
        2506,
        0xde,
        0xbf55_bab8_e16f_6cb3_b96a_6aa4_1e5b_8991,
    ),
    (
        "load/s2",
        1056,
        0x5f,
        0xd1ce_31f1_5b06_0b80_b119_3ec6_c094_8ab0,
    ),
    (
        "load/s2000",
        82,
        0x74,
        0xdc5f_09be_7311_e2e7_b066_05e8_1fd7_add7,
    ),
];

fn store(alloc: Global, fail: Vec<u32>) -> MemoryStore {
    let files = Items::from_vec(Vec::new(alloc));
    MemoryStore::new(alloc, files, fail, Vec::new(alloc))
}

fn at(path: &str) -> PlaceRef<'_> {
    PlaceRef {
        endpoint: SOURCE,
        path,
    }
}

fn digest(bytes: &[u8]) -> u128 {
    let mut hasher = Md5::new();
    hasher.update(bytes);
    u128::from_be_bytes(hasher.finalize())
}

/// Whether a file of a row is there, and has its bytes.
fn is_drawn(store: &mut MemoryStore, row: &FileRow) -> bool {
    let mut into = [0; 4096];
    let size = row.1 as usize;
    store.size(at(row.0)) == Ok(Some(row.1))
        && store.read_at(at(row.0), 0, &mut into) == Ok(size)
        && into[0] == row.2
        && digest(&into[..size.min(4096)]) == row.3
}

#[test]
fn the_files_are_those_of_the_number(rt: HostRuntime) {
    let alloc = rt.alloc();
    let mut store = store(alloc, Vec::new(alloc));
    let made = make_sources(&mut store, SOURCE, 7);
    check(&rt, made.is_ok(), "the files are made");
    for row in &FILES {
        check(&rt, is_drawn(&mut store, row), row.0);
    }
    let before = store.size(at("load/s0"));
    check(&rt, before == Ok(None), "no file before the first");
    let behind = store.size(at("load/s2001"));
    check(&rt, behind == Ok(None), "no file behind the last");
}

/// Whether the first three files have so many bytes; None stands for no file.
fn are_sizes(store: &mut MemoryStore, sizes: [Option<u64>; 3]) -> bool {
    let [first, second, third] = sizes;
    store.size(at("load/s1")) == Ok(first)
        && store.size(at("load/s2")) == Ok(second)
        && store.size(at("load/s3")) == Ok(third)
}

/// A row: a sentence, which call fails, and how many bytes the first three files have then.
type FailRow = (&'static str, u32, [Option<u64>; 3]);

const FAILS: [FailRow; 4] = [
    ("the first call", 1, [None, None, None]),
    ("the second call", 2, [Some(0), None, None]),
    ("the third call", 3, [Some(2506), None, None]),
    ("the sixth call", 6, [Some(2506), Some(1056), Some(0)]),
];

/// Whether the making ends by a row's call, and leaves its files.
fn ends_at(alloc: Global, row: &FailRow) -> Result<bool, AllocError> {
    let mut store = store(alloc, [row.1].to_vec(alloc)?);
    let has_failed = make_sources(&mut store, SOURCE, 7) == Err(StoreFailed);
    Ok(has_failed && are_sizes(&mut store, row.2))
}

#[test]
fn a_failed_call_ends_the_making(rt: HostRuntime) {
    for row in &FAILS {
        check_found(&rt, ends_at(rt.alloc(), row), row.0);
    }
}

/// A row: a sentence, where a request begins and ends, and its MD5.
type RequestRow = (&'static str, usize, usize, u128);

const REQUESTS: [RequestRow; 3] = [
    (
        "the first request",
        0,
        8981,
        0x08a8_c3aa_116b_c703_bba9_fa24_e1df_370d,
    ),
    (
        "the last request",
        176_329,
        185_726,
        0x25f7_2c8d_6803_baab_9e65_063d_5c70_c971,
    ),
    (
        "all requests",
        0,
        185_726,
        0xfe5a_04eb_8fbe_6ac3_957a_f31e_1870_7415,
    ),
];

/// Whether the bytes of a row's request have its digest.
fn has_digest(bytes: &[u8], row: &RequestRow) -> bool {
    match bytes.get(row.1..row.2) {
        Some(request) => digest(request) == row.3,
        None => false,
    }
}

#[test]
fn the_requests_are_those_of_the_endpoints(rt: HostRuntime) {
    let bytes = make_requests(rt.alloc(), SOURCE, DEST);
    let bytes = must(&rt, bytes, "the requests are made");
    check(
        &rt,
        bytes.len() == 185_726,
        "as many bytes as the program gave",
    );
    let start =
        "POST /jobs HTTP/1.1\r\nContent-Length: 8936\r\n\r\n{\"files\":[{\"destinations\":[\"https://b.example/load/d1\"],";
    check(&rt, bytes.starts_with(start.as_bytes()), "the start");
    for row in &REQUESTS {
        check(&rt, has_digest(bytes.as_slice(), row), row.0);
    }
}

/// A row: a sentence, and the bytes that are read into three and written.
type PieceRow = (&'static str, &'static str);

const PIECES: [PieceRow; 4] = [
    ("as many as fit", "abc"),
    ("the rest", "de"),
    ("the end", ""),
    ("the end again", ""),
];

/// Whether these bytes are the next ones of the input, and are taken.
fn are_next(input: &mut LoadInput, sink: &mut DroppingSink, bytes: &str) -> bool {
    let mut into = [0; 3];
    input.read(&mut into) == Ok(bytes.len())
        && into.starts_with(bytes.as_bytes())
        && sink.write(bytes.as_bytes()) == Ok(bytes.len())
}

#[test]
fn the_input_gives_its_bytes_once_and_the_sink_counts_them(rt: HostRuntime) {
    let bytes = b"abcde".to_vec(rt.alloc());
    let mut input = LoadInput::new(must(&rt, bytes, "there is memory"));
    let mut sink = DroppingSink::new();
    for row in &PIECES {
        check(&rt, are_next(&mut input, &mut sink, row.1), row.0);
    }
    check(&rt, sink.count() == 5, "all bytes are counted");
}
