//! The requests of a load, as the bytes of one connection (`specs/Requests.antt`).
//! Each is made in a buffer of its own first, since its head says how long its body is.
ghost use Rattle.std.specs.Prelude.{◌≡◌, ◌≤◌, ◌+◌, ◌++◌, length, map, OnOk, IfOk};
ghost use Rattle.std.specs.List.{concat};
ghost use Rattle.fts_load.specs.Requests.{request_count, files_of_job, file_text, texts_behind, document, request_with, requests, first_file};

use fts_tables::Memory;
use itoa::Buffer;
use std::alloc::Global;

/// How many requests a load has.
#[tactic(auto, unfolding(crate::specs::Requests::request_count))]
fn jobs() -> u32
    ensures count { result ≡ request_count }
    ensures few { result ≤ 20 }
{
    20
}

/// How many files a job has.
#[tactic(auto, unfolding(crate::specs::Requests::files_of_job))]
fn files() -> u32
    ensures count { result ≡ files_of_job }
    ensures some { 1 ≤ result }
    ensures few { result ≤ 100 }
{
    100
}

/// The bytes of a load's requests, one after another, with these endpoints of the sources and of the destinations.
pub fn make_requests(alloc: Global, source: &str, dest: &str) -> Result<Vec<u8>, Memory>
    ensures { IfOk result (λ bytes. bytes.items ≡ requests source.now dest.now) }
{
    let mut bytes = Vec::new(alloc);
    let count = jobs();
    for made in 0..count {
        let document = make_document(alloc, source, dest, made + 1)?;
        push_request(&mut bytes, document.as_slice())?;
    }
    Ok(bytes)
}

/// The document of a job, by its number.
#[tactic(auto, unfolding(crate::specs::Requests::document))]
fn make_document(alloc: Global, source: &str, dest: &str, job: u32) -> Result<Vec<u8>, Memory>
    requires first { 1 ≤ job }
    requires last { job ≤ 20 }
    ensures { IfOk result (λ bytes. bytes.items ≡ document source.now dest.now job) }
{
    let count = files();
    let mut bytes = Vec::new(alloc);
    push(&mut bytes, &["{\"files\":[".as_bytes()])?;
    push_files(&mut bytes, source, dest, count * (job - 1) + 1, count - 1)?;
    let mut digits = Buffer::new();
    let priority = digits.format(1 + job % 5);
    push(
        &mut bytes,
        &[
            "],\"params\":{\"overwrite\":true,\"priority\":".as_bytes(),
            priority.as_bytes(),
            "}}".as_bytes(),
        ],
    )?;
    Ok(bytes)
}

/// Appends a file, and so many others behind it.
fn push_files(
    bytes: &mut Vec<u8>,
    source: &str,
    dest: &str,
    first: u32,
    others: u32,
) -> Result<(), Memory>
    requires few { first + others ≤ 2000 }
    ensures { OnOk result (bytes.new.items ≡ bytes.old.items ++ texts_behind source.now dest.now first others) }
{
    push_file(bytes, source, dest, first)?;
    for made in 0..others {
        push(bytes, &[",".as_bytes()])?;
        push_file(bytes, source, dest, first + 1 + made)?;
    }
    Ok(())
}

/// Appends what a job says of a file.
#[tactic(auto, unfolding(crate::specs::Requests::file_text))]
fn push_file(bytes: &mut Vec<u8>, source: &str, dest: &str, file: u32) -> Result<(), Memory>
    ensures { OnOk result (bytes.new.items ≡ bytes.old.items ++ file_text source.now dest.now file) }
{
    let mut digits = Buffer::new();
    let number = digits.format(file);
    push(
        bytes,
        &[
            "{\"destinations\":[\"".as_bytes(),
            dest.as_bytes(),
            "/load/d".as_bytes(),
            number.as_bytes(),
            "\"],\"sources\":[\"".as_bytes(),
            source.as_bytes(),
            "/load/s".as_bytes(),
            number.as_bytes(),
            "\"]}".as_bytes(),
        ],
    )
}

/// Appends a request with this body.
fn push_request(bytes: &mut Vec<u8>, body: &[u8]) -> Result<(), Memory>
    ensures { OnOk result (bytes.new.items ≡ bytes.old.items ++ request_with body.now) }
{
    let mut digits = Buffer::new();
    let number = digits.format(body.len());
    push(
        bytes,
        &[
            "POST /jobs HTTP/1.1\r\nContent-Length: ".as_bytes(),
            number.as_bytes(),
            "\r\n\r\n".as_bytes(),
            body,
        ],
    )
}

/// Appends the parts, one after another.
fn push(bytes: &mut Vec<u8>, parts: &[&[u8]]) -> Result<(), Memory>
    ensures { OnOk result (bytes.new.items ≡ bytes.old.items ++ concat (map (λ part. part.now) parts.now)) }
{
    'parts: for part in parts {
        match bytes.extend_from_slice(part) {
            Ok(()) => {}
            Err(_) => return Err(Memory),
        }
    }
    Ok(())
}
