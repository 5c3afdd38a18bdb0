//! The words of a program's command line.
use fts_tables::Memory;
use std::alloc::{Alloc, Global};
use std::env::{self, Env};
use std::io;

/// The words of the command line, with the program's name first; none where one of them is no UTF-8.
pub fn command_line<R: Env + Alloc<A = Global>>(rt: &R) -> Result<Vec<String>, Memory> {
    let mut line = Vec::new(rt.alloc());
    let args = match env::args(rt) {
        Ok(args) => args,
        Err(e) if e.kind() == io::ErrorKind::OutOfMemory => return Err(Memory),
        Err(_) => return Ok(line),
    };
    for word in args {
        if line.push(word).is_err() {
            return Err(Memory);
        }
    }
    Ok(line)
}
