//! What no clause says: how doors at a socket of the file system meet clients over real sockets, and what they do with what stands at its path already.
//! Each test has a path of its own in the folder that it runs in.
use crate::sockets::{Opened, load_next, next_line, short_limits};
use fts_devices::{SocketDoors, StopFile};
use fts_service::{Doors, DoorsFailed};
use fts_wire::{Room, Sink, Source, WireFault};
use std::fs;
use std::io::{Read, Write};
use std::os::unix::fs::{FileTypeExt, symlink};
use std::os::unix::net::{UnixListener, UnixStream};
use std::test::Fail;

const GET: &[u8] = b"GET /jobs HTTP/1.1\r\n\r\n";

/// Doors at the socket of a path, which don't listen yet.
fn doors_at<'a>(rt: &'a HostRuntime, path: &'a str) -> Opened<'a> {
    SocketDoors::new(rt, rt.alloc(), short_limits(), StopFile::none()).at_socket(Some(path))
}

/// Doors that listen at a path, at which nothing stood.
fn open_doors<'a>(rt: &'a HostRuntime, path: &'a str) -> Result<Opened<'a>, Fail> {
    let _old = fs::remove_file(rt, path);
    let mut doors = doors_at(rt, path);
    match doors.listen(None) {
        Ok(()) => Ok(doors),
        Err(DoorsFailed) => Err(Fail::new("no socket")),
    }
}

/// Whether a client of a path gets a request through to these doors.
fn is_served(rt: &HostRuntime, path: &str, doors: &mut Opened<'_>) -> Result<bool, Fail> {
    let mut client = UnixStream::connect(rt, path)?;
    client.write_all(GET)?;
    Ok(load_next(rt, doors)? == Ok(true))
}

#[test]
fn a_client_of_a_socket_is_answered(rt: HostRuntime) -> Result<(), Fail> {
    let path = "./answered.socket";
    let mut doors = open_doors(&rt, path)?;
    assert!(rt; doors.place().is_none(), "there is no port");
    let mut client = UnixStream::connect(&rt, path)?;
    client.write_all(b"ab")?;
    let mut line = next_line(&mut doors)?;
    let mut bytes = [0; 8];
    assert!(rt; line.read(&mut bytes) == Ok(2), "what it sends");
    assert!(rt; bytes.starts_with(b"ab"), "byte for byte");
    assert!(rt; line.write(b"cde") == Ok(3), "what it is answered");
    doors.done(line);
    let mut answer = Vec::new(rt.alloc());
    client.read_to_end(&mut answer)?;
    assert!(rt;
        answer.as_slice() == b"cde".as_slice(),
        "and reads to its end"
    );
    fs::remove_file(&rt, path)?;
    Ok(())
}

#[test]
fn a_client_of_a_socket_that_sends_a_byte_and_waits_is_let_go(rt: HostRuntime) -> Result<(), Fail> {
    let path = "./waiting.socket";
    let mut doors = open_doors(&rt, path)?;
    let mut client = UnixStream::connect(&rt, path)?;
    client.write_all(b"G")?;
    let loaded = load_next(&rt, &mut doors)?;
    assert!(rt; loaded == Err(WireFault::SourceFailed), "it sends no more");
    fs::remove_file(&rt, path)?;
    Ok(())
}

#[test]
fn a_silent_line_of_a_socket_gives_way(rt: HostRuntime) -> Result<(), Fail> {
    let path = "./silent.socket";
    let mut doors = open_doors(&rt, path)?;
    let mut room = Room::new(rt.alloc())?;
    let mut kept = UnixStream::connect(&rt, path)?;
    kept.write_all(GET)?;
    let mut line = next_line(&mut doors)?;
    let is_answered = room.load(&mut line) == Ok(true) && line.write(b"x").is_ok();
    assert!(rt; is_answered, "its first request");
    let mut other = UnixStream::connect(&rt, path)?;
    other.write_all(GET)?;
    let found = room.load(&mut line);
    assert!(rt; found == Ok(false), "the silent line is at its end");
    doors.done(line);
    let next = load_next(&rt, &mut doors)?;
    assert!(rt;
        next == Ok(true),
        "and the connection that waited is the next one"
    );
    drop(kept);
    fs::remove_file(&rt, path)?;
    Ok(())
}

#[test]
fn a_socket_at_which_a_service_listens_is_its_own(rt: HostRuntime) -> Result<(), Fail> {
    let path = "./live.socket";
    let mut first = open_doors(&rt, path)?;
    let mut doors = doors_at(&rt, path);
    let second = doors.listen(None);
    assert!(rt; second == Err(DoorsFailed), "the socket is in use");
    // The look at it was a connection, which sent nothing.
    let look = load_next(&rt, &mut first)?;
    assert!(rt; look == Ok(false), "a look at it");
    assert!(rt;
        is_served(&rt, path, &mut first)?,
        "its clients still reach it"
    );
    assert!(rt; doors.share(&first).is_ok(), "it is shared");
    assert!(rt;
        is_served(&rt, path, &mut doors)?,
        "by the doors that share"
    );
    fs::remove_file(&rt, path)?;
    Ok(())
}

#[test]
fn the_socket_of_a_service_that_has_ended_is_replaced(rt: HostRuntime) -> Result<(), Fail> {
    let path = "./dead.socket";
    let first = open_doors(&rt, path)?;
    drop(first);
    assert!(rt;
        UnixStream::connect(&rt, path).is_err(),
        "nobody listens at it"
    );
    assert!(rt;
        fs::symlink_metadata(&rt, path).is_ok(),
        "and it stands there"
    );
    let mut doors = doors_at(&rt, path);
    assert!(rt; doors.listen(None).is_ok(), "it is replaced");
    assert!(rt;
        is_served(&rt, path, &mut doors)?,
        "clients reach the new one"
    );
    fs::remove_file(&rt, path)?;
    Ok(())
}

/// Whether doors that are to listen at a path fail, and count a fault.
fn are_refused(rt: &HostRuntime, path: &str) -> bool {
    let mut doors = doors_at(rt, path);
    doors.listen(None) == Err(DoorsFailed)
}

#[test]
fn what_is_no_socket_stays(rt: HostRuntime) -> Result<(), Fail> {
    let (file, folder, link, dead) = ("./plain", "./folder", "./link", "./linked.socket");
    let _old = (
        fs::remove_file(&rt, file),
        fs::remove_dir(&rt, folder),
        fs::remove_file(&rt, link),
        fs::remove_file(&rt, dead),
    );
    fs::write(&rt, file, b"ab")?;
    assert!(rt; are_refused(&rt, file), "a plain file");
    assert!(rt;
        fs::read(&rt, file)?.as_slice() == b"ab".as_slice(),
        "as it was"
    );
    fs::create_dir(&rt, folder)?;
    assert!(rt; are_refused(&rt, folder), "a folder");
    assert!(rt; fs::metadata(&rt, folder)?.is_dir(), "as it was");
    drop(UnixListener::bind(&rt, dead)?);
    symlink(&rt, dead, link)?;
    assert!(rt; are_refused(&rt, link), "a link to a dead socket");
    assert!(rt; fs::symlink_metadata(&rt, link)?.is_symlink(), "as it was");
    let end = fs::symlink_metadata(&rt, dead)?;
    assert!(rt; end.file_type().is_socket(), "and the socket too");
    fs::remove_dir(&rt, folder)?;
    for name in [file, link, dead] {
        fs::remove_file(&rt, name)?;
    }
    Ok(())
}

#[test]
fn doors_listen_at_what_they_have(rt: HostRuntime) -> Result<(), Fail> {
    let path = "./other.socket";
    let mut at_socket = doors_at(&rt, path);
    assert!(rt;
        at_socket.listen(Some(0)) == Err(DoorsFailed),
        "they have no port"
    );
    assert!(rt;
        fs::symlink_metadata(&rt, path).is_err(),
        "and made no socket"
    );
    let mut at_port = SocketDoors::new(&rt, rt.alloc(), short_limits(), StopFile::none());
    assert!(rt;
        at_port.listen(None) == Err(DoorsFailed),
        "they have no socket"
    );
    assert!(rt;
        are_refused(&rt, "./no-folder/a.socket"),
        "there is no such folder"
    );
    Ok(())
}
