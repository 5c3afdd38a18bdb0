//! What no clause says of a run over the real devices: that a folder is served, by one service at a time, and that a client over a socket is told of the
//! copy of its file. What a run prints is in `examples/`, and in `stdin` and `stdout` beside the program.
use crate::stand::{SETTINGS, run_in_folder};
use fts_disk::FileDisk;
use std::io::{Read, Write};
use std::net::{Ipv4Addr, TcpStream};
use std::sync::Wait;
use std::test::Fail;
use std::thread::Threads;
use std::time::Duration;
use std::{fs, io, thread};

/// The port of the service that a test runs.
const PORT: u16 = 18_423;

/// The status of a session in this folder.
fn session<R: Threads + Wait + Sync>(rt: &HostRuntime, threads: &R) -> Result<u8, Fail> {
    let words = [String::from_str(rt.alloc(), "session")?];
    Ok(run_in_folder(rt, threads, ".", &words)?.status)
}

/// The gates in front of the first two entries of a journal, 1 where it is open. A Restart of these settings takes 71 bytes, behind the first 8.
fn gates_of(rt: &HostRuntime, path: &str) -> Result<[Option<u8>; 2], Fail> {
    let journal = fs::read(rt, path)?;
    Ok([journal.get(8).copied(), journal.get(79).copied()])
}

#[test]
fn a_folder_is_served_by_one_service_at_a_time(rt: HostRuntime) -> Result<(), Fail> {
    let (settings, path) = ("./fts.toml", "./fts.journal");
    for old in [settings, path] {
        let _old = fs::remove_file(&rt, old);
    }
    assert!(rt; session(&rt, &rt)? == 8, "there is no fts.toml");
    fs::write(&rt, settings, SETTINGS.as_bytes())?;
    for (case, gates) in [("a new journal", [1, 0]), ("the same again", [1, 1])] {
        let is_served = session(&rt, &rt)? == 0 && gates_of(&rt, path)? == gates.map(Some);
        assert!(rt; is_served, "{case}");
    }
    let before = fs::read(&rt, path)?;
    let held = FileDisk::open(&rt, path);
    let is_refused = session(&rt, &rt)? == 4 && fs::read(&rt, path)? == before;
    assert!(rt;
        is_refused,
        "another service holds it, and it stays as it was"
    );
    drop(held);
    assert!(rt; session(&rt, &rt)? == 0, "and it let go");
    for file in [settings, path] {
        fs::remove_file(&rt, file)?;
    }
    Ok(())
}

/// A client of a service that is starting.
fn connect_soon(rt: &HostRuntime, port: u16) -> io::Result<TcpStream> {
    for _ in 0..500 {
        if let Ok(client) = TcpStream::connect(rt, (Ipv4Addr::LOCALHOST, port)) {
            return Ok(client);
        }
        thread::sleep(rt, Duration::from_millis(10));
    }
    Err(io::Error::from(io::ErrorKind::TimedOut))
}

/// Sends a request, and says whether its response holds a word. A short response comes in one piece.
fn is_told(client: &mut TcpStream, request: &str, word: &[u8]) -> io::Result<bool> {
    client.write_all(request.as_bytes())?;
    let mut piece = [0; 4_096];
    let n = client.read(&mut piece)?;
    Ok(
        piece[..n]
            .windows(word.len().max(1))
            .any(|part| part == word),
    )
}

/// Submits a file, and looks at its job until it is copied; whether it was, after so many looks at most.
fn is_copied(rt: &HostRuntime, port: u16) -> io::Result<bool> {
    let mut client = connect_soon(rt, port)?;
    let mut request =
        "POST /jobs HTTP/1.1\r\nContent-Length: 93\r\n\r\n{\"files\":[{\"sources\":[\"https://a.example/data/f1\"],\"destinations\":[\"https://b.example/f1\"]}]}";
    for _ in 0..500 {
        if is_told(&mut client, request, b"FINISHED")? {
            return Ok(true);
        }
        request = "GET /jobs/00000000-0000-4000-8000-000000000001 HTTP/1.1\r\n\r\n";
        thread::sleep(rt, Duration::from_millis(10));
    }
    Ok(false)
}

#[test]
fn a_service_copies_what_a_client_submits(rt: HostRuntime) -> Result<(), Fail> {
    let (folder, source) = ("./served", "./served/grid/https:,,a.example/data");
    let _old = fs::remove_dir_all(&rt, folder);
    fs::create_dir_all(&rt, source)?;
    fs::write(&rt, "./served/grid/https:,,a.example/data/f1", b"abc")?;
    fs::write(&rt, "./served/fts.toml", SETTINGS.as_bytes())?;
    let mut words = Vec::new(rt.alloc());
    for word in ["serve", "--port", "18423", "--lanes=1", "--connections=1"] {
        words.push(String::from_str(rt.alloc(), word)?)?;
    }
    let (ended, copied) = thread::join(
        &rt,
        || run_in_folder(&rt, &rt, folder, words.as_slice()),
        || is_copied(&rt, PORT),
    );
    assert!(rt;
        ended?.status == 0,
        "the service ends behind its one connection"
    );
    assert!(rt; copied?, "the client is told");
    let copy = fs::read(&rt, "./served/grid/https:,,b.example/f1")?;
    assert!(rt;
        copy.as_slice() == b"abc".as_slice(),
        "the copy holds the source's bytes"
    );
    Ok(())
}
