//! The ends of a journal: the first limit, at which submissions and priorities stop, and the last one, up to which the rest goes on.
//! A disk holds the same block of bytes again and again, so that a journal is as long as it has to be at no cost; rows say what is answered where
//! the last gate would stand at the last offset that is allowed, and one byte behind it.
use super::entries::{RESTART, command, settings};
use fts_disk::{Disk, DiskFailed};
use fts_journal::{Journal, JournalFault};
use fts_keep::{Keep, KeepFault};
use std::alloc::{AllocError, Global};
use std::test::Fail;

/// A file: its first bytes, one block so many times, its last bytes, and zeros. It tells nothing of its contents, as real ones don't, and forgets
/// what is written behind them, which nobody reads again.
#[derive(Drop)]
struct Repeating {
    first: Vec<u8>,
    block: Vec<u8>,
    times: u64,
    last: Vec<u8>,
}

impl Repeating {
    /// How many bytes the blocks are.
    fn blocks(&self) -> u64 {
        (self.block.len() as u64).saturating_mul(self.times)
    }

    /// The bytes from an offset on, up to the end of its part: the first bytes, one block, or the last bytes. None behind these.
    fn rest_at(&self, at: u64) -> &[u8] {
        let first = self.first.len() as u64;
        let behind = at.saturating_sub(first);
        let (part, place) = if at < first {
            (&self.first, at)
        } else if behind < self.blocks() {
            let place = behind.checked_rem(self.block.len() as u64);
            (&self.block, place.unwrap_or(0))
        } else {
            (&self.last, behind.saturating_sub(self.blocks()))
        };
        &part[(place as usize).min(part.len())..]
    }
}

impl Disk for Repeating {
    ghost use Rattle.fts_disk.specs.Disk.{untold};

    ghost state = { λ _. untold };

    ghost faults = { λ _. 0 };

    ghost lawful = { λ disk told. Prim.cc };

    fn len(&mut self) -> Result<u64, DiskFailed> {
        let ends = (self.first.len() as u64).saturating_add(self.last.len() as u64);
        Ok(self.blocks().saturating_add(ends).saturating_add(1))
    }

    fn read_at(&mut self, at: u64, into: &mut [u8]) -> Result<(), DiskFailed> {
        let rest = self.rest_at(at);
        if into.len() <= rest.len() {
            into.copy_from_slice(&rest[..into.len()]);
            return Ok(());
        }
        for (place, byte) in into.iter_mut().enumerate() {
            let there = self.rest_at(at.saturating_add(place as u64)).first();
            *byte = there.copied().unwrap_or(0);
        }
        Ok(())
    }

    fn write_at(&mut self, _at: u64, _bytes: &[u8]) -> Result<(), DiskFailed> {
        Ok(())
    }

    fn sync(&mut self) -> Result<(), DiskFailed> {
        Ok(())
    }
}

/// A body behind an open gate and its length.
fn framed(alloc: Global, body: &[u8]) -> Result<Vec<u8>, AllocError> {
    let size = u32::try_from(body.len()).unwrap_or(u32::MAX);
    let mut bytes = [1].to_vec(alloc)?;
    bytes.extend_from_slice(&size.to_le_bytes())?;
    bytes.extend_from_slice(body)?;
    Ok(bytes)
}

/// The greatest body.
const GREATEST: usize = 4_194_304;

/// A journal of 255 greatest bodies, whose last gate stands at 1,069,548,803, and one of so many bytes behind them, or none.
fn long_journal(alloc: Global, last: usize) -> Result<Repeating, AllocError> {
    let last = if last == 0 {
        Vec::new(alloc)
    } else {
        framed(alloc, &vec![in alloc; 0u8; last]?)?
    };
    Ok(Repeating {
        first: b"FTS3JRN1".to_vec(alloc)?,
        block: framed(alloc, &vec![in alloc; 0u8; GREATEST]?)?,
        times: 255,
        last,
    })
}

/// What a load answers: how many bodies, and the offset of the last gate.
fn loaded(alloc: Global, disk: Repeating) -> Result<(usize, u64), JournalFault> {
    match Journal::load(alloc, disk) {
        Ok(journal) => Ok((journal.count(), journal.used())),
        Err((fault, _disk)) => Err(fault),
    }
}

#[test]
fn a_journal_is_read_up_to_its_end(rt: HostRuntime) -> Result<(), Fail> {
    let alloc = rt.alloc();
    for (case, last, want) in [
        ("255 bodies", 0, Ok((255, 1_069_548_803))),
        (
            "the last gate stands at the last offset",
            4_193_015,
            Ok((256, 1_073_741_823)),
        ),
        (
            "it stands one byte behind it",
            4_193_016,
            Err(JournalFault::Cut {
                offset: 1_069_548_803,
            }),
        ),
    ] {
        let found = loaded(alloc, long_journal(alloc, last)?);
        assert!(rt; found == want, "{case}");
    }
    Ok(())
}

/// What an append of so many bytes behind the 255 bodies answers, and the offset of the last gate then.
fn appended(alloc: Global, size: usize) -> Result<(Result<(), JournalFault>, u64), JournalFault> {
    let mut journal = match Journal::load(alloc, long_journal(alloc, 0)?) {
        Ok(journal) => journal,
        Err((fault, _disk)) => return Err(fault),
    };
    let body = vec![in alloc; 0u8; size]?;
    if journal.doubt() || body.is_empty() || body.len() > GREATEST {
        return Err(JournalFault::NotJournal);
    }
    let answer = journal.append(&body);
    Ok((answer, journal.used()))
}

#[test]
fn a_journal_grows_up_to_its_end(rt: HostRuntime) -> Result<(), Fail> {
    let full = JournalFault::Full {
        used: 1_069_548_803,
    };
    for (case, size, want) in [
        (
            "the last body that fits",
            4_193_015,
            (Ok(()), 1_073_741_823),
        ),
        ("one byte more", 4_193_016, (Err(full), 1_069_548_803)),
    ] {
        let came = appended(rt.alloc(), size)?;
        assert!(rt; came == want, "{case}");
    }
    Ok(())
}

const SUBMIT: &[u8] =
    b"\x00\x02\x80\xe2\xcf\xaa\x06\x00\x01\x00\x03\x00\x00\x00\x01\x00\x11https://a.example\x02f1\x11https://b.example\x02f1\x01\x00\x07default";

const PRIORITY: &[u8] = b"\x00\x05\x80\xe2\xcf\xaa\x06\x01\x05";

const CLAIM: &[u8] = b"\x00\x06\x80\xe2\xcf\xaa\x06\x00\x00\x00\x00\x00\x00\x00\x00";

/// The source of file 1 was missing at its first attempt.
const REPORT: &[u8] = b"\x00\x07\x80\xe2\xcf\xaa\x06\x01\x01\x01";

/// A Restart with the most endpoints, of the longest names.
fn great_restart(alloc: Global) -> Result<Vec<u8>, AllocError> {
    let mut entry = b"\x00\x01\x80\xe2\xcf\xaa\x06\x04demo\x02\x02\x80\x02".to_vec(alloc)?;
    let rest = vec![in alloc; b'a'; 1_014]?;
    for first in b'a'..b'q' {
        for second in b'a'..b'q' {
            entry.extend_from_slice(b"\x80\x08https://")?;
            entry.extend_from_slice(&[first, second])?;
            entry.extend_from_slice(&rest)?;
            entry.extend_from_slice(b"\x05\x05")?;
        }
    }
    entry.extend_from_slice(b"\x00\x01\x07default\x01")?;
    Ok(entry)
}

/// The Restart whose VO has a name longer by so many bytes, of which there are less than 100.
fn longer_restart(alloc: Global, more: usize) -> Result<Vec<u8>, AllocError> {
    let more = more.min(99);
    let mut entry = RESTART[..7].to_vec(alloc)?;
    entry.push(4 + more as u8)?;
    entry.extend_from_slice(b"demo")?;
    entry.extend_from_slice(&vec![in alloc; b'o'; more]?)?;
    entry.extend_from_slice(&RESTART[12..])?;
    Ok(entry)
}

/// Restarts that take so many bytes of a journal.
fn restarts_of(alloc: Global, bytes: u64) -> Result<Vec<u8>, AllocError> {
    let one = framed(alloc, RESTART)?;
    let size = one.len() as u64;
    let mut restarts = Vec::new(alloc);
    for _ in 1..bytes.checked_div(size).unwrap_or(0) {
        restarts.extend_from_slice(&one)?;
    }
    let left = bytes.saturating_sub(restarts.len() as u64);
    let last = longer_restart(alloc, left.saturating_sub(size) as usize)?;
    restarts.extend_from_slice(&framed(alloc, &last)?)?;
    Ok(restarts)
}

/// A journal of a submission between Restarts, whose last gate stands at this offset.
fn journal_to(alloc: Global, used: u64) -> Result<Repeating, AllocError> {
    let mut first = b"FTS3JRN1".to_vec(alloc)?;
    first.extend_from_slice(&framed(alloc, RESTART)?)?;
    first.extend_from_slice(&framed(alloc, SUBMIT)?)?;
    let block = framed(alloc, &great_restart(alloc)?)?;
    let left = used.saturating_sub(first.len() as u64);
    let size = block.len() as u64;
    Ok(Repeating {
        first,
        block,
        times: left.checked_div(size).unwrap_or(0),
        last: restarts_of(alloc, left.checked_rem(size).unwrap_or(0))?,
    })
}

/// A keep whose journal's last gate stands at this offset: its start's own Restart takes 71 bytes of them.
fn keep_at(alloc: Global, used: u64) -> Result<Option<Keep<Repeating>>, Fail> {
    let disk = journal_to(alloc, used.saturating_sub(71))?;
    match Keep::start(alloc, disk, settings(alloc)?, 1_700_000_000) {
        Ok(keep) => Ok(Some(keep)),
        Err((_fault, _disk)) => Ok(None),
    }
}

/// Whether each entry is accepted, or refused by a limit where the last gate stands at an offset, one behind the other.
fn are_answered(alloc: Global, used: u64, rows: &[(&[u8], Option<u64>)]) -> Result<bool, Fail> {
    let Some(mut keep) = keep_at(alloc, used)? else {
        return Ok(false);
    };
    if keep.used() != used {
        return Ok(false);
    }
    for (entry, full) in rows {
        let next = command(alloc, entry)?;
        let want = full.map(|used| KeepFault::JournalFull { used });
        if keep.apply(0, next).err() != want {
            return Ok(false);
        }
    }
    Ok(true)
}

// A submission takes 73 bytes and a priority 14, and the gate behind it has to stand below 134,217,728.
#[test]
fn submissions_and_priorities_stop_at_the_first_limit(rt: HostRuntime) -> Result<(), Fail> {
    for (case, used, rows) in [
        ("the last submission", 134_217_654, [(SUBMIT, None)]),
        (
            "a submission behind it",
            134_217_655,
            [(SUBMIT, Some(134_217_655))],
        ),
        ("the last priority", 134_217_713, [(PRIORITY, None)]),
        (
            "a priority behind it",
            134_217_714,
            [(PRIORITY, Some(134_217_714))],
        ),
    ] {
        assert!(rt; are_answered(rt.alloc(), used, &rows)?, "{case}");
    }
    Ok(())
}

#[test]
fn claims_and_reports_go_on_behind_the_first_limit(rt: HostRuntime) -> Result<(), Fail> {
    let rows = [
        (SUBMIT, Some(134_217_728)),
        (PRIORITY, Some(134_217_728)),
        (CLAIM, None),
        (PRIORITY, Some(134_217_748)),
        (REPORT, None),
    ];
    let is_answered = are_answered(rt.alloc(), 134_217_728, &rows)?;
    assert!(rt;
        is_answered,
        "what settles the file is accepted, and nothing is opened"
    );
    Ok(())
}
