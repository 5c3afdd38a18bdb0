//! A journal that a service goes on writing while it is looked at: a disk that is longer each time its length is taken.
//! What is wanted is what stood when the look began, or that and what came meanwhile, and never damage where there is none.
use fts_disk::{Disk, DiskFailed};
use fts_journal::{Journal, JournalFault};
use std::alloc::Global;
use std::test::Fail;

/// A file that grows. It tells nothing of its contents, as real ones don't.
#[derive(Drop)]
struct Growing {
    /// All that is ever written.
    bytes: &'static [u8],
    /// How long it is when its length is taken for the first time, the second, and so on; the last one stays.
    ends: &'static [u64],
    /// How often its length was taken.
    looks: usize,
}

impl Disk for Growing {
    ghost use Rattle.fts_disk.specs.Disk.{untold};

    ghost state = { λ _. untold };

    ghost faults = { λ _. 0 };

    ghost lawful = { λ disk told. Prim.cc };

    fn len(&mut self) -> Result<u64, DiskFailed> {
        let last = self.ends.len().saturating_sub(1);
        let end = self.ends.get(self.looks.min(last)).copied();
        self.looks = self.looks.saturating_add(1);
        Ok(end.unwrap_or(0))
    }

    fn read_at(&mut self, at: u64, into: &mut [u8]) -> Result<(), DiskFailed> {
        let from = (at as usize).min(self.bytes.len());
        for (byte, there) in into.iter_mut().zip(&self.bytes[from..]) {
            *byte = *there;
        }
        Ok(())
    }

    fn write_at(&mut self, _at: u64, _bytes: &[u8]) -> Result<(), DiskFailed> {
        Ok(())
    }

    fn sync(&mut self) -> Result<(), DiskFailed> {
        Ok(())
    }
}

// The header, a body of one byte (5), a body of two (6, 7), a closed gate: gates at 8, 14 and 21.
const TWO_BODIES: &[u8] = b"FTS3JRN1\x01\x01\0\0\0\x05\x01\x02\0\0\0\x06\x07\0";

/// How long that file is at each look, and what a load of it answers: how many bodies, and the offset of the last gate.
const ENDS: [(&str, &[u64], Result<(usize, u64), JournalFault>); 6] = [
    ("it stays as long as it is", &[22], Ok((2, 21))),
    (
        "the second body was appended behind the first look at the length",
        &[15, 22],
        Ok((2, 21)),
    ),
    (
        "the end that was known is within the second body, and later one byte farther, and then behind it",
        &[19, 20, 22],
        Ok((2, 21)),
    ),
    (
        "the end that was known is where a gate is due",
        &[14, 22],
        Ok((2, 21)),
    ),
    (
        "it ends within the second body for good",
        &[20],
        Err(JournalFault::Cut { offset: 14 }),
    ),
    (
        "it grows, and still ends within the second body",
        &[15, 20],
        Err(JournalFault::Cut { offset: 14 }),
    ),
];

#[test]
fn a_journal_that_grows_is_read_as_it_stands(rt: HostRuntime) -> Result<(), Fail> {
    for (case, ends, want) in ENDS {
        let disk = Growing {
            bytes: TWO_BODIES,
            ends,
            looks: 0,
        };
        let seen = loaded(rt.alloc(), disk);
        assert!(rt; seen == want, "{case}");
    }
    Ok(())
}

fn loaded(alloc: Global, disk: Growing) -> Result<(usize, u64), JournalFault> {
    match Journal::load(alloc, disk) {
        Ok(journal) => Ok((journal.count(), journal.used())),
        Err((fault, _disk)) => Err(fault),
    }
}
