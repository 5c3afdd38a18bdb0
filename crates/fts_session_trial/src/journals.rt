//! Runs over one journal, one behind the other: a session goes on where the last one ended, a ban too, `show` writes what is there and leaves it, and
//! a damaged journal stops the run and stays. The list that a start leaves is written byte for byte, by the format of journals and entries; what `show`
//! writes stands in `shown.txt`.
use crate::stand::{
    Ended, SETTINGS, count_row, empty_disk, hands_with, make_given, no_memory, print_count,
    run_words, source,
};
use fts_disk::MemoryDisk;
use fts_store::{MemoryStore, Store};
use fts_tables::PlaceRef;
use std::alloc::Global;
use std::{fs, io};

/// Two submissions of one file, the second of which finds its destination there.
pub const TWO: &str = "cut-two-submissions.in.http";

/// What is answered to them.
pub const ANSWERED: &str = "cut-two-submissions.out.http";

/// A submission of another file, which is not there.
const ONE: &str = "cut-keys-in-another-order-and-blanks.in.http";

/// What is answered to it as the third job.
const THIRD: &str =
    "HTTP/1.1 200 OK\r\nContent-Type: application/json\r\nContent-Length: 49\r\n\r\n{\"job_id\":\"00000000-0000-4000-8000-000000000003\"}";

/// A ban of the second storage, after which files wait, and a submission of a file for it.
const BAN: &str = "a-ban-and-a-job.in.http";

/// What is answered to them.
const BANNED: &str = "a-ban-and-a-job.out.http";

/// The end of that ban.
const UNBAN: &str = "the-end-of-a-ban.in.http";

/// What is answered to it.
const UNBANNED: &str = "the-end-of-a-ban.out.http";

/// A look at the journal's first entry.
const FIRST_ENTRY: &str = "a-look-at-the-first-entry.in.http";

/// What is answered to it over a new journal.
const SHOWN_FIRST: &str = "a-look-at-the-first-entry.out.http";

/// What is answered to it over the journal that this leaves: one entry more, which is the second Restart.
const SHOWN_AGAIN: &str = "the-same-behind-a-restart.out.http";

/// What `show` writes after the two submissions: the file of the first is there, and the second finds its destination.
const SHOWN: &str = "shown.txt";

/// A journal of one Restart of the stand's settings at 1,700,000,000, by the format of journals and entries.
const RESTARTED: &[u8] =
    b"FTS3JRN1\x01\x42\0\0\0\x00\x01\x80\xe2\xcf\xaa\x06\x04demo\x02\x02\x02\x11https://a.example\x14\x14\x11https://b.example\x14\x14\x00\x01\x07default\x01\x00";

/// A journal that begins with a cancellation and not with a Restart, by writer 3, as docs/FORMATS.md spells it.
const DAMAGED: &[u8] = b"FTS3JRN1\x01\x08\0\0\0\x03\x03\x80\xe2\xcf\xaa\x06\x01\x07";

/// A run over a disk and a store in memory.
type Run = Ended<MemoryDisk, MemoryStore>;

/// A run of this command over a disk, with a store that has the file `data/f1`.
fn run_over(alloc: Global, command: &str, disk: MemoryDisk, input: &[u8]) -> io::Result<Run> {
    run_words(
        alloc,
        &[command],
        make_given(alloc, SETTINGS, source(alloc, input)?)?,
        disk,
        empty_disk(alloc),
        hands_with(alloc, &["data/f1"], Vec::new(alloc))?,
    )
}

/// A session of the two submissions over an empty disk.
fn two_submissions(rt: &HostRuntime) -> io::Result<Run> {
    let input = fs::read(rt, TWO)?;
    run_over(
        rt.alloc(),
        "session",
        empty_disk(rt.alloc()),
        input.as_slice(),
    )
}

/// What a disk holds at its end, where each byte that isn't stable became this one.
fn left_by(disk: &MemoryDisk, byte: u8) -> io::Result<Vec<u8>> {
    disk.after_stop(disk.calls(), byte).map_err(no_memory)
}

fn goes_on(rt: &HostRuntime) -> io::Result<bool> {
    let first = two_submissions(rt)?;
    let answered = fs::read(rt, ANSWERED)?;
    let is_answered = first.output.bytes() == answered.as_slice();
    let input = fs::read(rt, ONE)?;
    let second = run_over(rt.alloc(), "session", first.disk, input.as_slice())?;
    let tally = second.ending.tally;
    Ok(
        is_answered
            && second.output.bytes() == THIRD.as_bytes()
            && second.ending.status == 0
            && tally.claims == 1
            && tally.finished == 1
            && tally.failed == 2,
    )
}

fn waits_for_the_end_of_a_ban(rt: &HostRuntime) -> io::Result<bool> {
    let alloc = rt.alloc();
    let input = fs::read(rt, BAN)?;
    let first = run_over(alloc, "session", empty_disk(alloc), input.as_slice())?;
    let banned = fs::read(rt, BANNED)?;
    let tally = first.ending.tally;
    let waits = first.output.bytes() == banned.as_slice()
        && first.ending.status == 0
        && tally.claims == 0
        && tally.waiting == 1;
    let input = fs::read(rt, UNBAN)?;
    let second = run_over(alloc, "session", first.disk, input.as_slice())?;
    let unbanned = fs::read(rt, UNBANNED)?;
    let tally = second.ending.tally;
    let is_copied = second.output.bytes() == unbanned.as_slice()
        && second.ending.status == 0
        && tally.claims == 1
        && tally.finished == 1
        && tally.waiting == 0;
    Ok(waits && is_copied)
}

fn shows_the_first_entry(rt: &HostRuntime) -> io::Result<bool> {
    let alloc = rt.alloc();
    let input = fs::read(rt, FIRST_ENTRY)?;
    let first = run_over(alloc, "session", empty_disk(alloc), input.as_slice())?;
    let shown = fs::read(rt, SHOWN_FIRST)?;
    let is_shown = first.output.bytes() == shown.as_slice() && first.ending.status == 0;
    let left = left_by(&first.disk, 7)?;
    let second = run_over(alloc, "session", first.disk, input.as_slice())?;
    let again = fs::read(rt, SHOWN_AGAIN)?;
    Ok(
        is_shown
            && left.as_slice() == RESTARTED
            && second.output.bytes() == again.as_slice()
            && second.ending.status == 0,
    )
}

fn leaves_one_restart(rt: &HostRuntime) -> io::Result<bool> {
    let ended = run_over(rt.alloc(), "session", empty_disk(rt.alloc()), b"")?;
    let left = left_by(&ended.disk, 7)?;
    Ok(ended.ending.status == 0 && left.as_slice() == RESTARTED)
}

fn copies_a_file(rt: &HostRuntime) -> io::Result<bool> {
    let mut ended = two_submissions(rt)?;
    let tally = ended.ending.tally;
    let at = PlaceRef {
        endpoint: "https://b.example",
        path: "f1",
    };
    let Some(hand) = ended.hands.first_mut() else {
        return Ok(false);
    };
    Ok(tally.finished == 1 && tally.failed == 1 && hand.store.size(at) == Ok(Some(3)))
}

fn stops_at_damage(rt: &HostRuntime) -> io::Result<bool> {
    let alloc = rt.alloc();
    let disk = MemoryDisk::holding(alloc, DAMAGED.to_vec(alloc)?, Vec::new(alloc));
    let input = fs::read(rt, TWO)?;
    let ended = run_over(alloc, "session", disk, input.as_slice())?;
    let left = left_by(&ended.disk, 0)?;
    Ok(
        ended.ending.status == 7
            && ended.notes.bytes() == b"fts: journal damaged at 8\n".as_slice()
            && ended.output.bytes().is_empty()
            && left.as_slice() == DAMAGED,
    )
}

/// Shows the journal of the two submissions.
fn show(rt: &HostRuntime) -> io::Result<Run> {
    let first = two_submissions(rt)?;
    let input = fs::read(rt, TWO)?;
    run_over(rt.alloc(), "show", first.disk, input.as_slice())
}

fn shows_the_tables(rt: &HostRuntime) -> io::Result<bool> {
    let shown = show(rt)?;
    let wanted = fs::read(rt, SHOWN)?;
    let tally = shown.ending.tally;
    Ok(
        shown.output.bytes() == wanted.as_slice()
            && shown.notes.bytes().is_empty()
            && shown.ending.status == 0
            && tally.claims == 0
            && tally.finished == 1
            && tally.failed == 1,
    )
}

fn leaves_what_it_shows(rt: &HostRuntime) -> io::Result<bool> {
    let shown = show(rt)?;
    let again = run_over(rt.alloc(), "show", shown.disk, b"")?;
    let wanted = fs::read(rt, SHOWN)?;
    Ok(again.output.bytes() == wanted.as_slice())
}

fn shows_no_journal(rt: &HostRuntime) -> io::Result<bool> {
    let shown = run_over(rt.alloc(), "show", empty_disk(rt.alloc()), b"")?;
    Ok(shown.ending.status == 7 && shown.notes.bytes() == b"fts: journal damaged at 0\n".as_slice())
}

/// Plays each row, and prints what is otherwise than wanted, and how many were as wanted.
pub fn play_all(rt: &HostRuntime) -> io::Result<()> {
    let mut same: u32 = 0;
    for (row, is_wanted) in [
        ("a session goes on where the last one ended", goes_on(rt)?),
        (
            "a file waits over a restart for the end of a ban",
            waits_for_the_end_of_a_ban(rt)?,
        ),
        (
            "a look at the first entry shows a Restart and counts one, and behind another start two",
            shows_the_first_entry(rt)?,
        ),
        ("an empty input leaves one Restart", leaves_one_restart(rt)?),
        ("a file is copied to its destination", copies_a_file(rt)?),
        (
            "a damaged journal stops the run and stays",
            stops_at_damage(rt)?,
        ),
        ("show writes the tables of a journal", shows_the_tables(rt)?),
        (
            "show leaves the journal as it was",
            leaves_what_it_shows(rt)?,
        ),
        (
            "show finds no journal on an empty disk",
            shows_no_journal(rt)?,
        ),
    ] {
        same = same.saturating_add(count_row(rt, row, is_wanted)?);
    }
    print_count(rt, "runs over a journal as wanted", same)
}
