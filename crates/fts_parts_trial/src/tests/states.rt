//! Of `fts_states`: that the rules give what operators expect, by rows written by hand.
use super::made::row;
use FileState::{Active, Canceled, Failed, Finished, NotUsed, Submitted};
use JobKind::{Multihop, Plain, Replica};
use fts_states::{
    CancelStep, Follow, after_cancel, after_report, after_restart, is_overdue, job_state,
    overdue_from,
};
use fts_tables::{FileState, JobKind, JobRow, JobState, Outcome, Reason, Strategy};
use std::test::Fail;

/// A job of two files with one retry, a minute after a failure.
fn job(kind: JobKind) -> JobRow {
    JobRow {
        number: 1,
        id: 7,
        kind,
        priority: 3,
        retry: 1,
        delay: 60,
        overwrite: false,
        strategy: Strategy::Orderly,
        queue_hours: 0,
        submitted_at: 0,
        first: 1,
        count: 2,
    }
}

/// A row: a sentence, a kind, the states of two rows, and the state of their job.
type JobCase = (&'static str, JobKind, FileState, FileState, JobState);

/// Jobs of two rows.
const JOBS: [JobCase; 16] = [
    (
        "both files wait",
        Plain,
        Submitted,
        Submitted,
        JobState::Submitted,
    ),
    (
        "one waits, one is there",
        Plain,
        Submitted,
        Finished,
        JobState::Active,
    ),
    (
        "one runs, one is cancelled",
        Plain,
        Active,
        Canceled,
        JobState::Active,
    ),
    (
        "both are there",
        Plain,
        Finished,
        Finished,
        JobState::Finished,
    ),
    (
        "one is there, one failed",
        Plain,
        Finished,
        Failed,
        JobState::FinishedDirty,
    ),
    ("both failed", Plain, Failed, Failed, JobState::Failed),
    (
        "one is there, one is cancelled",
        Plain,
        Finished,
        Canceled,
        JobState::Canceled,
    ),
    (
        "one replica waits",
        Replica,
        NotUsed,
        Submitted,
        JobState::Submitted,
    ),
    (
        "the second replica is there",
        Replica,
        Failed,
        Finished,
        JobState::Finished,
    ),
    (
        "the first replica is there",
        Replica,
        Finished,
        NotUsed,
        JobState::Finished,
    ),
    (
        "both replicas failed",
        Replica,
        Failed,
        Failed,
        JobState::Failed,
    ),
    (
        "the first hop waits",
        Multihop,
        Submitted,
        NotUsed,
        JobState::Submitted,
    ),
    (
        "the second hop waits",
        Multihop,
        Finished,
        Submitted,
        JobState::Active,
    ),
    (
        "the second hop failed",
        Multihop,
        Finished,
        Failed,
        JobState::Failed,
    ),
    (
        "the first hop failed",
        Multihop,
        Failed,
        NotUsed,
        JobState::Failed,
    ),
    (
        "both hops are there",
        Multihop,
        Finished,
        Finished,
        JobState::Finished,
    ),
];

#[test]
fn the_state_of_a_job_follows_from_its_rows(rt: HostRuntime) -> Result<(), Fail> {
    for (case, kind, first, second, want) in JOBS {
        let rows = [row(rt.alloc(), first)?, row(rt.alloc(), second)?];
        let is_so = job_state(&rows, kind) == want;
        assert!(rt; is_so, "{case}");
    }
    Ok(())
}

#[test]
fn a_failure_waits_for_the_delay_and_counts(rt: HostRuntime) -> Result<(), Fail> {
    let first = row(rt.alloc(), FileState::Active)?;
    let after = after_report(&first, &job(JobKind::Plain), &Outcome::StoreFailed, 1_000);
    let waits = after.state == FileState::Submitted && after.not_before == 1_060;
    assert!(rt; waits, "the first failure");
    for (case, kind, follow) in [
        ("the second failure", JobKind::Plain, Follow::Nothing),
        (
            "the second of a replica",
            JobKind::Replica,
            Follow::NextAlternative,
        ),
        ("the second of a hop", JobKind::Multihop, Follow::Nothing),
    ] {
        let mut again = row(rt.alloc(), FileState::Active)?;
        again.retries = 1;
        let after = after_report(&again, &job(kind), &Outcome::StoreFailed, 1_060);
        let has_failed = after.state == FileState::Failed && after.follow == follow;
        assert!(rt; has_failed, "{case}");
    }
    Ok(())
}

#[test]
fn a_cancelled_copy_ends_by_its_report_or_a_restart(rt: HostRuntime) -> Result<(), Fail> {
    let row = row(rt.alloc(), FileState::Active)?;
    let is_asked = after_cancel(&row) == CancelStep::Asked;
    let waits_again = after_restart(&row) == FileState::Submitted;
    assert!(rt; is_asked && waits_again, "a file that runs");
    let mut asked = row;
    asked.cancel_asked = true;
    let stays = after_cancel(&asked) == CancelStep::Stays;
    let is_cancelled = after_restart(&asked) == FileState::Canceled;
    assert!(rt; stays && is_cancelled, "one that was asked to end");
    let verified = Outcome::Verified {
        size: 3,
        digest: [0; 16],
    };
    let after = after_report(&asked, &job(JobKind::Multihop), &verified, 9);
    let ends = after.state == FileState::Canceled
        && after.reason == Reason::Cancelled
        && after.follow == Follow::Nothing;
    assert!(rt; ends, "its report, though its copy was verified");
    Ok(())
}

/// A job of so many hours in the queue, submitted at a moment.
fn limited_job(queue_hours: u32, submitted_at: u64) -> JobRow {
    JobRow {
        queue_hours,
        submitted_at,
        ..job(JobKind::Plain)
    }
}

#[test]
fn hours_in_the_queue_end_at_a_moment(rt: HostRuntime) {
    for (case, hours, submitted_at, want) in [
        ("no hours are no limit", 0, 1_000, None),
        ("an hour", 1, 1_000, Some(4_600)),
        ("two hours from the first moment", 2, 0, Some(7_200)),
        ("a year", 8_760, 1_700_000_000, Some(1_731_536_000)),
        (
            "an hour that ends at the greatest moment",
            1,
            18_446_744_073_709_548_015,
            Some(18_446_744_073_709_551_615),
        ),
        (
            "an hour that would end a second later",
            1,
            18_446_744_073_709_548_016,
            Some(18_446_744_073_709_551_615),
        ),
        (
            "a year from the greatest moment",
            8_760,
            18_446_744_073_709_551_615,
            Some(18_446_744_073_709_551_615),
        ),
    ] {
        let is_so = overdue_from(&limited_job(hours, submitted_at)) == want;
        assert!(rt; is_so, "{case}");
    }
}

/// A row: a sentence, the hours of a job that was submitted at 1000, the state of its file, a moment, and whether the file is overdue then.
type OverdueCase = (&'static str, u32, FileState, u64, bool);

const OVERDUE: [OverdueCase; 9] = [
    (
        "a second before the hour is over",
        1,
        Submitted,
        4_599,
        false,
    ),
    ("the hour is over", 1, Submitted, 4_600, true),
    ("long after the hour", 1, Submitted, u64::MAX, true),
    ("no limit, ever so late", 0, Submitted, u64::MAX, false),
    ("a file that runs", 1, Active, 4_600, false),
    ("one that is there", 1, Finished, 4_600, false),
    ("one that failed", 1, Failed, 4_600, false),
    ("one that is cancelled", 1, Canceled, 4_600, false),
    ("one whose turn hasn't come", 1, NotUsed, 4_600, false),
];

#[test]
fn only_waiting_files_are_overdue(rt: HostRuntime) -> Result<(), Fail> {
    for (case, hours, state, now, want) in OVERDUE {
        let row = row(rt.alloc(), state)?;
        let is_so = is_overdue(&row, &limited_job(hours, 1_000), now) == want;
        assert!(rt; is_so, "{case}");
    }
    let late = limited_job(1, u64::MAX - 10);
    let row = row(rt.alloc(), Submitted)?;
    let is_cut = !is_overdue(&row, &late, u64::MAX - 1) && is_overdue(&row, &late, u64::MAX);
    assert!(rt; is_cut, "an hour that is cut at the greatest moment");
    Ok(())
}
