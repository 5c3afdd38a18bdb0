//! A restart: whatever was ACTIVE is no longer copied by anyone. It waits again, or is CANCELED where that was asked.
use super::plain::PlainRow;
use fts_tables::{Answer, FileState, Reason};

/// Releases each ACTIVE row, and says how many there were. No retry is counted, and the attempt stays.
pub fn restart(rows: &mut [PlainRow]) -> Answer {
    let mut released = 0u32;
    for row in rows.iter_mut() {
        if row.state == FileState::Active {
            released = released.saturating_add(1);
            release(row);
        }
    }
    Answer::Restarted { released }
}

/// Releases an ACTIVE row.
fn release(row: &mut PlainRow) {
    if row.cancel_asked {
        row.state = FileState::Canceled;
        row.reason = Reason::Cancelled;
    } else {
        row.state = FileState::Submitted;
    }
}
