//! One copy of a round: the order that a file's row asks for is loaded, and copied to its end; and then its part is removed, where the copy ended
//! otherwise than verified. Over every store its calls are those of the copy's script and that one behind them, and it isn't called off
//! (`IsCopied` of `specs/Copies.antt`).
ghost use Rattle.std.specs.Prelude.{◌≡◌, ◌≤◌, false, Some, IsSome, IfSome, option_map};
ghost use Rattle.fts_tables.specs.Counts.{Rose};
ghost use Rattle.fts_tables.specs.Tables.{AreWellFormed, job_at, row_at};
ghost use Rattle.fts_store.specs.Store.{Stays};
ghost use Rattle.fts_copy.specs.Copy.{StaysInside};
ghost use Rattle.fts_workers.specs.Benches.{is_stopped};
ghost use Rattle.fts_copy.specs.Script.{log_of};
ghost use Rattle.fts_copy.specs.Watch.{NoesBy, VerifiedAsks};
ghost use Rattle.fts_workers.specs.Copies.{IsCopied, IsMadeAndTidied, job_id_of, order_in};

use crate::watch::AlwaysWanted;
use fts_copy::{CopyRoom, Loaded, Watch, copy_verified, remove_part};
use fts_desk::Desk;
use fts_store::Store;
use fts_tables::{FileRow, JobRow, Outcome};

// The row of a file that has one.
fn find_row<'a>(desk: &'a Desk, file: u32) -> &'a FileRow
    requires there { IsSome (row_at desk.now.tables.rows file) }
    ensures { row_at desk.now.tables.rows file ≡ Some result.now }
{
    match desk.row(file) {
        Some(row) => row,
        None => unreachable!(),
    }
}

// The job of a row, at the place before its number.
fn find_job<'a>(desk: &'a Desk, row: &FileRow) -> &'a JobRow
    requires formed { AreWellFormed desk.now.tables }
    requires there { row_at desk.now.tables.rows row.now.id ≡ Some row.now }
    ensures { job_at desk.now.tables.jobs row.now.job ≡ Some result.now }
{
    &desk.jobs()[row.job as usize - 1]
}

/// Loads what the copy of a file is asked for, by its row and its job.
pub fn load_order(room: &mut CopyRoom, desk: &Desk, file: u32)
    requires formed { AreWellFormed desk.now.tables }
    requires there { IsSome (row_at desk.now.tables.rows file) }
    ensures order { IfSome (row_at desk.now.tables.rows file) (λ row. room.new ≡ Some (order_in desk.now.tables row)) }
    ensures inside { IfSome (row_at desk.now.tables.rows file) (λ row. StaysInside (order_in desk.now.tables row)) }
{
    let row = find_row(desk, file);
    let job = find_job(desk, row);
    room.load(row, job.overwrite);
}

/// What the copy of a file is asked for, by its row and its job, as an order of its own. None exactly where the file has no row.
pub fn order_of_file(desk: &Desk, file: u32) -> Option<Loaded>
    ensures order { result ≡ option_map (order_in desk.now.tables) (row_at desk.now.tables.rows file) }
    ensures inside { IfSome result StaysInside }
{
    desk.standing();
    let row = desk.row(file)?;
    let job = find_job(desk, row);
    Some(Loaded::of(row, job.overwrite))
}

/// The id of the job of a file, by its row. None exactly where the file has no row.
pub fn job_of_file(desk: &Desk, file: u32) -> Option<u128>
    ensures { result ≡ job_id_of desk.now.tables file }
{
    desk.standing();
    let row = desk.row(file)?;
    Some(find_job(desk, row).id)
}

/// Copies what was loaded, to its end, and behind it removes its part, where the copy ended otherwise than verified: the file's bytes take no room
/// then, and no handle of theirs stays open. The outcome is that of the copy, whatever the removal came to: the store counts one that fails.
pub fn copy_and_tidy<E: Store, V: Watch>(
    store: &mut E,
    room: &mut CopyRoom,
    watch: &mut V,
) -> Outcome
    requires loaded { IsSome room.old }
    ensures room { room.new ≡ room.old }
    ensures stays { Stays (E.state store.old) (E.state store.new) }
    ensures copied { IfSome room.old (λ order. IsMadeAndTidied (E.state store.old) (E.state store.new)
        (log_of (E.calls store.old) (V.answers watch.old)) (log_of (E.calls store.new) (V.answers watch.new))
        (E.faults store.old) (E.faults store.new) (record { order = order; outcome = result })) }
    ensures no_fewer_faults { E.faults store.old ≤ E.faults store.new }
    ensures store_failed { result ≡ Outcome.StoreFailed → Rose (E.faults store.old) (E.faults store.new) }
    ensures noes { NoesBy result (V.noes watch.old) (V.noes watch.new) }
    ensures asked { VerifiedAsks result (V.askings watch.old) (V.askings watch.new) }
    ensures later { V.later watch.old watch.new }
{
    let outcome = copy_verified(store, room, watch);
    remove_part(store, room, outcome);
    outcome
}

/// Copies what was loaded, to its end, with a watch that always says yes, and removes its part behind it.
pub fn copy_loaded<E: Store>(store: &mut E, room: &mut CopyRoom) -> Outcome
    requires loaded { IsSome room.old }
    requires inside { IfSome room.old StaysInside }
    ensures room { room.new ≡ room.old }
    ensures unstopped { is_stopped result ≡ false }
    ensures copied { IfSome room.old (λ order. IsCopied (E.state store.old) (E.state store.new) (E.calls store.old) (E.calls store.new)
        (E.faults store.old) (E.faults store.new) (record { order = order; outcome = result })) }
{
    let mut watch = AlwaysWanted::new();
    copy_and_tidy(store, room, &mut watch)
}
