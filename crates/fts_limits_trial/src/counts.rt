//! What is counted over the tables, and printed.
use crate::commands::Kept;
use fts_routes::job_state_text;
use fts_tables::FileRow;
use std::io;

/// The state of a job, as replies have it.
pub fn state_text(keep: &Kept, job: u32) -> &'static str {
    match keep.desk().state(job) {
        Some(state) => job_state_text(state),
        None => "not there",
    }
}

/// Prints how many rows there are of each state.
pub fn print_states(rt: &HostRuntime, keep: &Kept) -> io::Result<()> {
    let rows = keep.desk().rows();
    println!(rt;
        "rows: {} SUBMITTED, {} ACTIVE, {} FINISHED, {} FAILED, {} CANCELED, {} NOT_USED",
        rows.iter().filter(|row| row.state.is_submitted()).count(),
        rows.iter().filter(|row| row.state.is_active()).count(),
        rows.iter().filter(|row| row.state.is_finished()).count(),
        rows.iter().filter(|row| row.state.is_failed()).count(),
        rows.iter().filter(|row| row.state.is_canceled()).count(),
        rows.iter().filter(|row| row.state.is_not_used()).count()
    )
}

/// Prints how many jobs, rows and commands there are.
pub fn print_tables(rt: &HostRuntime, keep: &Kept) -> io::Result<()> {
    let desk = keep.desk();
    println!(rt;
        "tables: {} jobs, {} rows, {} commands",
        desk.jobs().len(),
        desk.rows().len(),
        desk.commands()
    )
}
