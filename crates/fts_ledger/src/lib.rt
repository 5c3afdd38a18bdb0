//! What a worker's turns keep of what its pass has claimed, whatever lanes and other workers do between them: the laws over turns at a station.
//! `laws` says that a pass reports only what it claimed last itself, that its bench holds what it has out, and that a copy is stopped only where that
//! was asked; and where nobody takes a file from it, that no turn is stale and that the store follows from the pass's own reports.
//! For the run of workers beside lanes, which knows the list of all turns only at its end.
#![tactic(auto)]

pub mod laws;
