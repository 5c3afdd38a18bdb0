//! How a run ended, as the program sees it: an exit status, and how its rows stand (`specs/Tallies.antt`).

/// How many files were claimed, and how the rows stand at the end.
#[derive(Clone, Copy, Debug, PartialEq, Eq)]
pub struct Tally {
    pub claims: u32,
    pub finished: u32,
    pub failed: u32,
    pub cancelled: u32,
    pub waiting: u32,
}

/// The exit status of a run, and its tally.
#[derive(Clone, Copy, Debug, PartialEq, Eq)]
pub struct Ending {
    pub status: u8,
    pub tally: Tally,
}
