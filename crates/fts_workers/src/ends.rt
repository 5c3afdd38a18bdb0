//! How a round ends.

/// How a round ended. The last three say why it met a fault; what was held and not reported is held still.
#[derive(Clone, Copy, Debug, PartialEq, Eq)]
pub enum RoundEnd {
    /// No fault, and nothing is held.
    Clear,
    /// No fault, and so many files are held, from 1 to 16.
    Busy { held: u32 },
    /// A call of the disk failed in this round.
    DiskFailed,
    /// An entry and the gate behind it didn't fit the journal behind this offset, in bytes.
    JournalFull { used: u64 },
    /// Memory ran out.
    Memory,
}
