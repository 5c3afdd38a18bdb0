//! Deletions: `deletes`, over a disk and a store in memory, with passes whose calls fail and hostile journals; `runs`, whole runs of the command.

mod deletes;
mod runs;
