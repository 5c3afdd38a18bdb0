//! Whole runs that serve, by worked rows: lanes and workers in threads of their own over doors, a journal and stores in memory.
//! What no clause says is that clients read what they wait for while files are copied, and that a run ends as its doors do. Each row prints how its run
//! ended; its clients look so often at most, so that it ends whatever the threads do.
//! Order: doors that give one connection, a second run over its journal, doors that fail, two connections that wait for each other, and then lanes
//! without a run around them.
#![tactic(auto)]

mod lanes;
mod rows;
mod stand;
mod talking;

use std::io;

fn main(rt: HostRuntime) -> io::Result<()> {
    rows::play_all(&rt, &rt)?;
    lanes::play_all(&rt, &rt)
}
