//! Whole runs by worked rows: exchanges over a folder, connections in pieces, runs over one journal, loads, a session in which each call of disk,
//! store, source and sink fails once, and one that is stopped behind each call of its disk.
//! What no clause says is that the definitions mean what a client and an operator expect, over real files and two compilers. The program prints what
//! is otherwise than wanted, and then for each kind how many there were. The exchanges are files of `data/`, and examples for users.
//! Order: requests alone with their replies over a keep in memory (`replies`), the exchanges (`exchanges`), inputs that are cut (`cuts`), journals that
//! stand or are damaged (`journals`), settings and words that stop a run (`refused`), which call comes first (`order`), loads (`loads`), the failing
//! calls (`failing`), the stops (`stops`), the errands (`errands`).
#![tactic(auto)]

mod cuts;
mod errands;
mod exchanges;
mod failing;
mod journals;
mod loads;
mod order;
mod refused;
mod replies;
mod reply_rows;
mod stand;
mod stops;
mod wanted;

use std::io;

fn main(rt: HostRuntime) -> io::Result<()> {
    replies::play_all(&rt)?;
    exchanges::play_all(&rt)?;
    cuts::play_all(&rt)?;
    journals::play_all(&rt)?;
    refused::play_all(&rt)?;
    order::play_all(&rt)?;
    loads::play_all(&rt)?;
    failing::play_all(&rt)?;
    stops::play_all(&rt)?;
    errands::play_all(&rt)
}
