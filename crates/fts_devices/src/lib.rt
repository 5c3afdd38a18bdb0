//! The real devices, as the service sees them: the system's clock, words by PCG, the file of a folder's settings, doors of a port of 127.0.0.1 or of a
//! socket with their lines, a client's link to such a port, the file that stops a service, whether threads can be begun, a program's command line, and
//! the hands and lanes that are made of them.
//! Keeps: each device counts its failures at the call that answers them, and tells nothing of contents. What doors and lines decide by an answer of the
//! system is one function each, with an equation over the system's own numbers (`specs/Steps.antt`); the loops over sockets carry it out.
//! Files, folders, disks and streams are not here: they are `fts_files`', `fts_store`'s, `fts_disk`'s and `fts_wire`'s.
#![tactic(auto)]

mod accepting;
mod arguments;
mod gate;
mod hands;
mod lanes;
mod log;
mod outside;
mod relief;
mod socket_doors;
mod socket_line;
mod sockets;
mod steps;
mod stop;
mod tcp_link;
mod threads;

pub use accepting::{Listens, next_line};
pub use arguments::command_line;
pub use gate::ServiceGate;
pub use hands::{SystemHand, hands_over};
pub use lanes::{SystemLane, closed_doors, lanes_over};
pub use log::{ReadyError, SystemLog};
pub use outside::{OpenedFile, PcgWords, SystemClock};
pub use socket_doors::SocketDoors;
pub use socket_line::{LineLimits, SocketLine};
pub use stop::StopFile;
pub use tcp_link::{LinkLimits, TcpLink};
pub use threads::can_begin;
