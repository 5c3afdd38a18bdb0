//! What no clause says of the real devices: how doors, lines and links meet clients and services over real sockets, that the clock gives the time and words
//! are the generator's, what refused accepts and failed reads come to, and that a folder is served over them.
//! Tests stand here and not in the crate, so that a changed row builds no library again, and the crate is proved once.
#![tactic(auto)]

#[cfg(test)]
mod accepting;
#[cfg(test)]
mod folders;
#[cfg(test)]
mod outside;
#[cfg(test)]
mod paths;
#[cfg(test)]
mod sockets;
#[cfg(test)]
mod stand;
#[cfg(test)]
mod threads;
