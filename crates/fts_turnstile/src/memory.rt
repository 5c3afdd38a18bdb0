//! Want of memory, which only making a lock can meet: no other call allocates.
//! A type of its own, since this crate stands on nothing of the service.

/// There was too little memory.
#[derive(Debug, Drop)]
pub struct Memory;
