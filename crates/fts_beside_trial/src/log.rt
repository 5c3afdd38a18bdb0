//! The log: `lines`, the bytes of each event; `logged`, which calls of a file system are told, and `over`, also below a store and a disk; `kept`, a
//! log that keeps its lines; `refusing`, a file system that refuses a call.

mod kept;
mod lines;
mod logged;
mod over;
mod refusing;
