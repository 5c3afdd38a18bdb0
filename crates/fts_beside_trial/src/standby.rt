//! A standby: `answers`, entries and answers by hand, and links that give them; `following`, the call over links and disks in memory; `running`, the
//! command over them.

mod answers;
mod following;
mod running;
