//! A monitor: that its metrics mean what an operator reads, and that a look sees what came meanwhile. Journals and texts are written by hand, from
//! `docs/FORMATS.md` and from Prometheus' text form. `disk`, a file that changes while it is looked at; `texts`, what is read and what is wanted; `rows`.

mod disk;
mod rows;
mod texts;
