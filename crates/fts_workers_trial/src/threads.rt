//! Threads to their end: two copies that run at once, a cancellation that stops a copy, and passes of a lock that count side by side. Waiting is limited
//! by looks, not by time.
//! `tests` has the workers of `fts_shop`, over the shop and the stations of `bed` and with what holds a copy in `holding`, `overdue` a turn of one
//! about the moment from which a file is overdue, and `stopping` workers whose gate is closed; `turnstile` the lock of `fts_turnstile`, and `passes` those of `fts_passes`.

mod bed;
mod holding;
mod overdue;
mod passes;
mod stopping;
mod tests;
mod turnstile;
