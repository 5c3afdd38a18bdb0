//! Times of measurements, in seconds. A clock that fails shows no number, and then none is printed: nothing else hangs on it.
use std::io;
use std::time::{Clock, Duration};

/// What a clock shows.
pub fn seconds(shown: io::Result<Duration>) -> f64 {
    match shown {
        Ok(time) => time.as_secs_f64(),
        Err(_) => f64::NAN,
    }
}

/// What the clock shows that never goes back.
pub fn now(rt: &HostRuntime) -> f64 {
    seconds(rt.monotonic())
}
