//! The machine's time that only goes on, by which waits are measured.

use std::time::{Clock, Duration};

/// The time since some moment of the machine's; none where it can't be read, and then nothing is ever late.
pub(crate) fn now(rt: &impl Clock) -> Duration {
    match rt.monotonic() {
        Ok(time) => time,
        Err(_) => Duration::from_secs(0),
    }
}

/// Whether `duration` has passed since the moment `since`.
pub(crate) fn has_passed(rt: &impl Clock, since: Duration, duration: Duration) -> bool {
    now(rt).saturating_sub(since) >= duration
}
