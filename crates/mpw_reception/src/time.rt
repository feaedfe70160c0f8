//! The time, in milliseconds.

use std::io;
use std::time::Clock;

/// The milliseconds since a moment that stays the same.
///
/// # Errors
/// If the clock can't be read.
pub(crate) fn now<R: Clock>(rt: &R) -> io::Result<u64> {
    let time = rt.monotonic()?;
    Ok(u64::try_from(time.as_millis()).unwrap_or(u64::MAX))
}
