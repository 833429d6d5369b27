use cj_program::{Failure, Seconds, by_clock, time_text};
use std::time::{SystemTime, UNIX_EPOCH};

// The time of the machine's clock, in whole seconds; none where there is no clock, or its time is
// outside of 1970 to 9998.
fn clock(rt: &HostRuntime) -> Option<Seconds> {
    let Ok(now) = SystemTime::now(rt) else {
        return None;
    };
    let Ok(since) = now.duration_since(UNIX_EPOCH) else {
        return None;
    };
    Seconds::new(since.as_secs())
}

/// The moment that a text means by the machine's clock, as `-1h`, or that is now where there is no
/// text; none where the text has none to do with the clock, or there is no clock.
pub fn moment_by_clock(rt: &HostRuntime, text: Option<&str>) -> Result<Option<String>, Failure> {
    let Some(now) = clock(rt) else {
        return Ok(None);
    };
    let moment = match text {
        Some(text) => by_clock(now, text),
        None => Some(now),
    };
    match moment {
        Some(moment) => Ok(Some(time_text(rt.alloc(), moment)?)),
        None => Ok(None),
    }
}
