// How long something lasts, as kubectl prints it: `5m`, `2d12h`.
use std::alloc::{AllocError, Global};

const MINUTE: u64 = 60;

const HOUR: u64 = 3_600;

const DAY: u64 = 86_400;

// So many of a unit, where units are left to be told; how many are left then. A unit of which there
// is none isn't told, and counts once a greater one was told.
fn push_unit(
    alloc: Global,
    text: &mut String,
    count: u64,
    unit: &str,
    left: u32,
) -> Result<u32, AllocError> {
    if left == 0 || (count == 0 && text.as_str().is_empty()) {
        return Ok(left);
    }
    if count > 0 {
        let words = format!(in alloc; "{count}{unit}")?;
        text.push_str(words.as_str())?;
    }
    Ok(left - 1)
}

/// So many seconds, in days, hours, minutes and seconds: the greatest `most` of these.
pub(crate) fn span_text(alloc: Global, span: u64, most: u32) -> Result<String, AllocError> {
    let mut text = String::new(alloc);
    let left = push_unit(alloc, &mut text, span / DAY, "d", most)?;
    let left = push_unit(alloc, &mut text, span % DAY / HOUR, "h", left)?;
    let left = push_unit(alloc, &mut text, span % HOUR / MINUTE, "m", left)?;
    push_unit(alloc, &mut text, span % MINUTE, "s", left)?;
    if text.as_str().is_empty() {
        text.push_str("0s")?;
    }
    Ok(text)
}
