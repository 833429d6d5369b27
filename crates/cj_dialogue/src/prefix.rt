// What can be said of a line that was not read to its end.
use std::alloc::{AllocError, Global};

// The digits at the beginning of bytes, as a number.
fn number(bytes: &[u8]) -> Option<u64> {
    let count = bytes.iter().take_while(|b| b.is_ascii_digit()).count();
    let digits = bytes.get(..count)?;
    str::from_utf8(digits).ok()?.parse::<u64>().ok()
}

/// The number of the request that a line is about, where its first member is `id`.
pub fn id_of(line: &[u8]) -> Option<u64> {
    let head = b"{\"id\":";
    if line.starts_with(head) {
        number(line.get(head.len()..)?)
    } else {
        None
    }
}

/// The line that says that no answer came to a request, for this cause.
pub fn error_line(alloc: Global, id: u64, cause: &str) -> Result<String, AllocError> {
    format!(in alloc; "{{\"id\":{id},\"error\":\"{cause}\"}}")
}
