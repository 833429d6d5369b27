// Which zone may be meant by a name that no zone has. Nothing rests on it but a question to people,
// so nothing is stated of it.
use crate::nearest::edits;
use std::alloc::{AllocError, Global};

// A name without the case of its letters, with `_` in the place of each blank.
fn plain(alloc: Global, name: &str) -> Result<String, AllocError> {
    let mut plain = String::new(alloc);
    for letter in name.chars() {
        let letter = if letter == ' ' {
            '_'
        } else {
            letter.to_ascii_lowercase()
        };
        plain.push(letter)?;
    }
    Ok(plain)
}

// The last part of a name, as the city is.
fn last_part(name: &str) -> &str {
    match name.rsplit_once('/') {
        Some((_, last)) => last,
        None => name,
    }
}

// How far a name is from the wanted one, or its last part where that is nearer. Both are plain.
fn distance(alloc: Global, wanted: &str, name: &str) -> Result<usize, AllocError> {
    let whole = edits(alloc, wanted.as_bytes(), name)?;
    let last = edits(alloc, wanted.as_bytes(), last_part(name))?;
    Ok(whole.min(last))
}

/// The name of the zone that is nearest to one that no zone has, whatever the case of the letters;
/// none where none is near.
pub fn nearest_zone<'n>(
    alloc: Global,
    name: &str,
    names: &'n [String],
) -> Result<Option<&'n str>, AllocError> {
    let wanted = plain(alloc, name)?;
    let mut found = None;
    let mut above = wanted.len() / 3 + 1;
    for name in names {
        let plain = plain(alloc, name.as_str())?;
        let distance = distance(alloc, wanted.as_str(), plain.as_str())?;
        if distance < above {
            above = distance;
            found = Some(name.as_str());
        }
    }
    Ok(found)
}
