// Parts of an SVG text.
ghost use Rattle.std.specs.Prelude.{◌≡◌, IfErr};
ghost use Rattle.cj_base.specs.declared.refusal.Refusal.TheVariants.{OutOfMemory};

use cj_types::Refusal;
use std::alloc::{AllocError, Global};

/// A length in tenths, in the units of the picture.
pub(crate) fn tenths(alloc: Global, length: u64) -> Result<String, Refusal>
    ensures err { IfErr result (λ e. e ≡ OutOfMemory) }
{
    let whole = length / 10;
    let rest = length % 10;
    Ok(format!(in alloc; "{whole}.{rest}")?)
}

/// What a character of a text or an attribute is written as, where it can't be written itself.
fn entity(c: char) -> Option<&'static str> {
    match c {
        '&' => Some("&amp;"),
        '<' => Some("&lt;"),
        '>' => Some("&gt;"),
        '"' => Some("&quot;"),
        _ => None,
    }
}

fn push_char(text: &mut String, c: char) -> Result<(), AllocError> {
    match entity(c) {
        Some(entity) => text.push_str(entity),
        None => text.push(c),
    }
}

/// A text as a reader of XML sees it again.
pub(crate) fn escaped(alloc: Global, part: &str) -> Result<String, Refusal>
    ensures err { IfErr result (λ e. e ≡ OutOfMemory) }
{
    let mut text = String::new(alloc);
    for c in part.chars() {
        push_char(&mut text, c)?;
    }
    Ok(text)
}
