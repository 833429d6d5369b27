// Names that are too long for their place.
ghost use Rattle.std.specs.Prelude.{◌≡◌, IfErr};
ghost use Rattle.cj_base.specs.declared.refusal.Refusal.TheVariants.{OutOfMemory};

use cj_types::Refusal;
use std::alloc::Global;

// So many characters have room beside the bars.
const ROOM: usize = 28;

// So many of them stand before the sign of what is left out, and so many behind it.
const FRONT: usize = 14;

const BACK: usize = 13;

fn push_char(text: &mut String, place: usize, length: usize, c: char) -> Result<(), Refusal>
    ensures err { IfErr result (λ e. e ≡ OutOfMemory) }
{
    if place < FRONT || place >= length.saturating_sub(BACK) {
        text.push(c)?;
    } else if place == FRONT {
        text.push_str("…")?;
    }
    Ok(())
}

/// A name of plain characters, with `…` for its middle where it is too long.
pub(crate) fn shortened(alloc: Global, name: &str) -> Result<String, Refusal>
    ensures err { IfErr result (λ e. e ≡ OutOfMemory) }
{
    let length = name.len();
    if length <= ROOM {
        return Ok(String::from_str(alloc, name)?);
    }
    let mut text = String::new(alloc);
    let mut place: usize = 0;
    for c in name.chars() {
        push_char(&mut text, place, length, c)?;
        place = place.saturating_add(1);
    }
    Ok(text)
}
