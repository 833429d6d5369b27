ghost use Rattle.std.specs.Prelude.{◌≡◌, ◌++◌, IfOk, OnOk, map, string_bytes};
ghost use Rattle.cj_upcoming.specs.Lists.{behind, join, link};

use std::alloc::{AllocError, Global};

fn link(is_last: bool) -> &'static str
    ensures { result.now ≡ link is_last }
{
    if is_last { " and " } else { ", " }
}

fn push_linked(text: &mut String, is_last: bool, item: &str) -> Result<(), AllocError>
    ensures { OnOk result (string_bytes text.new
        ≡ string_bytes text.old ++ (link is_last ++ item.now)) }
{
    text.push_str(link(is_last))?;
    text.push_str(item)
}

// The texts behind the first.
fn push_behind(text: &mut String, items: &[String]) -> Result<(), AllocError>
    ensures { OnOk result (string_bytes text.new
        ≡ string_bytes text.old ++ behind (map string_bytes items.now)) }
{
    for (i, item) in items.iter().enumerate() {
        let left = items.len() - (i + 1);
        push_linked(text, left == 0, item.as_str())?;
    }
    Ok(())
}

/// Texts in a row, with commas between them and `and` before the last.
pub(crate) fn join(alloc: Global, items: &[String]) -> Result<String, AllocError>
    ensures { IfOk result (λ s. string_bytes s ≡ join (map string_bytes items.now)) }
{
    let mut text = String::new(alloc);
    let [first, rest @ ..] = items else {
        return Ok(text);
    };
    text.push_str(first.as_str())?;
    push_behind(&mut text, rest)?;
    Ok(text)
}
