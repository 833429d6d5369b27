// Which of some names a text is near to.
ghost use Rattle.std.specs.Prelude.{◌≡◌, IfOk, map, option_map};
ghost use Rattle.cj_answers.specs.Nearest.{edits, meant};

use std::alloc::{AllocError, Global};
use strsim::generic_levenshtein;

/// How many bytes are put in, left out or changed to make the name of the text.
#[tactic(auto, unfolding(crate::specs::Nearest::edits))]
pub(crate) fn edits(alloc: Global, text: &[u8], name: &str) -> Result<usize, AllocError>
    ensures { IfOk result (λ d. d ≡ edits text.now name.now) }
{
    generic_levenshtein(alloc, text, name.as_bytes())
}

/// The name that may be meant by the text: the nearest, the first one of several that are as near;
/// none where none is near.
pub(crate) fn meant<'n>(
    alloc: Global,
    text: &[u8],
    names: &[&'n str],
) -> Result<Option<&'n str>, AllocError>
    ensures { IfOk result (λ found. option_map (λ n. n.now) found
        ≡ meant text.now (map (λ n. n.now) names.now)) }
{
    let mut found = None;
    let mut above = text.len() / 3 + 1;
    for name in names {
        let edits = edits(alloc, text, name)?;
        if edits < above {
            above = edits;
            found = Some(*name);
        }
    }
    Ok(found)
}
