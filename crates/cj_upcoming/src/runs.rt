ghost use Rattle.std.specs.Prelude.{◌≡◌, ◌∷◌, ◌++◌, IfOk, OnOk, List, [], ℕ, codes, map, string_bytes};
ghost use Rattle.cj_upcoming.specs.Lists.{list_words, run_words, runs, runs_from};
ghost use Rattle.cj_upcoming.specs.Parts.{name};

use crate::join::join;
use crate::part::{Part, name};
use std::alloc::{AllocError, Global};

// Two numbers between which all are meant.
fn range_words(alloc: Global, part: Part, first: u8, last: u8) -> Result<String, AllocError>
    ensures { IfOk result (λ s. string_bytes s
        ≡ name part first ++ (codes " to " ++ name part last)) }
{
    let mut text = name(alloc, part, first)?;
    let last = name(alloc, part, last)?;
    text.push_str(" to ")?;
    text.push_str(last.as_str())?;
    Ok(text)
}

fn run_words(alloc: Global, part: Part, first: u8, last: u8) -> Result<String, AllocError>
    ensures { IfOk result (λ s. string_bytes s ≡ run_words part first last) }
{
    if first == last {
        name(alloc, part, first)
    } else {
        range_words(alloc, part, first, last)
    }
}

fn push_run(
    alloc: Global,
    runs: &mut Vec<String>,
    part: Part,
    first: u8,
    last: u8,
) -> Result<(), AllocError>
    ensures { OnOk result (map string_bytes runs.new.items
        ≡ map string_bytes runs.old.items ++ run_words part first last ∷ []) }
{
    let words = run_words(alloc, part, first, last)?;
    runs.push(words).map_err(AllocError::from)
}

// The first number of the run that the next number lies in, where one from the first up to the last
// was before it.
fn next_run(
    alloc: Global,
    runs: &mut Vec<String>,
    part: Part,
    first: u8,
    last: u8,
    number: u8,
) -> Result<u8, AllocError>
    ensures { IfOk result (λ begin. (rest : List ℕ) →
        map string_bytes runs.new.items ++ runs_from part begin number rest
        ≡ map string_bytes runs.old.items ++ runs_from part first last (number ∷ rest)) }
{
    if number as u32 == last as u32 + 1 {
        return Ok(first);
    }
    push_run(alloc, runs, part, first, last)?;
    Ok(number)
}

// The runs of a list whose first number is this one.
fn push_runs(
    alloc: Global,
    runs: &mut Vec<String>,
    part: Part,
    first: u8,
    rest: &[u8],
) -> Result<(), AllocError>
    ensures { OnOk result (map string_bytes runs.new.items
        ≡ map string_bytes runs.old.items ++ runs_from part first first rest.now) }
{
    let mut begin = first;
    let mut end = first;
    for number in rest {
        begin = next_run(alloc, runs, part, begin, end, *number)?;
        end = *number;
    }
    push_run(alloc, runs, part, begin, end)
}

fn runs(alloc: Global, part: Part, numbers: &[u8]) -> Result<Vec<String>, AllocError>
    ensures { IfOk result (λ v. map string_bytes v.items ≡ runs part numbers.now) }
{
    let mut runs = Vec::new(alloc);
    let [first, rest @ ..] = numbers else {
        return Ok(runs);
    };
    push_runs(alloc, &mut runs, part, *first, rest)?;
    Ok(runs)
}

/// The numbers of a list in order, those that follow one another as `9 to 17`.
pub(crate) fn list_words(alloc: Global, part: Part, numbers: &[u8]) -> Result<String, AllocError>
    ensures { IfOk result (λ s. string_bytes s ≡ list_words part numbers.now) }
{
    let runs = runs(alloc, part, numbers)?;
    join(alloc, runs.as_slice())
}
