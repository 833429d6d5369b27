ghost use Rattle.std.specs.Prelude.{◌≡◌, ◌⊎◌, Ok, Err, IfOk, IfErr};

use crate::Refusal;

/// Both values, or the refusal of one of them. A value of several parts takes its parts so: with
/// one `?` for all, a proof has one early exit and not one for each part.
pub fn both<A: Drop, B: Drop>(
    first: Result<A, Refusal>,
    second: Result<B, Refusal>,
) -> Result<(A, B), Refusal>
    ensures ok { IfOk result (λ all. (first ≡ Ok all.0) × (second ≡ Ok all.1)) }
    ensures err { IfErr result (λ e. (first ≡ Err e) ⊎ (second ≡ Err e)) }
{
    match (first, second) {
        (Ok(first), Ok(second)) => Ok((first, second)),
        (Err(refusal), _) => Err(refusal),
        (_, Err(refusal)) => Err(refusal),
    }
}

/// All three values, or the refusal of one of them.
pub fn all_three<A: Drop, B: Drop, C: Drop>(
    first: Result<A, Refusal>,
    second: Result<B, Refusal>,
    third: Result<C, Refusal>,
) -> Result<(A, B, C), Refusal>
    ensures ok { IfOk result (λ all.
        (first ≡ Ok all.0) × (second ≡ Ok all.1) × (third ≡ Ok all.2)) }
    ensures err { IfErr result (λ e. (first ≡ Err e) ⊎ (second ≡ Err e) ⊎ (third ≡ Err e)) }
{
    let (first, second) = both(first, second)?;
    Ok((first, second, third?))
}

/// All four values, or the refusal of one of them.
pub fn all_four<A: Drop, B: Drop, C: Drop, D: Drop>(
    first: Result<A, Refusal>,
    second: Result<B, Refusal>,
    third: Result<C, Refusal>,
    fourth: Result<D, Refusal>,
) -> Result<(A, B, C, D), Refusal>
    ensures ok { IfOk result (λ all.
        (first ≡ Ok all.0) × (second ≡ Ok all.1) × (third ≡ Ok all.2) × (fourth ≡ Ok all.3)) }
    ensures err { IfErr result (λ e.
        (first ≡ Err e) ⊎ (second ≡ Err e) ⊎ (third ≡ Err e) ⊎ (fourth ≡ Err e)) }
{
    let (first, second) = both(first, second)?;
    let (third, fourth) = both(third, fourth)?;
    Ok((first, second, third, fourth))
}
