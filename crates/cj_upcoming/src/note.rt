ghost use Rattle.std.specs.Prelude.{◌≡◌, OnOk, IfErr};
ghost use Rattle.cj_upcoming.specs.Notes.{Notes, Exceeds};
ghost use Rattle.cj_upcoming.specs.declared.fault.StartsFault.TheVariants.{TooMany};

use crate::fault::StartsFault;
use crate::start::Start;
use std::collections::BTreeSet;

/// The set with the start; `TooMany` where it then has more than `most`.
pub(crate) fn note(
    starts: &mut BTreeSet<Start>,
    start: Start,
    most: usize,
) -> Result<(), StartsFault>
    ensures ok { OnOk result (Notes (λ s. s ≡ start) starts.old starts.new) }
    ensures many { IfErr result (λ e. e ≡ TooMany →
        Exceeds most (λ s. s ≡ start) starts.old starts.new) }
{
    match starts.insert(start) {
        Ok(_) => {}
        Err(_) => return Err(StartsFault::Memory),
    }
    if starts.len() > most {
        return Err(StartsFault::TooMany);
    }
    Ok(())
}
