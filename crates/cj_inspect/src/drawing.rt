// By which zone's clock a picture is drawn.
ghost use Rattle.std.specs.Prelude.{◌≡◌, IfErr};
ghost use Rattle.cj_base.specs.declared.refusal.Refusal.TheVariants.{OutOfMemory};

use cj_answers::zones_for;
use cj_base::Refusal;
use cj_io::ZoneFile;
use cj_zone::{Zone, ZoneTable};
use std::alloc::Global;

/// A table whose local zone is the one of that word; none where there is no word, or it is no zone:
/// then the picture is by UTC, and who prints it refuses the word.
pub fn clock_table(
    alloc: Global,
    word: Option<&str>,
    files: &[ZoneFile],
) -> Result<Option<ZoneTable>, Refusal>
    ensures err { IfErr result (λ e. e ≡ OutOfMemory) }
{
    if word.is_none() {
        return Ok(None);
    }
    match zones_for(alloc, None, word, files) {
        Ok(table) => Ok(Some(table)),
        Err(Refusal::OutOfMemory) => Err(Refusal::OutOfMemory),
        Err(_) => Ok(None),
    }
}

/// The zone of such a table.
pub fn clock_of(table: &Option<ZoneTable>) -> Option<&Zone> {
    Some(table.as_ref()?.default_zone())
}
