// The members of a scenario's manifest that are dropped.
ghost use Rattle.std.specs.Prelude.{◌≡◌, IfOk, option_map, string_bytes};
ghost use Rattle.serde_json.specs.View.{view};
ghost use Rattle.cj_check.specs.Dropped.{IsAskedDropped, IsDropped, dropped_in};

use cj_answers::all_dropped_words;
use cj_io::Failure;
use cj_manifest::{cron_warnings, present};
use cj_scenario::{SceneFault, value_of};
use serde_json::Value;
use std::alloc::Global;

fn dropped_in(alloc: Global, manifest: Option<&Value>) -> Result<String, Failure>
    ensures { IfOk result (λ s. string_bytes s
        ≡ dropped_in (option_map (λ v. view v.now) manifest.entry)) }
{
    let Some(manifest) = manifest else {
        return Ok(String::new(alloc));
    };
    let warnings = cron_warnings(alloc, manifest)?;
    Ok(all_dropped_words(alloc, warnings.as_slice())?)
}

fn dropped(alloc: Global, bytes: &[u8]) -> Result<String, Failure>
    ensures { IfOk result (λ s. IsDropped bytes.now (string_bytes s)) }
{
    match value_of(alloc, bytes) {
        Ok(value) => dropped_in(alloc, present(&value, "manifest")),
        Err(SceneFault::Memory) => Err(Failure::Memory),
        Err(_) => Ok(String::new(alloc)),
    }
}

/// A line for each member of the manifest that is dropped, where people ask for it.
pub(crate) fn asked_dropped(alloc: Global, explain: bool, bytes: &[u8]) -> Result<String, Failure>
    ensures { IfOk result (λ s. IsAskedDropped explain bytes.now (string_bytes s)) }
{
    if explain {
        dropped(alloc, bytes)
    } else {
        Ok(String::new(alloc))
    }
}
