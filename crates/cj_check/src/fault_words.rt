// What `--explain` says of the faults of a manifest, by the text of its schedule.
ghost use Rattle.std.specs.Prelude.{◌≡◌, IfOk, option_map, string_bytes};
ghost use Rattle.serde_json.specs.View.{view};
ghost use Rattle.cj_check.specs.FaultWords.{AreFaultWords, schedule_in};

use cj_base::FieldFault;
use cj_explain::explain_faults;
use cj_io::Failure;
use cj_manifest::present;
use cj_scenario::{SceneFault, value_of};
use serde_json::Value;
use std::alloc::Global;

// The text of the schedule.
fn schedule_in(value: &Value) -> Option<&str>
    ensures { option_map (λ s. s.now) result ≡ schedule_in (view value.now) }
{
    present(present(value, "spec")?, "schedule")?.as_str()
}

/// A line for each fault of a manifest.
pub(crate) fn fault_words(
    alloc: Global,
    bytes: &[u8],
    faults: &[FieldFault],
) -> Result<String, Failure>
    ensures { IfOk result (λ s. AreFaultWords bytes.now faults.now (string_bytes s)) }
{
    match value_of(alloc, bytes) {
        Ok(value) => Ok(explain_faults(alloc, schedule_in(&value), faults)?),
        Err(SceneFault::Memory) => Err(Failure::Memory),
        Err(_) => Ok(explain_faults(alloc, None, faults)?),
    }
}
