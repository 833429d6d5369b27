// The clock that a scenario says.
ghost use Rattle.std.specs.Prelude.{◌≡◌};
ghost use Rattle.serde_json.specs.View.{view};
ghost use Rattle.cj_script.specs.simulation.Times as said;

use crate::limits::number_or;
use crate::operations::{present, time_at};
use crate::simulation::span::Span;
use serde_json::Value;

/// The clock of a run: from `start` to `end` by `stepSeconds`, 60 where that is missing.
pub(crate) fn span_at(value: &Value) -> Option<Span>
    ensures { result ≡ said.span_in (view value.now) }
{
    let start = time_at(value, "start")?;
    let end = time_at(value, "end")?;
    let step = number_or(60, present(value, "stepSeconds"))?;
    Span::new(start, end, step)
}
