// A run as one JSON value.
ghost use Rattle.std.specs.Prelude.{◌≡◌, IfOk, IfErr, string_bytes};
ghost use Rattle.cj_base.specs.declared.refusal.Refusal.TheVariants.{OutOfMemory};
ghost use Rattle.cj_report.specs.timeline.Bars.{bars};
ghost use Rattle.cj_report.specs.timeline.Marks.{marks};
ghost use Rattle.serde_json.specs.View.{view};
ghost use Rattle.cj_program.specs.as_json.Bars.{bars_data};
ghost use Rattle.cj_program.specs.as_json.Marks.{marks_data};
ghost use Rattle.cj_program.specs.as_json.Run.{IsRunData, IsRunJson, run_object};

use crate::as_json::bars::bars_value;
use crate::as_json::gaps::gaps_value;
use crate::as_json::marks::marks_value;
use crate::remarks::{entries_of, gaps_in};
use cj_answers::value_line;
use cj_calls::Entry;
use cj_hub::Closed;
use cj_report::{bars_of, marks_of};
use cj_script::Span;
use cj_types::Refusal;
use cj_zone::ZoneTable;
use serde_json::{Value, json};
use std::alloc::{AllocError, Global};

fn jobs_in(alloc: Global, entries: &[Entry]) -> Result<Value, Refusal>
    ensures ok { IfOk result (λ v. view v ≡ bars_data (bars entries.now)) }
    ensures err { IfErr result (λ e. e ≡ OutOfMemory) }
{
    let bars = bars_of(alloc, entries)?;
    bars_value(alloc, bars.as_slice())
}

fn reasons_in(alloc: Global, entries: &[Entry]) -> Result<Value, Refusal>
    ensures ok { IfOk result (λ v. view v ≡ marks_data (marks entries.now)) }
    ensures err { IfErr result (λ e. e ≡ OutOfMemory) }
{
    let marks = marks_of(alloc, entries)?;
    marks_value(alloc, marks.as_slice())
}

fn run_object(alloc: Global, gaps: Value, jobs: Value, reasons: Value) -> Result<Value, AllocError>
    ensures { IfOk result (λ v. view v ≡ run_object (view gaps) (view jobs) (view reasons)) }
{
    json!(in alloc; {
        "gaps": gaps,
        "jobs": jobs,
        "reasons": reasons
    })
}

// A run under this clock, and with these zones, as one value: the due times that got no Job, the
// Jobs that workers made, and the reasons of syncs.
fn run_value(
    alloc: Global,
    span: &Span,
    zones: &ZoneTable,
    closed: &Closed,
) -> Result<Value, Refusal>
    ensures ok { IfOk result (λ v. IsRunData span.now zones.now closed.now (view v)) }
    ensures err { IfErr result (λ e. e ≡ OutOfMemory) }
{
    let entries = entries_of(closed);
    let jobs = jobs_in(alloc, entries)?;
    let reasons = reasons_in(alloc, entries)?;
    let gaps = gaps_in(alloc, span, zones, closed)?;
    let left = gaps_value(alloc, gaps.as_slice())?;
    Ok(run_object(alloc, left, jobs, reasons)?)
}

/// A run under this clock, and with these zones, as one JSON value on a line: the due times that
/// got no Job, the Jobs that workers made, and the reasons of syncs.
pub(crate) fn run_json(
    alloc: Global,
    span: &Span,
    zones: &ZoneTable,
    closed: &Closed,
) -> Result<String, Refusal>
    ensures ok { IfOk result (λ s. IsRunJson span.now zones.now closed.now (string_bytes s)) }
    ensures err { IfErr result (λ e. e ≡ OutOfMemory) }
{
    let value = run_value(alloc, span, zones, closed)?;
    Ok(value_line(alloc, &value)?)
}
