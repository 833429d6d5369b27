// What is printed of a run.
ghost use Rattle.std.specs.Prelude.{IfOk, string_bytes};
ghost use Rattle.cj_program.specs.Shown.{IsShown};

use crate::as_json::run_json;
use crate::named::asked_timeline;
use crate::remarks::entries_of;
use cj_answers::is_json;
use cj_args::RunRequest;
use cj_hub::Closed;
use cj_io::Failure;
use cj_picture::picture_text;
use cj_report::history_text;
use cj_run::Ran;
use cj_script::Simulation;
use cj_zone::Zone;
use std::alloc::Global;
use std::mem;

// The time line, the entries, a picture or one JSON value of a run's history, or its report: the
// first of these that the words ask for.
fn shown_text(
    alloc: Global,
    run: &RunRequest<'_>,
    simulation: &Simulation,
    closed: &Closed,
    report: String,
    clock: Option<&Zone>,
) -> Result<String, Failure>
    ensures { IfOk result (λ s. IsShown run.now simulation.now.span simulation.now.zones closed.now
        (string_bytes report) (string_bytes s)) }
{
    let entries = entries_of(closed);
    if run.timeline {
        Ok(asked_timeline(alloc, run, entries)?)
    } else if run.history {
        Ok(history_text(alloc, entries)?)
    } else if run.svg {
        Ok(picture_text(alloc, entries, clock)?)
    } else if is_json(run.output) {
        Ok(run_json(alloc, &simulation.span, &simulation.zones, closed)?)
    } else {
        Ok(report)
    }
}

/// What is printed of a run of the scenario: its report, or what else the words ask for; a picture
/// by a zone's clock.
pub(crate) fn shown(
    alloc: Global,
    run: &RunRequest<'_>,
    simulation: &Simulation,
    ran: Ran,
    clock: Option<&Zone>,
) -> Result<String, Failure>
    ensures { IfOk result (λ s. IsShown run.now simulation.now.span simulation.now.zones ran.closed
        (string_bytes ran.report) (string_bytes s)) }
{
    let Ran { report, closed } = ran;
    let text = shown_text(alloc, run, simulation, closed.get(), report, clock);
    // The program ends with its answer, so a long history isn't given back piece by piece before.
    mem::forget(closed);
    text
}
