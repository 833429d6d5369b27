// Running the whole controller.
ghost use Rattle.std.specs.Prelude.{◌≡◌, ◌++◌, IfOk, string_bytes};
ghost use Rattle.cj_script.specs.simulation.Simulations.{IsSimulation};
ghost use Rattle.cj_io.specs.declared.zone_files.given.GivenZones.{GivenZones};
ghost use Rattle.cj_answers.specs.Outcome.{done, explained, outcome_of};
ghost use Rattle.cj_run.specs.Runs.{IsRun};
ghost use Rattle.cj_program.specs.Run.{IsRanOf, IsRunAnswer, IsRunOutcome};

use crate::named::unknown_of;
use crate::remarks::{asked_remark, entries_of};
use crate::shown::shown;
use cj_answers::{Answer, Ending, given_for, is_form, refused_form, refused_pair};
use cj_args::RunRequest;
use cj_check::{asked_detection, refused_scene};
use cj_inspect::{clock_of, clock_table, refused_unknown};
use cj_io::{Failure, GivenZones, MOST_BYTES, MOST_READS, ZoneFile, read_input};
use cj_run::{Meter, Ran, run_simulation};
use cj_scenario::Form;
use cj_script::{Simulation, read_simulation};
use cj_zone::Zone;
use std::alloc::{AllocError, Global};
use std::io::Read;
use std::sync::Wait;
use std::thread::Threads;

// The most gaps of one CronJob and one cause that get a line each.
const MOST_LINES: u64 = 20;

// The answer with what is printed of a run, with what was seen of the scenario and with what is
// said of the run.
fn reported(
    alloc: Global,
    explain: bool,
    text: String,
    seen: &str,
    remark: &str,
) -> Result<Answer, AllocError>
    ensures { IfOk result (λ a. outcome_of a ≡ explained explain (seen.now ++ remark.now)
        (done (string_bytes text))) }
{
    let answer = Answer {
        ending: Ending::Done,
        printed: text,
        said: String::new(alloc),
    };
    let mut words = String::from_str(alloc, seen)?;
    words.push_str(remark)?;
    answer.explained(explain, words.as_str())
}

// What a run of the scenario that the bytes say is answered.
fn ran_answer(
    alloc: Global,
    run: &RunRequest<'_>,
    bytes: &[u8],
    simulation: &Simulation,
    ran: Ran,
    clock: Option<&Zone>,
) -> Result<Answer, Failure>
    ensures { (given : GivenZones) → IsSimulation given bytes.now simulation.now →
        IsRun simulation.now run.now.workers ran.closed (string_bytes ran.report) →
        IfOk result (λ a. IsRanOf run.now given bytes.now (outcome_of a)) }
{
    let seen = asked_detection(alloc, run.explain, Form::Simulation, bytes)?;
    let remark = asked_remark(
        alloc,
        run.explain,
        MOST_LINES,
        &simulation.span,
        &simulation.zones,
        ran.closed.get(),
    )?;
    let printed = shown(alloc, run, simulation, ran, clock)?;
    Ok(reported(alloc, run.explain, printed, seen.as_str(), remark.as_str())?)
}

// The same where these lines tell which CronJobs are named and are in no event.
fn named_answer(
    alloc: Global,
    run: &RunRequest<'_>,
    bytes: &[u8],
    simulation: &Simulation,
    ran: Ran,
    unknown: &str,
    clock: Option<&Zone>,
) -> Result<Answer, Failure>
    ensures { (given : GivenZones) → IsSimulation given bytes.now simulation.now →
        IsRun simulation.now run.now.workers ran.closed (string_bytes ran.report) →
        IfOk result (λ a. IsRanOf run.now given bytes.now (outcome_of a)) }
{
    if unknown.is_empty() {
        ran_answer(alloc, run, bytes, simulation, ran, clock)
    } else {
        refused_unknown(alloc, run.explain, unknown)
    }
}

// Runs the scenario that the bytes say.
fn answered<T: Threads + Wait + Sync>(
    rt: &T,
    alloc: Global,
    run: &RunRequest<'_>,
    bytes: &[u8],
    simulation: &Simulation,
    meter: &Meter,
    clock: Option<&Zone>,
) -> Result<Answer, Failure>
    ensures { (given : GivenZones) → IsSimulation given bytes.now simulation.now →
        IfOk result (λ a. IsRanOf run.now given bytes.now (outcome_of a)) }
{
    let ran = run_simulation(rt, alloc, simulation, u64::from(run.workers), meter)?;
    let unknown = unknown_of(alloc, run, entries_of(ran.closed.get()))?;
    named_answer(alloc, run, bytes, simulation, ran, unknown.as_str(), clock)
}

fn bytes_answer<T: Threads + Wait + Sync>(
    rt: &T,
    alloc: Global,
    run: &RunRequest<'_>,
    given: GivenZones<'_>,
    bytes: &[u8],
    meter: &Meter,
    clock: Option<&Zone>,
) -> Result<Answer, Failure>
    ensures { IfOk result (λ a. IsRanOf run.now given.entry bytes.now (outcome_of a)) }
{
    match read_simulation(alloc, given, bytes) {
        Ok(simulation) => answered(rt, alloc, run, bytes, &simulation, meter, clock),
        Err(fault) => refused_scene(alloc, run.explain, Form::Simulation, bytes, fault),
    }
}

// What is answered where the form of the output is one of `run`'s.
fn form_answer<T: Threads + Wait + Sync, R: Read>(
    rt: &T,
    alloc: Global,
    run: &RunRequest<'_>,
    files: &[ZoneFile],
    input: &mut R,
    meter: &Meter,
) -> Result<Answer, Failure>
    ensures { IfOk result (λ a. IsRunAnswer run.now files.now (R.remaining input.old)
        (outcome_of a)) }
{
    let Some(given) = given_for(alloc, &run.zones, files)? else {
        return refused_pair(alloc, run.explain);
    };
    let bytes = read_input(alloc, input, MOST_BYTES, MOST_READS)?;
    let table = clock_table(alloc, run.clock.zone, files)?;
    bytes_answer(
        rt,
        alloc,
        run,
        given,
        bytes.as_slice(),
        meter,
        clock_of(&table),
    )
}

/// What the command `run` answers. The form of the output is looked at first, then the zones, and
/// then all of the input is read. A run without a report is a failure.
pub(crate) fn run_answer<T: Threads + Wait + Sync, R: Read>(
    rt: &T,
    alloc: Global,
    run: &RunRequest<'_>,
    files: &[ZoneFile],
    input: &mut R,
    meter: &Meter,
) -> Result<Answer, Failure>
    ensures { IfOk result (λ a. IsRunOutcome run.now files.now (R.remaining input.old)
        (outcome_of a)) }
{
    if is_form(run.output) {
        form_answer(rt, alloc, run, files, input, meter)
    } else {
        refused_form(alloc, run.explain)
    }
}
