ghost use Rattle.std.specs.Prelude.{◌≡◌, ◌≢◌, ◌⊎◌, IfOk};
ghost use Rattle.std.specs.Result.{IsOkAnd};
ghost use Rattle.std.specs.Io.KnownBytes.{Appends};
ghost use Rattle.cj_io.specs.declared.exit_status.ExitStatus.TheVariants as Status;
ghost use Rattle.cj_program.specs.Answers.{IsOutcome};
ghost use Rattle.cj_answers.specs.Outcome.{Outcome, outcome_of, status_of};
ghost use Rattle.cj_program.specs.Writing.{IsCut, IsFailed, IsGiven, IsUnanswered};

use crate::forms::{formed, formed_by};
use crate::replay::serve_replay;
use crate::run::run_answer;
use crate::writing::give;
use cj_answers::{Answer, Ending, next_answer, previous_answer};
use cj_args::Request;
use cj_check::{check_answer, crontab_answer, plan_answer};
use cj_inspect::{
    audit_answer, describing_answer, report_answer, scenario_answer, upcoming_answer, why_answer,
};
use cj_io::{ExitStatus, Failure, ZoneFile, tell_failure};
use cj_run::Meter;
use std::alloc::Global;
use std::io::{Read, Write};
use std::sync::Wait;
use std::thread::Threads;

fn status_of(ending: Ending) -> ExitStatus
    ensures status { result ≡ status_of ending }
    ensures given { result ≢ Status.Failed }
{
    match ending {
        Ending::Done => ExitStatus::Success,
        Ending::Refused => ExitStatus::Refused,
    }
}

/// Gives an answer, or says why there is none.
pub(crate) fn give_answer<W: Write, E: Write>(
    answer: Result<Answer, Failure>,
    out: &mut W,
    err: &mut E,
) -> ExitStatus
    ensures given { result ≢ Status.Failed → IsOkAnd answer
        (λ a. IsGiven result (outcome_of a) (W.contents out.old) (W.contents out.new)
        (E.contents err.old) (E.contents err.new)) }
    ensures failed { result ≡ Status.Failed → IsUnanswered (W.contents out.old) (W.contents out.new)
        (E.contents err.old) (E.contents err.new)
        ⊎ IsOkAnd answer (λ a. IsCut (outcome_of a).printed (outcome_of a).said (W.contents out.old)
        (W.contents out.new) (E.contents err.old) (E.contents err.new)) }
{
    match answer {
        Ok(answer) => give(
            status_of(answer.ending),
            answer.printed.as_str(),
            answer.said.as_str(),
            out,
            err,
        ),
        Err(failure) => tell_failure(failure, err),
    }
}

// What `serve` has for a request that isn't served by one answer.
fn no_answer() -> Result<Answer, Failure>
    ensures { IfOk result (λ a. ⊥) }
{
    Err(Failure::UnexpectedRefusal)
}

/// Serves a request, for which these zone files were read, and answers the exit status: `Success`
/// where it is done, `Refused` where what it asks about is refused, and `Failed` after a failure,
/// which one line on standard error names. The meter shows meanwhile how far a run is.
///
/// A controller reads and writes line after line, so it isn't served here: `Failed`.
pub fn serve<T: Threads + Wait + Sync, R: Read, W: Write, E: Write>(
    rt: &T,
    alloc: Global,
    request: &Request<'_>,
    files: &[ZoneFile],
    input: &mut R,
    out: &mut W,
    err: &mut E,
    meter: &Meter,
) -> ExitStatus
    ensures served { result ≢ Status.Failed → (o : Outcome)
        × IsOutcome request.now files.now (R.remaining input.old) o
        × (result ≡ status_of o.ending)
        × Appends (W.contents out.old) (W.contents out.new) o.printed
        × Appends (E.contents err.old) (E.contents err.new) o.said }
    ensures failed { result ≡ Status.Failed → IsFailed request.now files.now (R.remaining input.old)
        (W.contents out.old) (W.contents out.new) (E.contents err.old) (E.contents err.new) }
{
    match request {
        Request::Next(next) => {
            let answer = next_answer(alloc, next, files);
            give_answer(formed(alloc, next.output, answer), out, err)
        }
        Request::Check(check) => {
            let answer = check_answer(alloc, check, files, input);
            give_answer(formed(alloc, check.output, answer), out, err)
        }
        Request::Plan(plan) => {
            let answer = plan_answer(alloc, plan, files, input);
            give_answer(formed(alloc, plan.output, answer), out, err)
        }
        Request::Replay(replay) => serve_replay(
            alloc,
            replay,
            files,
            input,
            meter.secret(),
            out,
            err,
        ),
        Request::Run(run) => {
            let answer = run_answer(rt, alloc, run, files, input, meter);
            give_answer(
                formed_by(alloc, run.output, run.explain, &run.clock, files, answer),
                out,
                err,
            )
        }
        Request::Why(why) => {
            let answer = why_answer(alloc, why, files, input);
            give_answer(
                formed_by(alloc, why.output, why.explain, &why.clock, files, answer),
                out,
                err,
            )
        }
        Request::Audit(audit) => {
            let answer = audit_answer(alloc, audit, files, input);
            give_answer(
                formed_by(
                    alloc,
                    audit.output,
                    audit.explain,
                    &audit.clock,
                    files,
                    answer,
                ),
                out,
                err,
            )
        }
        Request::Upcoming(upcoming) => {
            let answer = upcoming_answer(alloc, upcoming, files, input);
            give_answer(
                formed_by(
                    alloc,
                    upcoming.output,
                    upcoming.explain,
                    &upcoming.clock,
                    files,
                    answer,
                ),
                out,
                err,
            )
        }
        Request::Describe(describe) => {
            let answer = describing_answer(alloc, describe, files, input);
            give_answer(formed(alloc, describe.output, answer), out, err)
        }
        Request::Previous(previous) => {
            let answer = previous_answer(alloc, previous, files);
            give_answer(formed(alloc, previous.output, answer), out, err)
        }
        Request::Report(report) => {
            give_answer(report_answer(alloc, report, files, input), out, err)
        }
        Request::Scenario(scenario) => {
            give_answer(scenario_answer(alloc, scenario, files, input), out, err)
        }
        Request::Crontab(crontab) => {
            give_answer(crontab_answer(alloc, crontab, files, input), out, err)
        }
        Request::Control(_) => give_answer(no_answer(), out, err),
    }
}
