ghost use Rattle.std.specs.Prelude.{◌≡◌, IfOk, IfErr, codes, string_bytes};
ghost use Rattle.cj_base.specs.declared.refusal.Refusal.TheVariants.{OutOfMemory};
ghost use Rattle.cj_answers.specs.Outcome.{IsNextAnswer, IsNextOutcome, IsScheduleRefusal, TellsTimes, after_words, done, explained, next_zone_words, outcome_of, refusal, schedule_line};
ghost use Rattle.cj_answers.specs.as_json.Forms.{is_json};
ghost use Rattle.cj_answers.specs.as_json.Next.{IsNextPrinted};

use crate::answer::{Answer, Ending};
use crate::as_json::{is_form, is_json, next_json, refused_form};
use crate::clock_words::{clock_mark, clock_words};
use crate::hints::schedule_hint;
use crate::moments::moment_of;
use crate::next_lines::next_text;
use crate::zoning::zones_for;
use cj_args::NextRequest;
use cj_base::{Refusal, ScheduleFault, Seconds};
use cj_explain::explain_schedule;
use cj_io::{Failure, ZoneFile};
use cj_schedule::Schedule;
use cj_zone::Zone;
use std::alloc::{AllocError, Global};

fn fault_text(alloc: Global, fault: ScheduleFault) -> Result<String, AllocError>
    ensures { IfOk result (λ s. string_bytes s ≡ schedule_line fault) }
{
    let ScheduleFault { field, byte, cause } = fault;
    let cause = cause.name();
    format!(in alloc; "cronsim: schedule {field} {byte} {cause}\n")
}

pub(crate) fn refused_schedule(
    alloc: Global,
    explain: bool,
    text: &str,
    fault: ScheduleFault,
) -> Result<Answer, AllocError>
    ensures { IfOk result (λ a. IsScheduleRefusal explain text.now fault (outcome_of a)) }
{
    let line = fault_text(alloc, fault)?;
    let mut words = explain_schedule(alloc, text, fault)?;
    words.push_str(schedule_hint(text, fault))?;
    Answer::refused(alloc, line.as_str())?.explained(explain, words.as_str())
}

// What a start has to be.
const AFTER_WORDS: &str =
    "--after: want a time like 2024-01-01T00:00:00Z or 2024-01-01T01:00:00+01:00, a date like 2024-01-01, now, or -1h or +2d from now\n";

fn refused_time(alloc: Global, explain: bool) -> Result<Answer, AllocError>
    ensures { IfOk result (λ a. outcome_of a ≡ explained explain after_words
        (refusal (codes "cronsim: time\n"))) }
{
    Answer::refused(alloc, "cronsim: time\n")?.explained(explain, AFTER_WORDS)
}

// What a rule has to be.
const RULE_WORDS: &str =
    "--zone: want UTC, a name like Europe/Berlin, or a POSIX rule like CET-1CEST,M3.5.0,M10.5.0/3\n";

// What the name of a zone has to be.
const TIME_ZONE_WORDS: &str =
    "--time-zone: want the name of a zone whose file is in the folder of --zoneinfo, and no --zone beside it\n";

pub(crate) fn zone_words(name: Option<&str>) -> &'static str
    ensures { result.now ≡ next_zone_words name.entry }
{
    match name {
        None => RULE_WORDS,
        Some(_) => TIME_ZONE_WORDS,
    }
}

pub(crate) fn refused_zone(alloc: Global, explain: bool, words: &str) -> Result<Answer, AllocError>
    ensures { IfOk result (λ a. outcome_of a ≡ explained explain words.now
        (refusal (codes "cronsim: zone\n"))) }
{
    Answer::refused(alloc, "cronsim: zone\n")?.explained(explain, words)
}

fn printed(alloc: Global, text: String) -> Answer
    ensures { outcome_of result ≡ done (string_bytes text) }
{
    Answer {
        ending: Ending::Done,
        printed: text,
        said: String::new(alloc),
    }
}

pub(crate) fn told(
    alloc: Global,
    explain: bool,
    text: String,
    words: &str,
) -> Result<Answer, AllocError>
    ensures { IfOk result (λ a. outcome_of a
        ≡ explained explain words.now (done (string_bytes text))) }
{
    printed(alloc, text).explained(explain, words)
}

// The due times, as JSON or in lines.
fn next_printed(
    alloc: Global,
    next: &NextRequest<'_>,
    schedule: &Schedule,
    zone: &Zone,
    after: Seconds,
) -> Result<String, Refusal>
    ensures ok { IfOk result (λ s. IsNextPrinted (is_json next.now.output.now) next.now schedule.now
        zone.now after (string_bytes s)) }
    ensures err { IfErr result (λ e. e ≡ OutOfMemory) }
{
    if is_json(next.output) {
        next_json(alloc, next, schedule, zone, after)
    } else {
        next_text(alloc, schedule, zone, after, next.count)
    }
}

// The due times, and what there is to say of the zone's clock.
fn times_answer(
    alloc: Global,
    next: &NextRequest<'_>,
    schedule: &Schedule,
    zone: &Zone,
    after: Seconds,
) -> Result<Answer, Failure>
    ensures { IfOk result (λ a. TellsTimes next.now schedule.now zone.now after (outcome_of a)) }
{
    let text = next_printed(alloc, next, schedule, zone, after)?;
    let mark = clock_mark(next.time_zone);
    let words = clock_words(alloc, mark, schedule, zone, after)?;
    Ok(told(alloc, next.explain, text, words.as_str())?)
}

// What is answered in a form that there is.
fn form_answer(alloc: Global, next: &NextRequest<'_>, files: &[ZoneFile]) -> Result<Answer, Failure>
    ensures { IfOk result (λ a. IsNextAnswer next.now files.now (outcome_of a)) }
{
    let schedule = match Schedule::parse(next.schedule) {
        Ok(schedule) => schedule,
        Err(fault) => {
            return Ok(refused_schedule(alloc, next.explain, next.schedule, fault)?);
        }
    };
    let Some(after) = moment_of(alloc, next.after)? else {
        return Ok(refused_time(alloc, next.explain)?);
    };
    let table = match zones_for(alloc, next.time_zone, next.zone, files) {
        Ok(table) => table,
        Err(Refusal::OutOfMemory) => return Err(Failure::Memory),
        Err(_) => {
            let words = zone_words(next.time_zone);
            return Ok(refused_zone(alloc, next.explain, words)?);
        }
    };
    times_answer(alloc, next, &schedule, table.default_zone(), after)
}

/// What the command `next` answers: the form of what is printed is looked at first, then the
/// schedule, then the start, then the zone.
pub fn next_answer(
    alloc: Global,
    next: &NextRequest<'_>,
    files: &[ZoneFile],
) -> Result<Answer, Failure>
    ensures { IfOk result (λ a. IsNextOutcome next.now files.now (outcome_of a)) }
{
    if is_form(next.output) {
        form_answer(alloc, next, files)
    } else {
        refused_form(alloc, next.explain)
    }
}
