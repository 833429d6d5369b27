// What `previous` answers of a schedule.
ghost use Rattle.std.specs.Prelude.{◌≡◌, IfErr, IfOk, codes, string_bytes};
ghost use Rattle.cj_base.specs.declared.refusal.Refusal.TheVariants.{OutOfMemory};
ghost use Rattle.cj_answers.specs.ClockWords.{IsClockWords, year_before};
ghost use Rattle.cj_answers.specs.Outcome.{explained, outcome_of, refusal};
ghost use Rattle.cj_answers.specs.Previous.{IsPreviousAnswer, IsPreviousOutcome, TellsPast, before_words};
ghost use Rattle.cj_answers.specs.as_json.Forms.{is_json};
ghost use Rattle.cj_answers.specs.as_json.Previous.{IsPreviousPrinted};

use crate::answer::Answer;
use crate::as_json::{is_form, is_json, previous_json, refused_form};
use crate::clock_words::{clock_mark, clock_words};
use crate::moments::asked_moment;
use crate::next::{refused_schedule, refused_zone, told, zone_words};
use crate::previous_times::{earlier, previous_text};
use crate::zoning::zones_for;
use cj_args::PreviousRequest;
use cj_base::{Refusal, Seconds};
use cj_io::{Failure, ZoneFile};
use cj_schedule::Schedule;
use cj_zone::Zone;
use std::alloc::{AllocError, Global};

// What the moment has to be.
const BEFORE_WORDS: &str =
    "--before: want a time like 2024-01-01T00:00:00Z or 2024-01-01T01:00:00+01:00, a date like 2024-01-01, now, or -1h or +2d from now\n";

fn refused_start(alloc: Global, explain: bool) -> Result<Answer, AllocError>
    ensures { IfOk result (λ a. outcome_of a ≡ explained explain before_words
        (refusal (codes "cronsim: time\n"))) }
{
    Answer::refused(alloc, "cronsim: time\n")?.explained(explain, BEFORE_WORDS)
}

// The due times, as JSON or in lines.
fn printed(
    alloc: Global,
    previous: &PreviousRequest<'_>,
    schedule: &Schedule,
    zone: &Zone,
    before: Seconds,
) -> Result<String, Refusal>
    ensures ok { IfOk result (λ s. IsPreviousPrinted (is_json previous.now.output.now) previous.now
        schedule.now zone.now before (string_bytes s)) }
    ensures err { IfErr result (λ e. e ≡ OutOfMemory) }
{
    if is_json(previous.output) {
        previous_json(alloc, previous, schedule, zone, before)
    } else {
        previous_text(alloc, schedule, zone, before, previous.count)
    }
}

// 366 days.
const YEAR: u64 = 31_622_400;

// What the zone's clock skipped, or showed twice, in the year before the moment.
fn past_clock(
    alloc: Global,
    mark: &str,
    schedule: &Schedule,
    zone: &Zone,
    before: Seconds,
) -> Result<String, Refusal>
    ensures ok { IfOk result (λ s. IsClockWords mark.now schedule.now zone.now (year_before before)
        (string_bytes s)) }
    ensures err { IfErr result (λ e. e ≡ OutOfMemory) }
{
    clock_words(alloc, mark, schedule, zone, earlier(before, YEAR))
}

// The due times, and what there is to say of the zone's clock.
fn times_answer(
    alloc: Global,
    previous: &PreviousRequest<'_>,
    schedule: &Schedule,
    zone: &Zone,
    before: Seconds,
) -> Result<Answer, Failure>
    ensures { IfOk result (λ a. TellsPast previous.now schedule.now zone.now before
        (outcome_of a)) }
{
    let text = printed(alloc, previous, schedule, zone, before)?;
    let mark = clock_mark(previous.time_zone);
    let words = past_clock(alloc, mark, schedule, zone, before)?;
    Ok(told(alloc, previous.explain, text, words.as_str())?)
}

// What is answered in a form that there is: the schedule is looked at first, then the moment, then
// the zone.
fn form_answer(
    alloc: Global,
    previous: &PreviousRequest<'_>,
    files: &[ZoneFile],
) -> Result<Answer, Failure>
    ensures { IfOk result (λ a. IsPreviousAnswer previous.now files.now (outcome_of a)) }
{
    let schedule = match Schedule::parse(previous.schedule) {
        Ok(schedule) => schedule,
        Err(fault) => {
            return Ok(refused_schedule(alloc, previous.explain, previous.schedule, fault)?);
        }
    };
    let Some(before) = asked_moment(alloc, previous.before)? else {
        return Ok(refused_start(alloc, previous.explain)?);
    };
    let table = match zones_for(alloc, previous.time_zone, previous.zone, files) {
        Ok(table) => table,
        Err(Refusal::OutOfMemory) => return Err(Failure::Memory),
        Err(_) => {
            let words = zone_words(previous.time_zone);
            return Ok(refused_zone(alloc, previous.explain, words)?);
        }
    };
    times_answer(alloc, previous, &schedule, table.default_zone(), before)
}

/// What the command `previous` answers: the form of what is printed is looked at first, then the
/// schedule, then the moment, then the zone.
pub fn previous_answer(
    alloc: Global,
    previous: &PreviousRequest<'_>,
    files: &[ZoneFile],
) -> Result<Answer, Failure>
    ensures { IfOk result (λ a. IsPreviousOutcome previous.now files.now (outcome_of a)) }
{
    if is_form(previous.output) {
        form_answer(alloc, previous, files)
    } else {
        refused_form(alloc, previous.explain)
    }
}
