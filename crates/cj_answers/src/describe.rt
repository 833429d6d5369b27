// What `describe` answers of a schedule.
ghost use Rattle.std.specs.Prelude.{◌≡◌, IfErr, IfOk, codes, string_bytes};
ghost use Rattle.cj_base.specs.declared.refusal.Refusal.TheVariants.{OutOfMemory};
ghost use Rattle.cj_answers.specs.Describe.{IsDescribeAnswer, IsDescribeOutcome, since_words};
ghost use Rattle.cj_answers.specs.DescribeText.{IsDescribed};
ghost use Rattle.cj_answers.specs.Outcome.{explained, outcome_of, refusal};
ghost use Rattle.cj_answers.specs.as_json.Describe.{IsDescribePrinted};
ghost use Rattle.cj_answers.specs.as_json.Forms.{is_json};

use crate::answer::{Answer, Ending};
use crate::as_json::{describe_json, is_form, is_json, refused_form};
use crate::moments::asked_moment;
use crate::next::{refused_schedule, refused_zone, zone_words};
use crate::zoning::zones_for;
use cj_args::DescribeRequest;
use cj_base::Refusal;
use cj_io::{Failure, ZoneFile};
use cj_schedule::Schedule;
use cj_types::Seconds;
use cj_upcoming::{coming_text, sentence};
use cj_zone::Zone;
use std::alloc::{AllocError, Global};

// What a start has to be.
const SINCE_WORDS: &str =
    "--after: want a time like 2024-01-01T00:00:00Z or 2024-01-01T01:00:00+01:00, a date like 2024-01-01, now, or -1h or +2d from now\n";

fn refused_start(alloc: Global, explain: bool) -> Result<Answer, AllocError>
    ensures { IfOk result (λ a. outcome_of a ≡ explained explain since_words
        (refusal (codes "cronsim: time\n"))) }
{
    Answer::refused(alloc, "cronsim: time\n")?.explained(explain, SINCE_WORDS)
}

// The sentence, then the next times.
fn described(
    alloc: Global,
    schedule: &Schedule,
    zone: &Zone,
    start: Seconds,
    count: u16,
) -> Result<String, Refusal>
    ensures ok { IfOk result (λ s. IsDescribed schedule.now zone.now start count
        (string_bytes s)) }
    ensures err { IfErr result (λ e. e ≡ OutOfMemory) }
{
    let mut text = sentence(alloc, schedule, zone.name())?;
    let times = coming_text(alloc, schedule, zone, start, count)?;
    text.push_str(times.as_str())?;
    Ok(text)
}

// The answer as JSON or in lines.
fn printed(
    alloc: Global,
    describe: &DescribeRequest<'_>,
    schedule: &Schedule,
    zone: &Zone,
    start: Seconds,
) -> Result<String, Refusal>
    ensures ok { IfOk result (λ s. IsDescribePrinted (is_json describe.now.output.now) describe.now
        schedule.now zone.now start (string_bytes s)) }
    ensures err { IfErr result (λ e. e ≡ OutOfMemory) }
{
    if is_json(describe.output) {
        describe_json(alloc, describe, schedule, zone, start)
    } else {
        described(alloc, schedule, zone, start, describe.count)
    }
}

// What is answered in a form that there is: the schedule is looked at first, then the start, then
// the zone.
fn form_answer(
    alloc: Global,
    describe: &DescribeRequest<'_>,
    files: &[ZoneFile],
) -> Result<Answer, Failure>
    ensures { IfOk result (λ a. IsDescribeAnswer describe.now files.now (outcome_of a)) }
{
    let schedule = match Schedule::parse(describe.schedule) {
        Ok(schedule) => schedule,
        Err(fault) => {
            return Ok(refused_schedule(alloc, describe.explain, describe.schedule, fault)?);
        }
    };
    let Some(after) = asked_moment(alloc, describe.after)? else {
        return Ok(refused_start(alloc, describe.explain)?);
    };
    let table = match zones_for(alloc, describe.time_zone, describe.zone, files) {
        Ok(table) => table,
        Err(Refusal::OutOfMemory) => return Err(Failure::Memory),
        Err(_) => {
            let words = zone_words(describe.time_zone);
            return Ok(refused_zone(alloc, describe.explain, words)?);
        }
    };
    let zone = table.default_zone();
    Ok(Answer {
        ending: Ending::Done,
        printed: printed(alloc, describe, &schedule, zone, after)?,
        said: String::new(alloc),
    })
}

/// What the command `describe` answers: the form of what is printed is looked at first, then the
/// schedule, then the start, then the zone.
pub fn describe_answer(
    alloc: Global,
    describe: &DescribeRequest<'_>,
    files: &[ZoneFile],
) -> Result<Answer, Failure>
    ensures { IfOk result (λ a. IsDescribeOutcome describe.now files.now (outcome_of a)) }
{
    if is_form(describe.output) {
        form_answer(alloc, describe, files)
    } else {
        refused_form(alloc, describe.explain)
    }
}
