// A schedule in a sentence, and its next times.
ghost use Rattle.std.specs.Prelude.{◌≡◌, ◌⊎◌, ℕ, List, IfOk, IfErr, IfSome, IsNone, Some, codes, string_bytes};
ghost use Rattle.cj_audit.specs.Faults.{one_fault, schedule_cause};
ghost use Rattle.cj_base.specs.declared.refusal.Refusal.TheVariants.{OutOfMemory};
ghost use Rattle.cj_schedule.specs.Grammar.{IsSchedule};
ghost use Rattle.cj_upcoming.specs.Sentence.{sentence};
ghost use Rattle.cj_upcoming.specs.json.Coming.{AreTimes, changes_along};
ghost use Rattle.cj_zone.specs.Table.{local_zone};
ghost use Rattle.cj_zone.specs.declared.zone.Zone.{Zone};
ghost use Rattle.serde_json.specs.Data.{array, string};
ghost use Rattle.serde_json.specs.View.{items_of, view};
ghost use Rattle.cj_c.specs.Opening.{IsUnzoned};
ghost use Rattle.cj_c.specs.answers.Buffers.{IsTold};
ghost use Rattle.cj_c.specs.answers.Describe.{HasNoZone, IsDescribeAnswered, IsDescribeRefusal, IsDescribed, IsFaultPrinted, IsNoRule, IsRuled, IsZoneOf, describe_data, describe_object, first_line, is_utc, zone_data};
ghost use Rattle.cj_c.specs.answers.Texts.{IsJsonText};

use crate::answers::buffer::leave;
use crate::answers::fault_text::fault_of;
use crate::answers::text::{json_text, one_fault_text};
use crate::answers::told::Told;
use crate::fault::{CronFault, MAX_TEXT, read_text, text_of};
use crate::status::RANGE;
use crate::zones::{Unzoned, utc};
use cj_audit::cause_text;
use cj_base::{Cause, Refusal, ScheduleFault, Seconds, TryCopy, all_three};
use cj_json::{object_of, time_value};
use cj_schedule::Schedule;
use cj_upcoming::{coming_changes, coming_times, coming_value, sentence};
use cj_zone::{Zone, ZoneTable};
use serde_json::Value;
use std::alloc::{AllocError, Global};

// ---- the zone

fn is_utc(rule: &str) -> bool
    ensures { result ≡ is_utc rule.now }
{
    rule.is_empty() || rule == "UTC"
}

// A table whose local zone is the one of the rule, which is its name too.
fn zones_of_rule(alloc: Global, rule: &str) -> Result<ZoneTable, Refusal>
    ensures ok { IfOk result (λ table. (zone : Zone) → local_zone table ≡ Some zone →
        IsRuled rule.now zone) }
    ensures err { IfErr result (λ e. (e ≡ OutOfMemory) ⊎ IsNoRule rule.now) }
{
    let mut table = ZoneTable::new(alloc)?;
    table.add_rule(rule, rule)?;
    table.set_local(rule)?;
    Ok(table)
}

fn zone_of_rule(alloc: Global, rule: &str) -> Result<Zone, Refusal>
    ensures ok { IfOk result (λ z. IsRuled rule.now z) }
    ensures err { IfErr result (λ e. (e ≡ OutOfMemory) ⊎ IsNoRule rule.now) }
{
    let table = zones_of_rule(alloc, rule)?;
    table.default_zone().try_copy(alloc)
}

fn ruled(alloc: Global, rule: &str) -> Result<Zone, Unzoned>
    ensures ok { IfOk result (λ z. IsRuled rule.now z) }
    ensures err { IfErr result (λ e. IsUnzoned (IsNoRule rule.now) e) }
{
    match zone_of_rule(alloc, rule) {
        Ok(zone) => Ok(zone),
        Err(Refusal::OutOfMemory) => Err(Unzoned::Memory),
        Err(_) => Err(Unzoned::Refused),
    }
}

// UTC, or the zone of a rule, which is its name too.
fn zone_of(alloc: Global, rule: &str) -> Result<Zone, Unzoned>
    ensures ok { IfOk result (λ z. IsZoneOf rule.now z) }
    ensures err { IfErr result (λ e. IsUnzoned (IsNoRule rule.now) e) }
{
    if !is_utc(rule) {
        return ruled(alloc, rule);
    }
    match utc(alloc) {
        Ok(zone) => Ok(zone),
        Err(_) => Err(Unzoned::Memory),
    }
}

// The text of a rule. More than 1,024 bytes are refused before they are looked at.
fn rule_text(rule: &[u8]) -> Option<&str>
    ensures some { IfSome result (λ s. s.now ≡ rule.now) }
    ensures none { IsNone result → HasNoZone rule.now }
{
    if rule.len() > MAX_TEXT {
        return None;
    }
    text_of(rule)
}

// ---- what is told

// A text up to the end of its first line.
fn first_line(text: &str) -> &str
    ensures { result.now ≡ first_line text.now }
{
    match text.split_once('\n') {
        Some((line, _)) => line,
        None => text,
    }
}

fn sentence_value(alloc: Global, schedule: &Schedule, zone: &Zone) -> Result<Value, Refusal>
    ensures ok { IfOk result (λ v. view v
        ≡ string (first_line (sentence schedule.now zone.now.name))) }
    ensures err { IfErr result (λ e. e ≡ OutOfMemory) }
{
    let text = sentence(alloc, schedule, zone.name())?;
    Ok(Value::try_from_str(alloc, first_line(text.as_str()))?)
}

fn zone_value(alloc: Global, rule: &str) -> Result<Value, AllocError>
    ensures { IfOk result (λ v. view v ≡ zone_data rule.now) }
{
    if rule.is_empty() {
        Ok(Value::Null)
    } else {
        Value::try_from_str(alloc, rule)
    }
}

// Where the clock is put on the way from one time to the next.
fn changes_value(
    alloc: Global,
    zone: &Zone,
    after: Seconds,
    times: &[Seconds],
) -> Result<Value, Refusal>
    ensures ok { IfOk result (λ v. view v
        ≡ array (items_of (changes_along zone.now after times.now))) }
    ensures err { IfErr result (λ e. e ≡ OutOfMemory) }
{
    Ok(Value::Array(coming_changes(alloc, zone, after, times)?))
}

// The names of its members.
const DESCRIBE_NAMES: &[&str] = &[
    "after", "changes", "schedule", "sentence", "timeZone", "times",
];

fn describe_object(
    alloc: Global,
    schedule: &str,
    words: (Value, Value),
    times: (Value, Value, Value),
) -> Result<Value, AllocError>
    ensures { IfOk result (λ v. view v ≡ describe_object (view times.0) (view times.1) schedule.now
        (view words.0) (view words.1) (view times.2)) }
{
    let schedule = Value::try_from_str(alloc, schedule)?;
    let (sentence, zone) = words;
    let (after, changes, times) = times;
    let values = [after, changes, schedule, sentence, zone, times];
    object_of(alloc, DESCRIBE_NAMES, values)
}

fn describe_value(
    alloc: Global,
    text: &str,
    rule: &str,
    schedule: &Schedule,
    zone: &Zone,
    after: Seconds,
    times: &[Seconds],
) -> Result<Value, Refusal>
    ensures ok { IfOk result (λ v. view v
        ≡ describe_data text.now rule.now schedule.now zone.now after times.now) }
    ensures err { IfErr result (λ e. e ≡ OutOfMemory) }
{
    let line = sentence_value(alloc, schedule, zone)?;
    let words = (line, zone_value(alloc, rule)?);
    let times = all_three(
        time_value(alloc, after),
        changes_value(alloc, zone, after, times),
        coming_value(alloc, zone, after, times),
    )?;
    Ok(describe_object(alloc, text, words, times)?)
}

// The text of a schedule in a zone, and its next times.
fn describe_text(
    alloc: Global,
    text: &str,
    rule: &str,
    schedule: &Schedule,
    zone: &Zone,
    after: Seconds,
    count: u16,
) -> Result<String, Refusal>
    ensures ok { IfOk result (λ s. (times : List ℕ)
        × AreTimes schedule.now zone.now after count times
        × IsJsonText (describe_data text.now rule.now schedule.now zone.now after times)
        (string_bytes s)) }
    ensures err { IfErr result (λ e. e ≡ OutOfMemory) }
{
    let times = coming_times(alloc, schedule, zone, after, count)?;
    let value = describe_value(alloc, text, rule, schedule, zone, after, times.as_slice())?;
    json_text(alloc, &value)
}

// ---- what is refused

fn fault_told(alloc: Global, fault: ScheduleFault) -> Result<String, Refusal>
    ensures ok { IfOk result (λ s. IsJsonText
        (one_fault (schedule_cause fault) (codes "schedule")) (string_bytes s)) }
    ensures err { IfErr result (λ e. e ≡ OutOfMemory) }
{
    let cause = cause_text(alloc, Cause::Schedule(fault))?;
    one_fault_text(alloc, cause.as_str(), "schedule")
}

// The text for a schedule that is refused.
fn refused_schedule(alloc: Global, told: CronFault) -> Result<String, Refusal>
    ensures ok { IfOk result (λ s. IsFaultPrinted told (string_bytes s)) }
    ensures err { IfErr result (λ e. e ≡ OutOfMemory) }
{
    match fault_of(&told) {
        Some(fault) => fault_told(alloc, fault),
        None => one_fault_text(alloc, "Format", "schedule"),
    }
}

// The answer for a schedule by a rule.
fn described_by(
    alloc: Global,
    text: &str,
    schedule: &Schedule,
    rule: &str,
    after: Seconds,
    count: u16,
) -> Result<Told, Refusal>
    requires { IsSchedule text.now schedule.now }
    ensures ok { IfOk result (IsTold (IsDescribed text.now rule.now after count)
        (IsDescribeRefusal text.now rule.now)) }
    ensures err { IfErr result (λ e. e ≡ OutOfMemory) }
{
    match zone_of(alloc, rule) {
        Ok(zone) => {
            let told = describe_text(alloc, text, rule, schedule, &zone, after, count)?;
            Ok(Told::Done(told))
        }
        Err(Unzoned::Refused) => Ok(Told::Refused(one_fault_text(alloc, "Zone", "zone")?)),
        Err(Unzoned::Memory) => Err(Refusal::OutOfMemory),
    }
}

fn described(
    alloc: Global,
    schedule: &[u8],
    rule: &[u8],
    after: Seconds,
    count: u16,
) -> Result<Told, Refusal>
    ensures ok { IfOk result (IsTold (IsDescribed schedule.now rule.now after count)
        (IsDescribeRefusal schedule.now rule.now)) }
    ensures err { IfErr result (λ e. e ≡ OutOfMemory) }
{
    let (text, schedule) = match read_text(schedule) {
        Ok(read) => read,
        Err(fault) => return Ok(Told::Refused(refused_schedule(alloc, fault)?)),
    };
    match rule_text(rule) {
        Some(rule) => described_by(alloc, text, &schedule, rule, after, count),
        None => Ok(Told::Refused(one_fault_text(alloc, "Zone", "zone")?)),
    }
}

/// A schedule in a sentence, and its next `count` times after an instant, on the clock of UTC, or
/// of a POSIX rule where one is given, as JSON; or why the schedule or the rule is refused.
#[unsafe(no_mangle)]
pub extern "C" fn cronsim_describe(
    alloc: Global,
    schedule: &[u8],
    rule: &[u8],
    after: u64,
    count: u16,
    answer: &mut [u8],
    length: &mut usize,
) -> u32
    ensures { IsDescribeAnswered schedule.now rule.now after count answer.old answer.new length.old
        length.new result }
{
    let Some(after) = Seconds::new(after) else {
        return RANGE;
    };
    leave(
        described(alloc, schedule, rule, after, count),
        answer,
        length,
    )
}
