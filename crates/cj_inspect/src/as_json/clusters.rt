// What `why` prints as JSON.
ghost use Rattle.std.specs.Prelude.{◌≡◌, IfOk, IfErr, Some, codes, map, string_bytes};
ghost use Rattle.cj_base.specs.declared.refusal.Refusal.TheVariants.{OutOfMemory};
ghost use Rattle.serde_json.specs.View.{view};
ghost use Rattle.cj_zone.specs.Table.{local_zone, zones_of};
ghost use Rattle.cj_zone.specs.Zones.{utc_zone};
ghost use Rattle.cj_why.specs.reviews.Rows.{AreLined};
ghost use Rattle.cj_answers.specs.Clusters as told;
ghost use Rattle.cj_answers.specs.Outcome.{explained, outcome_of};
ghost use Rattle.cj_inspect.specs.Why.{IsWhyJson, PrintsJson, meant_of, valued};
ghost use Rattle.cj_inspect.specs.as_json.Why.{why_data, why_object};

use crate::as_json::nights::nights_value;
use crate::calls::calls_values;
use crate::nights::Look;
use crate::why::lines::is_fine;
use cj_answers::{Answer, ending_by, is_read, note_words, value_line};
use cj_args::WhyRequest;
use cj_audit::others_value;
use cj_base::{Refusal, both};
use cj_cluster::{ClusterCron, ClusterList, ItemNote};
use cj_explain::refused_value;
use cj_io::Failure;
use cj_json::object_of;
use cj_types::{Seconds, Shared};
use cj_why::{cron_values, problems};
use cj_zone::{ZoneTable, time_text};
use serde_json::Value;
use std::alloc::{AllocError, Global};

// The names of its members.
const WHY_NAMES: &[&str] = &[
    "calls",
    "clockChanges",
    "cronJobs",
    "now",
    "others",
    "refused",
];

fn why_object(
    alloc: Global,
    calls: Value,
    clocks: Value,
    crons: Value,
    now: Value,
    items: (Value, Value),
) -> Result<Value, AllocError>
    ensures { IfOk result (λ v. view v ≡ why_object (view calls) (view clocks) (view crons)
        (view now) (view items.0) (view items.1)) }
{
    let (others, refused) = items;
    let values = [calls, clocks, crons, now, others, refused];
    object_of(alloc, WHY_NAMES, values)
}

fn why_value(
    alloc: Global,
    now: Seconds,
    calls: Vec<Value>,
    clocks: Value,
    crons: Vec<Value>,
    notes: &[ItemNote],
) -> Result<Value, Refusal>
    ensures ok { IfOk result (λ v. view v ≡ why_data now (map view calls.items) (view clocks)
        (map view crons.items) notes.now) }
    ensures err { IfErr result (λ e. e ≡ OutOfMemory) }
{
    let (calls, crons) = (Value::Array(calls), Value::Array(crons));
    let now = Value::String(time_text(alloc, now)?);
    let items = both(others_value(alloc, notes), refused_value(alloc, notes))?;
    Ok(why_object(alloc, calls, clocks, crons, now, items)?)
}

// What is known of these CronJobs of a list that these bytes are, on a line.
fn why_line(
    alloc: Global,
    zones: &ZoneTable,
    bytes: &[u8],
    list: &ClusterList,
    lined: &[Shared<ClusterCron>],
    now: Seconds,
) -> Result<String, Refusal>
    requires { local_zone zones.now ≡ Some (utc_zone (codes "UTC")) }
    ensures ok { IfOk result (λ s. IsWhyJson (zones_of zones.now) now list.now lined.now
        (string_bytes s)) }
    ensures err { IfErr result (λ e. e ≡ OutOfMemory) }
{
    let calls = calls_values(alloc, zones, bytes, &list.cluster, lined, now)?;
    let clocks = nights_value(alloc, zones, &Look::Around(now), lined)?;
    let crons = cron_values(alloc, zones, &list.cluster, lined, now)?;
    let value = why_value(alloc, now, calls, clocks, crons, list.notes.as_slice())?;
    Ok(value_line(alloc, &value)?)
}

fn valued(
    alloc: Global,
    explain: bool,
    fine: bool,
    notes: &[ItemNote],
    printed: String,
) -> Result<Answer, AllocError>
    ensures { IfOk result (λ a. outcome_of a ≡ explained explain (told.note_words notes.now)
        (valued fine notes.now (string_bytes printed))) }
{
    let said = note_words(alloc, notes)?;
    let answer = Answer {
        ending: ending_by(is_read(notes) && fine),
        printed,
        said: String::new(alloc),
    };
    answer.explained(explain, said.as_str())
}

// What is printed of these.
fn all_valued(
    alloc: Global,
    why: &WhyRequest<'_>,
    zones: &ZoneTable,
    bytes: &[u8],
    list: &ClusterList,
    lined: &[Shared<ClusterCron>],
    now: Seconds,
) -> Result<Answer, Failure>
    requires local { local_zone zones.now ≡ Some (utc_zone (codes "UTC")) }
    requires are { AreLined why.now.problems (zones_of zones.now) list.now.cluster now
        (meant_of why.now list.now) lined.now }
    ensures { IfOk result (λ a. PrintsJson why.now (zones_of zones.now) now list.now
        (outcome_of a)) }
{
    let line = why_line(alloc, zones, bytes, list, lined, now)?;
    let fine = is_fine(why.problems, lined);
    let notes = list.notes.as_slice();
    Ok(valued(alloc, why.explain, fine, notes, line)?)
}

/// What is printed of CronJobs of a list that these bytes are, as one JSON value: of all, or of
/// those that need attention.
pub(crate) fn json_reviewed(
    alloc: Global,
    why: &WhyRequest<'_>,
    zones: &ZoneTable,
    bytes: &[u8],
    list: &ClusterList,
    crons: &[Shared<ClusterCron>],
    now: Seconds,
) -> Result<Answer, Failure>
    requires local { local_zone zones.now ≡ Some (utc_zone (codes "UTC")) }
    requires meant { crons.now ≡ meant_of why.now list.now }
    ensures { IfOk result (λ a. PrintsJson why.now (zones_of zones.now) now list.now
        (outcome_of a)) }
{
    if why.problems {
        let lined = problems(alloc, zones, &list.cluster, crons, now)?;
        all_valued(alloc, why, zones, bytes, list, lined.as_slice(), now)
    } else {
        all_valued(alloc, why, zones, bytes, list, crons, now)
    }
}
