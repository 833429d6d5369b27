// What `why` answers of a cluster.
ghost use Rattle.std.specs.Prelude.{◌≡◌, ◌⊎◌, ◌++◌, IfOk, Some, codes, length, map as map_list, string_bytes};
ghost use Rattle.std.specs.FinMap as map;
ghost use Rattle.cj_zone.specs.Table.{local_zone, zones_of};
ghost use Rattle.cj_zone.specs.Zones.{utc_zone};
ghost use Rattle.cj_answers.specs.Outcome.{explained, outcome_of, refusal};
ghost use Rattle.cj_answers.specs.as_json.Forms.{is_json};
ghost use Rattle.cj_inspect.specs.Failures.{failed_lines};
ghost use Rattle.cj_inspect.specs.Nights.{TellsNights};
ghost use Rattle.cj_inspect.specs.declared.nights.look.Look.TheVariants.{Around};
ghost use Rattle.cj_inspect.specs.Why.{IsListReviewed, IsReviewed, IsPrinted, IsWhole, IsWhyAnswer, IsWhyOutcome, PrintsKnown, RefusesCron, TellsClocks, TellsReasons, TellsReview, is_full, is_lines, is_nothing, is_output, meant_of, output_words};

pub(crate) mod failures;
pub(crate) mod lines;
pub(crate) mod naming;
pub(crate) mod notices;
mod table;

use crate::as_json::clusters::json_reviewed;
use crate::nights::{Look, with_nights};
use crate::why::failures::with_failures;
use crate::why::lines::lines_reviewed;
use crate::why::naming::{meant_of, narrowed, unknown_of};
use crate::why::notices::with_notices;
use crate::why::table::{is_full, table_reviewed};
use cj_answers::{
    Answer, asked_moment, given_zones, is_json, refused_list, refused_now, refused_pair,
};
use cj_args::WhyRequest;
use cj_cluster::{ClusterCron, ClusterList, read_cluster};
use cj_io::{Failure, ZoneFile, read_input};
use cj_types::{Seconds, Shared};
use cj_zone::ZoneTable;
use std::alloc::{AllocError, Global};
use std::io::Read;

/// The greatest length of a list of a cluster's objects, in bytes.
pub const MOST_LIST_BYTES: usize = 268_435_456;

/// The number of reads within which such a list ends.
pub const MOST_LIST_READS: u32 = 536_870_912;

fn refused_cron(alloc: Global, explain: bool, words: &str) -> Result<Answer, AllocError>
    ensures { IfOk result (λ a. outcome_of a ≡ explained explain words.now
        (refusal (codes "cronsim: cron\n"))) }
{
    Answer::refused(alloc, "cronsim: cron\n")?.explained(explain, words)
}

/// What is answered where a text names no CronJob, with these words for people.
pub fn refused_unknown(alloc: Global, explain: bool, words: &str) -> Result<Answer, Failure>
    ensures { IfOk result (λ a. outcome_of a ≡ explained explain words.now
        (refusal (codes "cronsim: cron\n"))) }
{
    Ok(refused_cron(alloc, explain, words)?)
}

/// One text behind another.
pub(crate) fn joined(alloc: Global, first: &str, second: &str) -> Result<String, AllocError>
    ensures { IfOk result (λ s. string_bytes s ≡ first.now ++ second.now) }
{
    let mut text = String::from_str(alloc, first)?;
    text.push_str(second)?;
    Ok(text)
}

fn is_lines(text: &str) -> bool
    ensures { result ≡ is_lines text.now }
{
    text == "lines"
}

// What is printed of them as JSON or in a table.
fn whole_reviewed(
    alloc: Global,
    why: &WhyRequest<'_>,
    zones: &ZoneTable,
    bytes: &[u8],
    list: &ClusterList,
    all: usize,
    crons: &[Shared<ClusterCron>],
    now: Seconds,
) -> Result<Answer, Failure>
    requires local { local_zone zones.now ≡ Some (utc_zone (codes "UTC")) }
    requires meant { crons.now ≡ meant_of why.now list.now }
    requires all { all ≡ length (map.values list.now.cluster.crons) }
    ensures { IfOk result (λ a. IsWhole (is_json why.now.output.now) why.now (zones_of zones.now)
        now list.now (outcome_of a)) }
{
    if is_json(why.output) {
        json_reviewed(alloc, why, zones, bytes, list, crons, now)
    } else {
        table_reviewed(alloc, why, zones, list, all, crons, now)
    }
}

// What is printed of them, in lines or in one of those.
fn reviewed(
    alloc: Global,
    why: &WhyRequest<'_>,
    zones: &ZoneTable,
    bytes: &[u8],
    list: &ClusterList,
    all: usize,
    crons: &[Shared<ClusterCron>],
    now: Seconds,
) -> Result<Answer, Failure>
    requires local { local_zone zones.now ≡ Some (utc_zone (codes "UTC")) }
    requires meant { crons.now ≡ meant_of why.now list.now }
    requires all { all ≡ length (map.values list.now.cluster.crons) }
    ensures { IfOk result (λ a. IsPrinted (is_lines why.now.output.now) why.now
        (zones_of zones.now) now list.now (outcome_of a)) }
{
    if is_lines(why.output) {
        lines_reviewed(alloc, why, zones, list, crons, now)
    } else {
        whole_reviewed(alloc, why, zones, bytes, list, all, crons, now)
    }
}

fn meant_reviewed(
    alloc: Global,
    why: &WhyRequest<'_>,
    zones: &ZoneTable,
    bytes: &[u8],
    list: &ClusterList,
    crons: &[Shared<ClusterCron>],
    now: Seconds,
) -> Result<Answer, Failure>
    requires local { local_zone zones.now ≡ Some (utc_zone (codes "UTC")) }
    requires all { crons.now ≡ map.values list.now.cluster.crons }
    ensures { IfOk result (λ a. IsPrinted (is_lines why.now.output.now) why.now
        (zones_of zones.now) now list.now (outcome_of a)) }
{
    let meant = meant_of(alloc, why, list, crons)?;
    let all = crons.len();
    reviewed(alloc, why, zones, bytes, list, all, meant.as_slice(), now)
}

// With what the clocks of those that are meant do, where the reasons are given in full.
fn with_clocks(
    alloc: Global,
    why: &WhyRequest<'_>,
    zones: &ZoneTable,
    list: &ClusterList,
    crons: &[Shared<ClusterCron>],
    now: Seconds,
    answer: Answer,
) -> Result<Answer, Failure>
    requires all { crons.now ≡ map.values list.now.cluster.crons }
    ensures { IfOk result (λ a. TellsNights (is_full why.now) (zones_of zones.now) (Around now)
        (map_list (λ c. c.cron) (meant_of why.now list.now)) (outcome_of answer)
        (outcome_of a)) }
{
    let meant = meant_of(alloc, why, list, crons)?;
    let look = Look::Around(now);
    let full = is_full(why);
    Ok(with_nights(alloc, full, zones, &look, meant.as_slice(), answer)?)
}

// With how many of their Jobs failed, where the reasons are given in full.
fn with_failed(
    alloc: Global,
    why: &WhyRequest<'_>,
    list: &ClusterList,
    crons: &[Shared<ClusterCron>],
    answer: Answer,
) -> Result<Answer, Failure>
    requires all { crons.now ≡ map.values list.now.cluster.crons }
    ensures { IfOk result (λ a. outcome_of a ≡ explained (is_full why.now)
        (failed_lines list.now.cluster (meant_of why.now list.now)) (outcome_of answer)) }
{
    let meant = meant_of(alloc, why, list, crons)?;
    let full = is_full(why);
    Ok(with_failures(alloc, full, &list.cluster, meant.as_slice(), answer)?)
}

pub(crate) fn is_nothing(words: &str) -> bool
    ensures { result ≡ is_nothing words.now }
{
    words.is_empty()
}

// Adds what clocks do.
fn clocked_reviewed(
    alloc: Global,
    why: &WhyRequest<'_>,
    zones: &ZoneTable,
    bytes: &[u8],
    list: &ClusterList,
    crons: &[Shared<ClusterCron>],
    now: Seconds,
) -> Result<Answer, Failure>
    requires local { local_zone zones.now ≡ Some (utc_zone (codes "UTC")) }
    requires all { crons.now ≡ map.values list.now.cluster.crons }
    ensures { IfOk result (λ a. TellsClocks why.now (zones_of zones.now) now list.now
        (outcome_of a)) }
{
    let answer = meant_reviewed(alloc, why, zones, bytes, list, crons, now)?;
    with_clocks(alloc, why, zones, list, crons, now, answer)
}

// Adds which Jobs failed.
fn reasons_reviewed(
    alloc: Global,
    why: &WhyRequest<'_>,
    zones: &ZoneTable,
    bytes: &[u8],
    list: &ClusterList,
    crons: &[Shared<ClusterCron>],
    now: Seconds,
) -> Result<Answer, Failure>
    requires local { local_zone zones.now ≡ Some (utc_zone (codes "UTC")) }
    requires all { crons.now ≡ map.values list.now.cluster.crons }
    ensures { IfOk result (λ a. TellsReasons why.now (zones_of zones.now) now list.now
        (outcome_of a)) }
{
    let answer = clocked_reviewed(alloc, why, zones, bytes, list, crons, now)?;
    with_failed(alloc, why, list, crons, answer)
}

// With what is told beside it.
fn noticed_reviewed(
    alloc: Global,
    why: &WhyRequest<'_>,
    zones: &ZoneTable,
    bytes: &[u8],
    list: &ClusterList,
    crons: &[Shared<ClusterCron>],
    now: Seconds,
) -> Result<Answer, Failure>
    requires local { local_zone zones.now ≡ Some (utc_zone (codes "UTC")) }
    requires all { crons.now ≡ map.values list.now.cluster.crons }
    ensures { IfOk result (λ a. TellsReview why.now (zones_of zones.now) now list.now
        (outcome_of a)) }
{
    let answer = reasons_reviewed(alloc, why, zones, bytes, list, crons, now)?;
    Ok(with_notices(alloc, why, list, crons, now, answer)?)
}

// What is answered where these lines tell which are unknown.
fn known_reviewed(
    alloc: Global,
    why: &WhyRequest<'_>,
    zones: &ZoneTable,
    bytes: &[u8],
    list: &ClusterList,
    crons: &[Shared<ClusterCron>],
    unknown: &str,
    now: Seconds,
) -> Result<Answer, Failure>
    requires local { local_zone zones.now ≡ Some (utc_zone (codes "UTC")) }
    requires all { crons.now ≡ map.values list.now.cluster.crons }
    ensures { IfOk result (λ a. RefusesCron why.now unknown.now (outcome_of a)
        ⊎ PrintsKnown why.now (zones_of zones.now) now list.now unknown.now (outcome_of a)) }
{
    if is_nothing(unknown) {
        noticed_reviewed(alloc, why, zones, bytes, list, crons, now)
    } else {
        refused_unknown(alloc, why.explain, unknown)
    }
}

fn list_reviewed(
    alloc: Global,
    why: &WhyRequest<'_>,
    zones: &ZoneTable,
    bytes: &[u8],
    list: &ClusterList,
    now: Seconds,
) -> Result<Answer, Failure>
    requires local { local_zone zones.now ≡ Some (utc_zone (codes "UTC")) }
    ensures { IfOk result (λ a. IsListReviewed why.now (zones_of zones.now) now list.now
        (outcome_of a)) }
{
    let all = list.cluster.crons(alloc)?;
    let unknown = unknown_of(alloc, why, list, all.as_slice())?;
    known_reviewed(
        alloc,
        why,
        zones,
        bytes,
        list,
        all.as_slice(),
        unknown.as_str(),
        now,
    )
}

// What the bytes of a list are answered.
fn bytes_reviewed(
    alloc: Global,
    why: &WhyRequest<'_>,
    zones: &ZoneTable,
    bytes: &[u8],
    now: Seconds,
) -> Result<Answer, Failure>
    requires { local_zone zones.now ≡ Some (utc_zone (codes "UTC")) }
    ensures { IfOk result (λ a. IsReviewed why.now (zones_of zones.now) now bytes.now
        (outcome_of a)) }
{
    match read_cluster(alloc, bytes, zones) {
        Ok(list) => {
            let list = narrowed(why, list);
            list_reviewed(alloc, why, zones, bytes, &list, now)
        }
        Err(fault) => refused_list(alloc, why.explain, bytes, fault),
    }
}

// What is answered in a form that is known.
fn known_answer<R: Read>(
    alloc: Global,
    why: &WhyRequest<'_>,
    files: &[ZoneFile],
    input: &mut R,
) -> Result<Answer, Failure>
    ensures { IfOk result (λ a. IsWhyAnswer why.now files.now (R.remaining input.old)
        (outcome_of a)) }
{
    let Some(now) = asked_moment(alloc, why.moment)? else {
        return Ok(refused_now(alloc, why.explain)?);
    };
    let Some(zones) = given_zones(alloc, &why.zones, files)? else {
        return refused_pair(alloc, why.explain);
    };
    let bytes = read_input(alloc, input, MOST_LIST_BYTES, MOST_LIST_READS)?;
    bytes_reviewed(alloc, why, &zones, bytes.as_slice(), now)
}

fn is_output(text: &str) -> bool
    ensures { result ≡ is_output text.now }
{
    let is_table = text == "table";
    let is_lines = is_lines(text);
    let is_json = is_json(text);
    is_table || is_lines || is_json
}

fn no_output(alloc: Global, explain: bool) -> Result<Answer, AllocError>
    ensures { IfOk result (λ a. outcome_of a ≡ explained explain output_words
        (refusal (codes "cronsim: output\n"))) }
{
    Answer::refused(alloc, "cronsim: output\n")?.explained(
        explain,
        "--output: want table, lines, json or yaml\n",
    )
}

// The same with the errors of a request.
fn refused_output(alloc: Global, explain: bool) -> Result<Answer, Failure>
    ensures { IfOk result (λ a. outcome_of a ≡ explained explain output_words
        (refusal (codes "cronsim: output\n"))) }
{
    Ok(no_output(alloc, explain)?)
}

/// What the command `why` answers: the form of what is printed is looked at first, then the moment,
/// then the zones, then all of the input is read.
pub fn why_answer<R: Read>(
    alloc: Global,
    why: &WhyRequest<'_>,
    files: &[ZoneFile],
    input: &mut R,
) -> Result<Answer, Failure>
    ensures { IfOk result (λ a. IsWhyOutcome why.now files.now (R.remaining input.old)
        (outcome_of a)) }
{
    if is_output(why.output) {
        known_answer(alloc, why, files, input)
    } else {
        refused_output(alloc, why.explain)
    }
}
