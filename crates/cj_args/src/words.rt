// The words of a command line, read as what they ask for.
ghost use Rattle.std.specs.Prelude.{◌≡◌, ℕ, ◌≤◌, map, option_map, IfOk, IfErr, None, Some};
ghost use Rattle.clap.specs.Words.{first_of, found_of, rows_of, subcommand_rows_of};
ghost use Rattle.cj_args.specs.Command.{AreZones, IsAudit, IsCheck, IsControl, IsDecimal, IsDescribe, IsNext, IsOf, IsOfRows, IsPlan, IsReplay, IsRunOf, IsUpcoming, IsWhy, Reads, RefusesWords, is_given, texts_of};
ghost use Rattle.cj_args.specs.declared.word_fault.WordFault.TheVariants.{Incomplete};

use crate::clocks::clock_words;
use crate::command::cronsim_command;
use crate::crontab::crontab_request;
use crate::previous::previous_request;
use crate::report::report_request;
use crate::request::{
    AuditRequest, CheckRequest, ControlRequest, DescribeRequest, NextRequest, PlanRequest,
    ReplayRequest, Request, RunRequest, UpcomingRequest, WhyRequest, ZoneWords,
};
use crate::scenario::scenario_request;
use crate::word_fault::WordFault;
use clap::ArgMatches;
use std::alloc::{AllocError, Global};

/// The value of an argument that may be left out.
pub(crate) fn optional_text<'a>(found: &ArgMatches<'a>, id: &str) -> Option<&'a str>
    ensures { first_of id.now (rows_of (found_of found.now)) ≡ option_map (λ s. s.now) result }
{
    found.get_str(id)
}

/// The value of an argument that has one.
pub(crate) fn text<'a>(found: &ArgMatches<'a>, id: &str) -> Result<&'a str, WordFault>
    ensures found { IfOk result (λ s. first_of id.now (rows_of (found_of found.now)) ≡ Some s.now) }
    ensures missing { IfErr result (λ e. (e ≡ Incomplete)
        × (first_of id.now (rows_of (found_of found.now)) ≡ None)) }
{
    match optional_text(found, id) {
        Some(text) => Ok(text),
        None => Err(WordFault::Incomplete),
    }
}

/// Whether a flag is given.
pub(crate) fn is_given(found: &ArgMatches<'_>, id: &str) -> bool
    ensures { result ≡ is_given id.now (rows_of (found_of found.now)) }
{
    match optional_text(found, id) {
        Some(text) => text == "true",
        None => false,
    }
}

/// A count of due times.
pub(crate) fn count(text: &str) -> Result<u16, WordFault>
    ensures decimal { IfOk result (IsDecimal text.now) }
    ensures least { IfOk result (λ n. 1 ≤ n) }
    ensures most { IfOk result (λ n. n ≤ 1_000) }
    ensures refused { IfErr result (λ e. e ≡ Incomplete) }
    ensures only { IfErr result (λ _. (n : ℕ) → IsDecimal text.now n → 1 ≤ n → n ≤ 1_000 → ⊥) }
{
    match text.parse::<u16>() {
        Ok(count) if count >= 1 && count <= 1_000 => Ok(count),
        _ => Err(WordFault::Incomplete),
    }
}

// A number of minutes.
fn peaks(text: &str) -> Result<u16, WordFault>
    ensures decimal { IfOk result (IsDecimal text.now) }
    ensures most { IfOk result (λ n. n ≤ 1_000) }
    ensures refused { IfErr result (λ e. e ≡ Incomplete) }
    ensures only { IfErr result (λ _. (n : ℕ) → IsDecimal text.now n → n ≤ 1_000 → ⊥) }
{
    match text.parse::<u16>() {
        Ok(peaks) if peaks <= 1_000 => Ok(peaks),
        _ => Err(WordFault::Incomplete),
    }
}

// A number of workers.
fn workers(text: &str) -> Result<u8, WordFault>
    ensures decimal { IfOk result (IsDecimal text.now) }
    ensures least { IfOk result (λ n. 1 ≤ n) }
    ensures most { IfOk result (λ n. n ≤ 32) }
    ensures refused { IfErr result (λ e. e ≡ Incomplete) }
    ensures only { IfErr result (λ _. (n : ℕ) → IsDecimal text.now n → 1 ≤ n → n ≤ 32 → ⊥) }
{
    match text.parse::<u8>() {
        Ok(workers) if workers >= 1 && workers <= 32 => Ok(workers),
        _ => Err(WordFault::Incomplete),
    }
}

/// The values of an argument that may be given several times, in their order.
pub(crate) fn texts<'a>(
    alloc: Global,
    found: &ArgMatches<'a>,
    id: &str,
) -> Result<Vec<&'a str>, AllocError>
    ensures { IfOk result (λ v. texts_of id.now (rows_of (found_of found.now))
        ≡ map (λ s. s.now) v.items) }
{
    match found.get_strs(id) {
        Some(texts) => texts.to_vec(alloc),
        None => Ok(Vec::new(alloc)),
    }
}

/// The zones that an input may name.
pub(crate) fn zone_words<'a>(
    alloc: Global,
    found: &ArgMatches<'a>,
) -> Result<ZoneWords<'a>, AllocError>
    ensures { IfOk result (AreZones (rows_of (found_of found.now))) }
{
    let rules = texts(alloc, found, "zone")?;
    let folder = optional_text(found, "zoneinfo");
    Ok(ZoneWords { rules, folder })
}

fn next_request<'a>(found: &ArgMatches<'a>) -> Result<NextRequest<'a>, WordFault>
    ensures reads { Reads (IsNext (rows_of (found_of found.now))) result }
    ensures refused { IfErr result (λ e. e ≡ Incomplete) }
{
    let schedule = text(found, "schedule")?;
    let after = text(found, "after")?;
    let count = count(text(found, "count")?)?;
    let output = text(found, "output")?;
    Ok(NextRequest {
        schedule,
        after,
        count,
        zone: optional_text(found, "zone"),
        time_zone: optional_text(found, "time-zone"),
        output,
        folder: optional_text(found, "zoneinfo"),
        explain: is_given(found, "explain"),
    })
}

fn check_request<'a>(alloc: Global, found: &ArgMatches<'a>) -> Result<CheckRequest<'a>, WordFault>
    ensures { Reads (IsCheck (rows_of (found_of found.now))) result }
{
    let strict = is_given(found, "strict");
    let moment = optional_text(found, "now");
    let output = text(found, "output")?;
    let explain = is_given(found, "explain");
    Ok(CheckRequest {
        files: texts(alloc, found, "file")?,
        strict,
        moment,
        output,
        zones: zone_words(alloc, found)?,
        explain,
    })
}

fn plan_request<'a>(alloc: Global, found: &ArgMatches<'a>) -> Result<PlanRequest<'a>, WordFault>
    ensures { Reads (IsPlan (rows_of (found_of found.now))) result }
{
    let file = text(found, "file")?;
    let moment = text(found, "now")?;
    let output = text(found, "output")?;
    let explain = is_given(found, "explain");
    Ok(PlanRequest {
        file,
        moment,
        output,
        zones: zone_words(alloc, found)?,
        explain,
    })
}

fn replay_request<'a>(alloc: Global, found: &ArgMatches<'a>) -> Result<ReplayRequest<'a>, WordFault>
    ensures { Reads (IsReplay (rows_of (found_of found.now))) result }
{
    let file = text(found, "file")?;
    let output = text(found, "output")?;
    let explain = is_given(found, "explain");
    Ok(ReplayRequest {
        file,
        output,
        zones: zone_words(alloc, found)?,
        explain,
    })
}

fn run_request<'a>(alloc: Global, found: &ArgMatches<'a>) -> Result<RunRequest<'a>, WordFault>
    ensures { Reads (IsRunOf (rows_of (found_of found.now))) result }
{
    let file = text(found, "file")?;
    let workers = workers(text(found, "workers")?)?;
    let timeline = is_given(found, "timeline");
    let history = is_given(found, "history");
    let svg = is_given(found, "svg");
    let output = text(found, "output")?;
    let namespace = optional_text(found, "namespace");
    let explain = is_given(found, "explain");
    Ok(RunRequest {
        file,
        workers,
        timeline,
        history,
        svg,
        output,
        crons: texts(alloc, found, "cron")?,
        namespace,
        clock: clock_words(found),
        zones: zone_words(alloc, found)?,
        explain,
    })
}

fn why_request<'a>(alloc: Global, found: &ArgMatches<'a>) -> Result<WhyRequest<'a>, WordFault>
    ensures { Reads (IsWhy (rows_of (found_of found.now))) result }
{
    let file = text(found, "file")?;
    let moment = optional_text(found, "now");
    let namespace = optional_text(found, "namespace");
    let output = text(found, "output")?;
    let problems = is_given(found, "problems");
    let explain = is_given(found, "explain");
    Ok(WhyRequest {
        file,
        moment,
        crons: texts(alloc, found, "cron")?,
        namespace,
        output,
        problems,
        clock: clock_words(found),
        zones: zone_words(alloc, found)?,
        explain,
    })
}

fn audit_request<'a>(alloc: Global, found: &ArgMatches<'a>) -> Result<AuditRequest<'a>, WordFault>
    ensures { Reads (IsAudit (rows_of (found_of found.now))) result }
{
    let file = text(found, "file")?;
    let since = optional_text(found, "since");
    let moment = optional_text(found, "now");
    let namespace = optional_text(found, "namespace");
    let output = text(found, "output")?;
    let svg = is_given(found, "svg");
    let explain = is_given(found, "explain");
    Ok(AuditRequest {
        file,
        since,
        moment,
        crons: texts(alloc, found, "cron")?,
        namespace,
        output,
        svg,
        clock: clock_words(found),
        zones: zone_words(alloc, found)?,
        explain,
    })
}

fn upcoming_request<'a>(
    alloc: Global,
    found: &ArgMatches<'a>,
) -> Result<UpcomingRequest<'a>, WordFault>
    ensures { Reads (IsUpcoming (rows_of (found_of found.now))) result }
{
    let from = optional_text(found, "from");
    let length = text(found, "for")?;
    let until = optional_text(found, "until");
    let namespace = optional_text(found, "namespace");
    let minutes = is_given(found, "minutes");
    let peaks = peaks(text(found, "peaks")?)?;
    let output = text(found, "output")?;
    let svg = is_given(found, "svg");
    let explain = is_given(found, "explain");
    Ok(UpcomingRequest {
        files: texts(alloc, found, "file")?,
        from,
        length,
        until,
        crons: texts(alloc, found, "cron")?,
        namespace,
        minutes,
        peaks,
        output,
        svg,
        clock: clock_words(found),
        zones: zone_words(alloc, found)?,
        explain,
    })
}

fn describe_request<'a>(found: &ArgMatches<'a>) -> Result<DescribeRequest<'a>, WordFault>
    ensures reads { Reads (IsDescribe (rows_of (found_of found.now))) result }
    ensures refused { IfErr result (λ e. e ≡ Incomplete) }
{
    let schedule = text(found, "schedule")?;
    let count = count(text(found, "count")?)?;
    let output = text(found, "output")?;
    Ok(DescribeRequest {
        schedule,
        is_file: is_given(found, "file"),
        after: optional_text(found, "after"),
        count,
        zone: optional_text(found, "zone"),
        time_zone: optional_text(found, "time-zone"),
        output,
        folder: optional_text(found, "zoneinfo"),
        explain: is_given(found, "explain"),
    })
}

fn control_request<'a>(found: &ArgMatches<'a>) -> Result<ControlRequest<'a>, WordFault>
    ensures reads { Reads (IsControl (rows_of (found_of found.now))) result }
    ensures refused { IfErr result (λ e. e ≡ Incomplete) }
{
    let workers = workers(text(found, "workers")?)?;
    let api_version = text(found, "api-version")?;
    let log = text(found, "log")?;
    Ok(ControlRequest {
        workers,
        namespace: optional_text(found, "namespace"),
        selector: optional_text(found, "selector"),
        only_annotated: is_given(found, "only-annotated"),
        dry_run: is_given(found, "dry-run"),
        api_version,
        replica: optional_text(found, "replica"),
        log,
        transcript: optional_text(found, "transcript"),
        check: optional_text(found, "check"),
        folder: optional_text(found, "zoneinfo"),
        explain: is_given(found, "explain"),
    })
}

// What the words behind the name of a command ask for.
fn request_named<'a>(
    alloc: Global,
    name: &str,
    found: &ArgMatches<'a>,
) -> Result<Request<'a>, WordFault>
    ensures { Reads (IsOfRows (Some (name.now, rows_of (found_of found.now)))) result }
{
    match name {
        "next" => next_request(found).map(Request::Next),
        "check" => check_request(alloc, found).map(Request::Check),
        "plan" => plan_request(alloc, found).map(Request::Plan),
        "replay" => replay_request(alloc, found).map(Request::Replay),
        "run" => run_request(alloc, found).map(Request::Run),
        "why" => why_request(alloc, found).map(Request::Why),
        "audit" => audit_request(alloc, found).map(Request::Audit),
        "upcoming" => upcoming_request(alloc, found).map(Request::Upcoming),
        "describe" => describe_request(found).map(Request::Describe),
        "previous" => previous_request(found).map(Request::Previous),
        "report" => report_request(alloc, found).map(Request::Report),
        "crontab" => crontab_request(alloc, found).map(Request::Crontab),
        "scenario" => scenario_request(alloc, found).map(Request::Scenario),
        "control" => control_request(found).map(Request::Control),
        _ => Err(WordFault::Incomplete),
    }
}

fn request_of<'a>(alloc: Global, matches: &ArgMatches<'a>) -> Result<Request<'a>, WordFault>
    ensures { Reads (IsOfRows (subcommand_rows_of matches.now)) result }
{
    match matches.subcommand() {
        Some((name, found)) => request_named(alloc, name, found),
        None => Err(WordFault::Incomplete),
    }
}

/// Reads the words of a command line, the program's name first.
///
/// Wrong words, `--help` and `--version` are refused with what `clap` has to say; words that `clap`
/// takes are refused only where no request has the values that it states for them.
pub fn parse_words<'a>(alloc: Global, words: &'a [&'a str]) -> Result<Request<'a>, WordFault>
    ensures stated { IfOk result (IsOf (map (λ w. w.now) words.entry.now)) }
    ensures refused { IfErr result (RefusesWords (map (λ w. w.now) words.entry.now)) }
{
    let command = cronsim_command(alloc)?;
    let matches = command.try_get_matches_from(words)?;
    request_of(alloc, &matches)
}
