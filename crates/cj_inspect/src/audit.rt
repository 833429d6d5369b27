// What `audit` answers of a cluster.
ghost use Rattle.std.specs.Prelude.{◌≡◌, ◌⊎◌, ◌++◌, IfOk, IfErr, false, length, map as map_list, string_bytes};
ghost use Rattle.std.specs.FinMap as map;
ghost use Rattle.cj_base.specs.declared.refusal.Refusal.TheVariants.{OutOfMemory};
ghost use Rattle.cj_zone.specs.Table.{zones_of};
ghost use Rattle.cj_audit.specs.Lines.{audit_lines};
ghost use Rattle.cj_audit.specs.Manual.{manual_lines};
ghost use Rattle.cj_audit.specs.Told.{times_words};
ghost use Rattle.cj_audit.specs.Words.{audit_words};
ghost use Rattle.cj_inspect.specs.Audit.{AuditsKnown, AuditsList, AuditsWhole, IsAuditAnswer, IsAuditOutcome, IsAuditedOf, IsWholeAudited, RefusesAuditCron, alone_line, audited, is_clean, manual_words, scope_words, seen, unknown_of, words_of};
ghost use Rattle.cj_inspect.specs.Nights.{TellsNights};
ghost use Rattle.cj_answers.specs.Clusters as told;
ghost use Rattle.cj_answers.specs.Outcome.{explained, outcome_of};
ghost use Rattle.cj_inspect.specs.as_json.Audit.{IsAuditPrinted, IsAuditShown};
ghost use Rattle.cj_answers.specs.as_json.Forms.{is_json};

mod asking;

use crate::as_json::audit::audit_json;
use crate::audit::asking::{audit_moment, base_of, refused_audit_since};
use crate::drawing::{clock_of, clock_table};
use crate::html::since::cluster_since;
use crate::narrowing::narrowed_list;
use crate::nights::{Look, cluster_look, with_nights};
use crate::report::asked_since;
use crate::why::naming::unknown_lines;
use crate::why::notices::{has_home, with_home_notice};
use crate::why::{MOST_LIST_BYTES, MOST_LIST_READS, is_nothing, joined, refused_unknown};
use cj_answers::{
    Answer, ending_by, given_zones, is_form, is_json, is_read, note_lines, note_words,
    refused_form, refused_list, refused_now, refused_pair,
};
use cj_args::AuditRequest;
use cj_audit::{
    Finding, Findings, audit, audit_text, audit_words, has_jobs_alone, manual_text, times_text,
};
use cj_base::{Refusal, both};
use cj_cluster::{ClusterCron, ClusterList, read_cluster};
use cj_io::{Failure, ZoneFile, read_input};
use cj_picture::{Window, cluster_picture};
use cj_types::{Seconds, Shared};
use cj_zone::ZoneTable;
use std::alloc::Global;
use std::io::Read;

fn is_clean(findings: &[Finding]) -> bool
    ensures { result ≡ is_clean findings.now }
{
    findings.is_empty()
}

// The findings and how many there are, and of how many CronJobs and Jobs.
fn counted_text(alloc: Global, list: &ClusterList, findings: &Findings) -> Result<String, Refusal>
    ensures ok { IfOk result (λ s. string_bytes s
        ≡ audit_lines (length (map.values list.now.cluster.crons))
        (length (map.values list.now.cluster.jobs)) findings.now) }
    ensures err { IfErr result (λ e. e ≡ OutOfMemory) }
{
    let (crons, jobs) = both(list.cluster.crons(alloc), list.cluster.jobs(alloc))?;
    let (crons, jobs) = (crons.as_slice().len(), jobs.as_slice().len());
    audit_text(alloc, crons, jobs, findings)
}

// The Jobs that somebody made by hand, then the findings and how many there are.
fn found_text(alloc: Global, list: &ClusterList, findings: &Findings) -> Result<String, Refusal>
    ensures ok { IfOk result (λ s. string_bytes s
        ≡ manual_lines list.now.cluster.times (map.values list.now.cluster.jobs)
        ++ audit_lines (length (map.values list.now.cluster.crons))
        (length (map.values list.now.cluster.jobs)) findings.now) }
    ensures err { IfErr result (λ e. e ≡ OutOfMemory) }
{
    let mut text = manual_text(alloc, &list.cluster)?;
    let found = counted_text(alloc, list, findings)?;
    text.push_str(found.as_str())?;
    Ok(text)
}

// The items that can't be used, then those.
fn lines(alloc: Global, list: &ClusterList, findings: &Findings) -> Result<String, Refusal>
    ensures ok { IfOk result (λ s. IsAuditPrinted false list.now findings.now (string_bytes s)) }
    ensures err { IfErr result (λ e. e ≡ OutOfMemory) }
{
    let lines = note_lines(alloc, list.notes.as_slice())?;
    let found = found_text(alloc, list, findings)?;
    Ok(joined(alloc, lines.as_str(), found.as_str())?)
}

// A picture of a window, with the items that can't be used below it, by the clock that the word is
// of.
fn drawn(
    alloc: Global,
    word: Option<&str>,
    files: &[ZoneFile],
    window: Window,
    list: &ClusterList,
    findings: &Findings,
) -> Result<String, Refusal>
    ensures err { IfErr result (λ e. e ≡ OutOfMemory) }
{
    let lines = note_lines(alloc, list.notes.as_slice())?;
    let table = clock_table(alloc, word, files)?;
    let clock = clock_of(&table);
    let cluster = cluster_since(alloc, window.since, &list.cluster)?;
    cluster_picture(
        alloc,
        &cluster,
        window,
        findings.as_slice(),
        lines.as_str(),
        clock,
    )
}

// What is printed: a picture, or else JSON or lines.
fn printed(
    alloc: Global,
    audit: &AuditRequest<'_>,
    zones: &ZoneTable,
    files: &[ZoneFile],
    look: &Look,
    window: Window,
    list: &ClusterList,
    findings: &Findings,
) -> Result<String, Refusal>
    ensures ok { IfOk result (λ s. IsAuditShown audit.now.svg (is_json audit.now.output.now)
        list.now findings.now (string_bytes s)) }
    ensures err { IfErr result (λ e. e ≡ OutOfMemory) }
{
    if audit.svg {
        drawn(alloc, audit.clock.zone, files, window, list, findings)
    } else if is_json(audit.output) {
        audit_json(alloc, zones, look, list, findings)
    } else {
        lines(alloc, list, findings)
    }
}

fn alone_line(alone: bool) -> &'static str
    ensures { result.now ≡ alone_line alone }
{
    if alone {
        "cronsim: the list has Jobs of CronJobs, and no CronJob to look at them by; kubectl get cronjobs,jobs -o json lists both\n"
    } else {
        ""
    }
}

// Adds the exit status.
fn ended(
    alloc: Global,
    list: &ClusterList,
    findings: &Findings,
    printed: String,
) -> Result<Answer, Refusal>
    ensures ok { IfOk result (λ a. outcome_of a
        ≡ audited list.now findings.now (string_bytes printed)) }
    ensures err { IfErr result (λ e. e ≡ OutOfMemory) }
{
    let is_clean = is_clean(findings.as_slice());
    let is_read = is_read(list.notes.as_slice());
    let alone = has_jobs_alone(alloc, &list.cluster, list.notes.as_slice())?;
    let said = String::from_str(alloc, alone_line(alone))?;
    Ok(Answer {
        ending: ending_by((is_clean && is_read) && !alone),
        printed,
        said,
    })
}

// What such a line means, where there is one.
fn manual_words(lines: &str) -> &'static str
    ensures { result.now ≡ manual_words lines.now }
{
    if lines.is_empty() {
        ""
    } else {
        "manual: somebody made such a Job, as kubectl create job --from does; no controller did, so no finding is of it\n"
    }
}

// What no finding is of, in a list that has CronJobs.
fn scope_words(crons: &[Shared<ClusterCron>]) -> &'static str
    ensures { result.now ≡ scope_words crons.now }
{
    if crons.is_empty() {
        ""
    } else {
        "audit: due times after a CronJob's last Job are not looked at; cronsim why says what was missed since\n"
    }
}

// What the findings mean, and what none is of.
fn scoped_words(alloc: Global, list: &ClusterList, findings: &Findings) -> Result<String, Refusal>
    ensures ok { IfOk result (λ s. string_bytes s
        ≡ audit_words findings.now ++ scope_words (map.values list.now.cluster.crons)) }
    ensures err { IfErr result (λ e. e ≡ OutOfMemory) }
{
    let found = audit_words(alloc, findings)?;
    let crons = list.cluster.crons(alloc)?;
    Ok(joined(alloc, found.as_str(), scope_words(crons.as_slice()))?)
}

// What those lines and the findings mean, and what no finding is of.
fn found_words(alloc: Global, list: &ClusterList, findings: &Findings) -> Result<String, Refusal>
    ensures ok { IfOk result (λ s. string_bytes s
        ≡ manual_words (manual_lines list.now.cluster.times (map.values list.now.cluster.jobs))
        ++ (times_words list.now.cluster.times (map.values list.now.cluster.jobs)
        ++ (audit_words findings.now ++ scope_words (map.values list.now.cluster.crons)))) }
    ensures err { IfErr result (λ e. e ≡ OutOfMemory) }
{
    let lines = manual_text(alloc, &list.cluster)?;
    let mut rest = times_text(alloc, &list.cluster)?;
    let found = scoped_words(alloc, list, findings)?;
    rest.push_str(found.as_str())?;
    Ok(joined(alloc, manual_words(lines.as_str()), rest.as_str())?)
}

fn words(alloc: Global, list: &ClusterList, findings: &Findings) -> Result<String, Failure>
    ensures { IfOk result (λ s. string_bytes s ≡ words_of list.now findings.now) }
{
    let notes = note_words(alloc, list.notes.as_slice())?;
    let found = found_words(alloc, list, findings)?;
    Ok(joined(alloc, notes.as_str(), found.as_str())?)
}

fn told_of(
    alloc: Global,
    explain: bool,
    list: &ClusterList,
    findings: &Findings,
    printed: String,
    words: &str,
) -> Result<Answer, Failure>
    ensures { IfOk result (λ a. outcome_of a ≡ explained explain words.now
        (audited list.now findings.now (string_bytes printed))) }
{
    let answer = ended(alloc, list, findings, printed)?;
    Ok(answer.explained(explain, words)?)
}

// With what the clocks of the CronJobs do, where people ask for it.
fn with_clocks(
    alloc: Global,
    explain: bool,
    zones: &ZoneTable,
    look: &Look,
    list: &ClusterList,
    answer: Answer,
) -> Result<Answer, Failure>
    ensures { IfOk result (λ a. TellsNights explain (zones_of zones.now) look.now
        (map_list (λ c. c.cron) (map.values list.now.cluster.crons)) (outcome_of answer)
        (outcome_of a)) }
{
    let crons = list.cluster.crons(alloc)?;
    Ok(with_nights(alloc, explain, zones, look, crons.as_slice(), answer)?)
}

// What is wrong in the part of a list that is asked about.
fn list_audited(
    alloc: Global,
    audit_of: &AuditRequest<'_>,
    zones: &ZoneTable,
    files: &[ZoneFile],
    since: Option<Seconds>,
    now: Option<Seconds>,
    list: &ClusterList,
) -> Result<Answer, Failure>
    ensures { IfOk result (λ a. AuditsList audit_of.now (zones_of zones.now) since now list.now
        (outcome_of a)) }
{
    let (explain, first) = (audit_of.explain, since);
    let (from, until) = (since, now);
    let all = audit(alloc, zones, &list.cluster, list.notes.as_slice())?;
    let findings = seen(all, since);
    let look = cluster_look(alloc, &list.cluster, first, now)?;
    let words = words(alloc, list, &findings)?;
    let window = Window {
        since: from,
        now: until,
    };
    let printed = printed(
        alloc, audit_of, zones, files, &look, window, list, &findings,
    )?;
    let answer = told_of(alloc, explain, list, &findings, printed, words.as_str())?;
    with_clocks(alloc, explain, zones, &look, list, answer)
}

// The findings from then on.
fn seen(findings: Findings, since: Option<Seconds>) -> Findings
    ensures { result ≡ seen since findings }
{
    match since {
        Some(first) => findings.since(first),
        None => findings,
    }
}

// The answer where each CronJob of `--cron` exists, with its notices.
fn part_audited(
    alloc: Global,
    audit: &AuditRequest<'_>,
    zones: &ZoneTable,
    files: &[ZoneFile],
    since: Option<Seconds>,
    now: Option<Seconds>,
    whole: ClusterList,
) -> Result<Answer, Failure>
    ensures { IfOk result (λ a. AuditsWhole audit.now (zones_of zones.now) since now whole
        (outcome_of a)) }
{
    let within = audit.namespace;
    let crons = whole.cluster.crons(alloc)?;
    let home = has_home(within, &whole, crons.as_slice());
    let list = narrowed_list(alloc, within, audit.crons.as_slice(), whole)?;
    let answer = list_audited(alloc, audit, zones, files, since, now, &list)?;
    Ok(with_home_notice(alloc, within, crons.as_slice(), home, answer)?)
}

// Refuses where these lines say which CronJobs of `--cron` are unknown.
fn known_audited(
    alloc: Global,
    audit: &AuditRequest<'_>,
    zones: &ZoneTable,
    files: &[ZoneFile],
    since: Option<Seconds>,
    now: Option<Seconds>,
    whole: ClusterList,
    unknown: &str,
) -> Result<Answer, Failure>
    ensures { IfOk result (λ a. RefusesAuditCron audit.now unknown.now (outcome_of a)
        ⊎ AuditsKnown audit.now (zones_of zones.now) since now whole unknown.now (outcome_of a)) }
{
    if is_nothing(unknown) {
        part_audited(alloc, audit, zones, files, since, now, whole)
    } else {
        refused_unknown(alloc, audit.explain, unknown)
    }
}

fn unknown_of(
    alloc: Global,
    audit: &AuditRequest<'_>,
    whole: &ClusterList,
) -> Result<String, Refusal>
    ensures { IfOk result (λ s. string_bytes s ≡ unknown_of audit.now whole.now) }
{
    let crons = whole.cluster.crons(alloc)?;
    let texts = audit.crons.as_slice();
    let notes = whole.notes.as_slice();
    unknown_lines(alloc, audit.namespace, texts, crons.as_slice(), notes)
}

// What is answered of a list that was read.
fn whole_audited(
    alloc: Global,
    audit: &AuditRequest<'_>,
    zones: &ZoneTable,
    files: &[ZoneFile],
    since: Option<Seconds>,
    now: Option<Seconds>,
    whole: ClusterList,
) -> Result<Answer, Failure>
    ensures { IfOk result (λ a. IsWholeAudited audit.now (zones_of zones.now) since now whole
        (outcome_of a)) }
{
    let unknown = unknown_of(alloc, audit, &whole)?;
    known_audited(
        alloc,
        audit,
        zones,
        files,
        since,
        now,
        whole,
        unknown.as_str(),
    )
}

// What the bytes of a list are answered.
fn bytes_audited(
    alloc: Global,
    audit: &AuditRequest<'_>,
    zones: &ZoneTable,
    files: &[ZoneFile],
    since: Option<Seconds>,
    now: Option<Seconds>,
    bytes: &[u8],
) -> Result<Answer, Failure>
    ensures { IfOk result (λ a. IsAuditedOf audit.now (zones_of zones.now) since now bytes.now
        (outcome_of a)) }
{
    match read_cluster(alloc, bytes, zones) {
        Ok(list) => whole_audited(alloc, audit, zones, files, since, now, list),
        Err(fault) => refused_list(alloc, audit.explain, bytes, fault),
    }
}

// What is answered in a form that there is.
fn form_answer<R: Read>(
    alloc: Global,
    audit: &AuditRequest<'_>,
    files: &[ZoneFile],
    input: &mut R,
) -> Result<Answer, Failure>
    ensures { IfOk result (λ a. IsAuditAnswer audit.now files.now (R.remaining input.old)
        (outcome_of a)) }
{
    let Some(now) = audit_moment(alloc, audit.moment)? else {
        return Ok(refused_now(alloc, audit.explain)?);
    };
    let Some(since) = asked_since(alloc, base_of(now), audit.since)? else {
        return Ok(refused_audit_since(alloc, audit.explain)?);
    };
    let Some(zones) = given_zones(alloc, &audit.zones, files)? else {
        return refused_pair(alloc, audit.explain);
    };
    let bytes = read_input(alloc, input, MOST_LIST_BYTES, MOST_LIST_READS)?;
    bytes_audited(alloc, audit, &zones, files, since, now, bytes.as_slice())
}

/// What the command `audit` answers: the form of what is printed is looked at first, then the
/// moment, then from when on, then the zones, then all of the input is read.
pub fn audit_answer<R: Read>(
    alloc: Global,
    audit: &AuditRequest<'_>,
    files: &[ZoneFile],
    input: &mut R,
) -> Result<Answer, Failure>
    ensures { IfOk result (λ a. IsAuditOutcome audit.now files.now (R.remaining input.old)
        (outcome_of a)) }
{
    if is_form(audit.output) {
        form_answer(alloc, audit, files, input)
    } else {
        refused_form(alloc, audit.explain)
    }
}
