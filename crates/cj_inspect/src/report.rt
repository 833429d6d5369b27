// What `report` answers of a cluster.
ghost use Rattle.std.specs.Prelude.{◌≡◌, IfOk, Some, codes};
ghost use Rattle.cj_cluster.specs.kubectl.Reading.{IsRefusedList};
ghost use Rattle.cj_zone.specs.Table.{local_zone, zones_of};
ghost use Rattle.cj_zone.specs.Zones.{utc_zone};
ghost use Rattle.cj_answers.specs.Outcome.{explained, outcome_of, refusal};
ghost use Rattle.cj_inspect.specs.Report.{IsReportOutcome, asked_since, since_of, since_words};

use crate::cron_files::CronFile;
use crate::html::{Subject, add_cluster, page_text};
use crate::narrowing::{is_everything, narrowed_cluster};
use crate::why::naming::{told_items, unknown_lines};
use crate::why::notices::{has_cron, has_note, with_home_notice};
use crate::why::{MOST_LIST_BYTES, MOST_LIST_READS, refused_unknown};
use cj_answers::{
    Answer, asked_moment, by_clock, ending_by, given_zones, is_read, marked, note_words,
    refused_list, refused_now, refused_pair,
};
use cj_args::ReportRequest;
use cj_audit::{Findings, audit, has_jobs_alone};
use cj_cluster::{Cluster, ClusterCron, ClusterList, ItemNote, ListFault, Said, read_cluster};
use cj_io::{Failure, ZoneFile, read_input};
use cj_types::{Refusal, Seconds, Shared};
use cj_zone::ZoneTable;
use std::alloc::{AllocError, Global};
use std::io::Read;
use std::slice;

// ---- what the files have

// The files put together: their objects, the items that can't be used, and what is said of these.
#[derive(Drop)]
struct Gathered {
    cluster: Cluster,
    notes: Vec<ItemNote>,
    passed: String,
    words: String,
}

// The files, or why one is refused.
#[derive(Drop)]
enum Gathering {
    Known(Gathered),
    Refused(Answer),
}

fn nothing(alloc: Global) -> Gathered {
    Gathered {
        cluster: Cluster::new(alloc),
        notes: Vec::new(alloc),
        passed: String::new(alloc),
        words: String::new(alloc),
    }
}

// The mark before each line of a file, where there are several.
fn mark_of(alloc: Global, several: bool, name: &str) -> Result<String, AllocError> {
    if several {
        format!(in alloc; "{name}: ")
    } else {
        Ok(String::new(alloc))
    }
}

// What is wrong with an item, and which object it is; nothing of one of another kind.
fn push_item(
    alloc: Global,
    passed: &mut String,
    mark: &str,
    note: &ItemNote,
) -> Result<(), AllocError> {
    let words = note_words(alloc, slice::from_ref(note))?;
    let lines = marked(alloc, mark, words.as_str())?;
    passed.push_str(lines.as_str())
}

fn push_items(
    alloc: Global,
    passed: &mut String,
    mark: &str,
    notes: &[ItemNote],
) -> Result<(), AllocError> {
    for note in notes {
        push_item(alloc, passed, mark, note)?;
    }
    Ok(())
}

// How many items are of another kind.
fn others_of(notes: &[ItemNote]) -> u64 {
    let mut count: u64 = 0;
    for note in notes {
        if let Said::Kind(_) = &note.said {
            count = count.saturating_add(1);
        }
    }
    count
}

fn push_others(
    alloc: Global,
    passed: &mut String,
    mark: &str,
    notes: &[ItemNote],
) -> Result<(), AllocError> {
    let count = others_of(notes);
    if count == 0 {
        return Ok(());
    }
    let line = format!(in alloc; "{mark}items that are neither CronJobs nor Jobs: {count}\n")?;
    passed.push_str(line.as_str())
}

// What is said of a file's items that can't be used.
fn push_said(
    alloc: Global,
    gathered: &mut Gathered,
    mark: &str,
    notes: &[ItemNote],
) -> Result<(), AllocError> {
    push_items(alloc, &mut gathered.passed, mark, notes)?;
    push_others(alloc, &mut gathered.passed, mark, notes)?;
    let words = note_words(alloc, notes)?;
    let words = marked(alloc, mark, words.as_str())?;
    gathered.words.push_str(words.as_str())
}

// How many objects of a file are left out, as an earlier file has objects of their names.
fn push_known(
    alloc: Global,
    gathered: &mut Gathered,
    mark: &str,
    known: usize,
) -> Result<(), AllocError> {
    if known == 0 {
        return Ok(());
    }
    let line = format!(in alloc;
        "{mark}objects left out, since an earlier file has them: {known}\n"
    )?;
    gathered.passed.push_str(line.as_str())
}

fn push_notes(gathered: &mut Gathered, notes: Vec<ItemNote>) -> Result<(), Refusal> {
    for note in notes {
        gathered.notes.push(note).map_err(|_| Refusal::OutOfMemory)?;
    }
    Ok(())
}

// Adds what a file has.
fn add_list(
    alloc: Global,
    gathered: &mut Gathered,
    mark: &str,
    list: ClusterList,
) -> Result<(), Refusal> {
    let (cluster, notes) = list.into_parts();
    push_said(alloc, gathered, mark, notes.as_slice())?;
    let known = add_cluster(alloc, &mut gathered.cluster, &cluster)?;
    push_known(alloc, gathered, mark, known)?;
    push_notes(gathered, notes.into_items())
}

// What is answered where a file is refused; of several files its lines begin with its name.
fn refused_file(
    alloc: Global,
    explain: bool,
    mark: &str,
    bytes: &[u8],
    fault: ListFault,
) -> Result<Answer, Failure>
    requires { IsRefusedList bytes.now fault }
{
    let alone = refused_list(alloc, explain, bytes, fault)?;
    let said = marked(alloc, mark, alone.said.as_str())?;
    Ok(Answer {
        ending: alone.ending,
        printed: alone.printed,
        said,
    })
}

// What the files have, or the first that is refused.
fn gather(
    alloc: Global,
    explain: bool,
    zones: &ZoneTable,
    sources: &[CronFile<'_>],
) -> Result<Gathering, Failure> {
    let mut all = nothing(alloc);
    let several = sources.len() > 1;
    for source in sources {
        let mark = mark_of(alloc, several, source.name)?;
        match read_cluster(alloc, source.bytes, zones) {
            Ok(list) => add_list(alloc, &mut all, mark.as_str(), list)?,
            Err(fault) => {
                let answer = refused_file(alloc, explain, mark.as_str(), source.bytes, fault)?;
                return Ok(Gathering::Refused(answer));
            }
        }
    }
    Ok(Gathering::Known(all))
}

// ---- the answer

fn page_of(
    alloc: Global,
    report: &ReportRequest<'_>,
    zones: &ZoneTable,
    now: Seconds,
    since: Option<Seconds>,
    all: &Gathered,
    findings: &Findings,
) -> Result<String, Refusal>
    requires { local_zone zones.now ≡ Some (utc_zone (codes "UTC")) }
{
    let subject = Subject {
        now,
        since,
        files: report.files.as_slice(),
        passed: all.passed.as_str(),
        alone: has_jobs_alone(alloc, &all.cluster, all.notes.as_slice())?,
    };
    page_text(alloc, zones, &all.cluster, findings.as_slice(), &subject)
}

// The answer for what the files have.
fn told(
    alloc: Global,
    report: &ReportRequest<'_>,
    zones: &ZoneTable,
    now: Seconds,
    since: Option<Seconds>,
    all: &Gathered,
) -> Result<Answer, Failure>
    requires { local_zone zones.now ≡ Some (utc_zone (codes "UTC")) }
{
    let findings = audit(alloc, zones, &all.cluster, all.notes.as_slice())?;
    let printed = page_of(alloc, report, zones, now, since, all, &findings)?;
    let answer = Answer {
        ending: ending_by(is_read(all.notes.as_slice())),
        printed,
        said: String::new(alloc),
    };
    Ok(answer.explained(report.explain, all.words.as_str())?)
}

// The files with the CronJobs that are asked about.
fn narrowed(alloc: Global, report: &ReportRequest<'_>, all: Gathered) -> Result<Gathered, Refusal> {
    let (within, texts) = (report.namespace, report.crons.as_slice());
    if is_everything(within, texts) {
        return Ok(all);
    }
    let Gathered {
        cluster,
        notes,
        passed,
        words,
    } = all;
    Ok(Gathered {
        cluster: narrowed_cluster(alloc, within, texts, &cluster)?,
        notes: told_items(within, texts, notes),
        passed,
        words,
    })
}

// Whether one of them is in the namespace that is given, if one is.
fn has_home(within: Option<&str>, notes: &[ItemNote], crons: &[Shared<ClusterCron>]) -> bool {
    match within {
        None => true,
        Some(namespace) => has_cron(namespace, crons) || has_note(namespace, notes),
    }
}

// The answer for what the files have, if each CronJob that is named is there.
fn known_told(
    alloc: Global,
    report: &ReportRequest<'_>,
    zones: &ZoneTable,
    now: Seconds,
    since: Option<Seconds>,
    all: Gathered,
) -> Result<Answer, Failure>
    requires { local_zone zones.now ≡ Some (utc_zone (codes "UTC")) }
{
    let (within, texts) = (report.namespace, report.crons.as_slice());
    let crons = all.cluster.crons(alloc)?;
    let crons = crons.as_slice();
    let unknown = unknown_lines(alloc, within, texts, crons, all.notes.as_slice())?;
    if !unknown.is_empty() {
        return refused_unknown(alloc, report.explain, unknown.as_str());
    }
    let home = has_home(within, all.notes.as_slice(), crons);
    let part = narrowed(alloc, report, all)?;
    let answer = told(alloc, report, zones, now, since, &part)?;
    Ok(with_home_notice(alloc, within, crons, home, answer)?)
}

// The answer for the files.
fn sources_told(
    alloc: Global,
    report: &ReportRequest<'_>,
    zones: &ZoneTable,
    now: Seconds,
    since: Option<Seconds>,
    sources: &[CronFile<'_>],
) -> Result<Answer, Failure>
    requires { local_zone zones.now ≡ Some (utc_zone (codes "UTC")) }
{
    match gather(alloc, report.explain, zones, sources)? {
        Gathering::Known(all) => known_told(alloc, report, zones, now, since, all),
        Gathering::Refused(answer) => Ok(answer),
    }
}

// ---- the words

// The moment that a text says, where a distance counts from this one.
fn since_of(alloc: Global, now: Seconds, text: &str) -> Result<Option<Seconds>, AllocError>
    ensures { IfOk result (λ m. m ≡ since_of now text.now) }
{
    match by_clock(now, text) {
        Some(moment) => Ok(Some(moment)),
        None => asked_moment(alloc, Some(text)),
    }
}

// From when on, if the words say it; none where they say no moment.
pub(crate) fn asked_since(
    alloc: Global,
    now: Seconds,
    text: Option<&str>,
) -> Result<Option<Option<Seconds>>, AllocError>
    ensures { IfOk result (λ m. m ≡ asked_since now text.entry) }
{
    match text {
        Some(text) => match since_of(alloc, now, text)? {
            Some(moment) => Ok(Some(Some(moment))),
            None => Ok(None),
        },
        None => Ok(Some(None)),
    }
}

// What the value of `--since` has to be.
const SINCE_WORDS: &str =
    "--since: want a time like 2024-01-01T00:00:00Z or 2024-01-01T01:00:00+01:00, a date like 2024-01-01, or -12h from the moment of the page\n";

fn refused_since(alloc: Global, explain: bool) -> Result<Answer, AllocError>
    ensures { IfOk result (λ a. outcome_of a ≡ explained explain since_words
        (refusal (codes "cronsim: time\n"))) }
{
    Answer::refused(alloc, "cronsim: time\n")?.explained(explain, SINCE_WORDS)
}

/// What the command `report` answers of files that were read: the moment is looked at first, then
/// from when on, then the zones, then the files in their order.
pub fn report_files_answer(
    alloc: Global,
    report: &ReportRequest<'_>,
    files: &[ZoneFile],
    sources: &[CronFile<'_>],
) -> Result<Answer, Failure>
    ensures { IfOk result (λ a. IsReportOutcome report.now files.now (outcome_of a)) }
{
    let Some(now) = asked_moment(alloc, report.moment)? else {
        return Ok(refused_now(alloc, report.explain)?);
    };
    let Some(since) = asked_since(alloc, now, report.since)? else {
        return Ok(refused_since(alloc, report.explain)?);
    };
    let Some(zones) = given_zones(alloc, &report.zones, files)? else {
        return refused_pair(alloc, report.explain);
    };
    sources_told(alloc, report, &zones, now, since, sources)
}

// The name of the first file.
fn first_name<'a>(report: &ReportRequest<'a>) -> &'a str {
    report.files.as_slice().first().copied().unwrap_or("-")
}

/// What the command `report` answers of one file: all of the input is read first.
pub fn report_answer<R: Read>(
    alloc: Global,
    report: &ReportRequest<'_>,
    files: &[ZoneFile],
    input: &mut R,
) -> Result<Answer, Failure>
    ensures { IfOk result (λ a. IsReportOutcome report.now files.now (outcome_of a)) }
{
    let bytes = read_input(alloc, input, MOST_LIST_BYTES, MOST_LIST_READS)?;
    let source = CronFile {
        name: first_name(report),
        bytes: bytes.as_slice(),
    };
    report_files_answer(alloc, report, files, slice::from_ref(&source))
}
