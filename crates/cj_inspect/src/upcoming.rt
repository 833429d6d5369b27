// What `upcoming` answers of CronJobs.
ghost use Rattle.std.specs.Prelude.{◌≡◌, ◌⊎◌, ◌++◌, IfErr, IfOk, IfSome, IsNone, OnOk, codes, map, option_map, string_bytes};
ghost use Rattle.std.specs.List.{list_any};
ghost use Rattle.cj_cluster.specs.kubectl.Reading.{IsRefusedList};
ghost use Rattle.cj_zone.specs.Table.{zones_of};
ghost use Rattle.cj_upcoming.specs.Length.{length_of};
ghost use Rattle.cj_upcoming.specs.Upcoming.{HasMore};
ghost use Rattle.cj_upcoming.specs.declared.fault.StartsFault.TheVariants.{TooMany};
ghost use Rattle.cj_answers.specs.Outcome.{explained, outcome_of, refusal};
ghost use Rattle.cj_inspect.specs.Nights.{TellsNights};
ghost use Rattle.cj_inspect.specs.Why.{is_noted_in, line_where};
ghost use Rattle.cj_inspect.specs.Windows.{window_look};
ghost use Rattle.cj_answers.specs.as_json.Forms.{is_json};
ghost use Rattle.cj_inspect.specs.Upcoming.{IsAsked, IsNoWindow, IsTold, IsToldOf, IsUpcomingFiles, IsUpcomingOutcome, IsWindow, IsWindowAsked, IsWindowLines, IsWindowPrinted, IsWindowShown, IsWindowSum, IsWindowTold, RefusesMany, RefusesMarked, TellsNoticed, TellsWindow, all_crons, all_lines, all_words, are_read, between, end_words, file_lines, file_words, from_words, has_home, is_noted_of, is_several, is_unknown, length_for, length_words, many_words, mark_for, meant_of, most_starts, or_span, passed_line, passed_lines, passed_mark, told, unknown_lines, unknown_of};

pub(crate) mod coming;
pub(crate) mod peaks;
pub(crate) mod sums;
pub(crate) mod table;

use crate::as_json::upcoming::{files_value, window_json};
use crate::cron_files::{BadFile, CronFile, FileCrons, read_files};
use crate::drawing::{clock_of, clock_table};
use crate::nights::with_nights;
use crate::why::naming::{chosen, has_none, is_noted_one, push_where};
use crate::why::notices::{has_cron, has_note, with_home_notice};
use crate::why::{MOST_LIST_BYTES, MOST_LIST_READS, is_nothing, refused_unknown};
use crate::windows::{counted_text, summed_text, window_drawn, window_look};
use cj_answers::{
    Answer, asked_moment, ending_by, given_zones, is_form, is_json, is_read, marked, note_lines,
    note_words, read_span, refused_form, refused_list, refused_pair,
};
use cj_args::UpcomingRequest;
use cj_cluster::ClusterCron;
use cj_io::{Failure, ZoneFile, read_input};
use cj_types::{Refusal, Seconds, Shared};
use cj_upcoming::{StartsFault, Window, read_length};
use cj_zone::ZoneTable;
use std::alloc::{AllocError, Global};
use std::io::Read;
use std::slice;

/// The greatest number of starts that are listed.
const MOST_STARTS: usize = 4_000_000;

// ---- what the files have

fn push_crons(
    all: &mut Vec<Shared<ClusterCron>>,
    crons: &[Shared<ClusterCron>],
) -> Result<(), Refusal>
    ensures { OnOk result (all.new.items ≡ all.old.items ++ crons.now) }
{
    for cron in crons {
        all.push(cron.share()?).map_err(|_| Refusal::OutOfMemory)?;
    }
    Ok(())
}

// The CronJobs of all files.
fn all_crons(alloc: Global, files: &[FileCrons]) -> Result<Vec<Shared<ClusterCron>>, Refusal>
    ensures { IfOk result (λ v. v.items ≡ all_crons files.now) }
{
    let mut all = Vec::new(alloc);
    for file in files {
        push_crons(&mut all, file.crons.as_slice())?;
    }
    Ok(all)
}

fn are_read(files: &[FileCrons]) -> bool
    ensures { result ≡ are_read files.now }
{
    files.iter().all(|file| is_read(file.notes()))
}

fn is_several(files: &[FileCrons]) -> bool
    ensures { result ≡ is_several files.now }
{
    files.len() > 1
}

// The mark before each line of a file.
fn mark_for(alloc: Global, several: bool, name: &str) -> Result<String, AllocError>
    ensures { IfOk result (λ s. string_bytes s ≡ mark_for several name.now) }
{
    if several {
        format!(in alloc; "{name}: ")
    } else {
        Ok(String::new(alloc))
    }
}

fn file_lines(alloc: Global, several: bool, file: &FileCrons) -> Result<String, AllocError>
    ensures { IfOk result (λ s. string_bytes s ≡ file_lines several file.now) }
{
    let mark = mark_for(alloc, several, file.name.as_str())?;
    let lines = note_lines(alloc, file.notes())?;
    marked(alloc, mark.as_str(), lines.as_str())
}

// The items that can't be used.
fn all_lines(alloc: Global, several: bool, files: &[FileCrons]) -> Result<String, AllocError>
    ensures { IfOk result (λ s. string_bytes s ≡ all_lines several files.now) }
{
    let mut text = String::new(alloc);
    for file in files {
        let lines = file_lines(alloc, several, file)?;
        text.push_str(lines.as_str())?;
    }
    Ok(text)
}

fn file_words(alloc: Global, several: bool, file: &FileCrons) -> Result<String, AllocError>
    ensures { IfOk result (λ s. string_bytes s ≡ file_words several file.now) }
{
    let mark = mark_for(alloc, several, file.name.as_str())?;
    let words = note_words(alloc, file.notes())?;
    marked(alloc, mark.as_str(), words.as_str())
}

// What is wrong with them.
fn all_words(alloc: Global, several: bool, files: &[FileCrons]) -> Result<String, AllocError>
    ensures { IfOk result (λ s. string_bytes s ≡ all_words several files.now) }
{
    let mut text = String::new(alloc);
    for file in files {
        let words = file_words(alloc, several, file)?;
        text.push_str(words.as_str())?;
    }
    Ok(text)
}

// ---- which CronJobs

fn is_noted_of(within: Option<&str>, text: &str, file: &FileCrons) -> bool
    ensures { result ≡ is_noted_of (option_map (λ s. s.now) within.entry) text.now file.now }
{
    is_noted_one(within, text, file.notes())
}

// Whether an item of theirs that can't be used is of a CronJob that is called so.
fn is_noted_among(within: Option<&str>, text: &str, files: &[FileCrons]) -> bool
    ensures { result
        ≡ list_any (is_noted_of (option_map (λ s. s.now) within.entry) text.now) files.now }
{
    files.iter().any(|file| is_noted_of(within, text, file))
}

fn is_unknown(
    alloc: Global,
    within: Option<&str>,
    text: &&str,
    files: &[FileCrons],
    crons: &[Shared<ClusterCron>],
) -> Result<bool, Refusal>
    ensures { IfOk result (λ b. b
        ≡ is_unknown (option_map (λ s. s.now) within.entry) files.now crons.now text.now) }
{
    let named = chosen(alloc, within, slice::from_ref(text), crons)?;
    let has_none = has_none(named.as_slice());
    let is_noted = is_noted_among(within, text, files);
    Ok(has_none && !is_noted)
}

fn push_unknown(
    alloc: Global,
    lines: &mut String,
    within: Option<&str>,
    text: &&str,
    files: &[FileCrons],
    crons: &[Shared<ClusterCron>],
) -> Result<(), Refusal>
    ensures { OnOk result (string_bytes lines.new ≡ string_bytes lines.old
        ++ line_where (is_unknown (option_map (λ s. s.now) within.entry) files.now crons.now
        text.now) text.now.now) }
{
    let is_unknown = is_unknown(alloc, within, text, files, crons)?;
    push_where(alloc, lines, text, is_unknown)?;
    Ok(())
}

/// A line for each text that no CronJob is called.
pub(crate) fn unknown_lines(
    alloc: Global,
    within: Option<&str>,
    texts: &[&str],
    files: &[FileCrons],
    crons: &[Shared<ClusterCron>],
) -> Result<String, Refusal>
    ensures { IfOk result (λ s. string_bytes s
        ≡ unknown_lines (option_map (λ s. s.now) within.entry) files.now crons.now texts.now) }
{
    let mut lines = String::new(alloc);
    for text in texts {
        push_unknown(alloc, &mut lines, within, text, files, crons)?;
    }
    Ok(lines)
}

fn unknown_of(
    alloc: Global,
    upcoming: &UpcomingRequest<'_>,
    files: &[FileCrons],
    crons: &[Shared<ClusterCron>],
) -> Result<String, Refusal>
    requires { crons.now ≡ all_crons files.now }
    ensures { IfOk result (λ s. string_bytes s ≡ unknown_of upcoming.now files.now) }
{
    let texts = upcoming.crons.as_slice();
    unknown_lines(alloc, upcoming.namespace, texts, files, crons)
}

fn meant_of(
    alloc: Global,
    upcoming: &UpcomingRequest<'_>,
    files: &[FileCrons],
    crons: &[Shared<ClusterCron>],
) -> Result<Vec<Shared<ClusterCron>>, Refusal>
    requires { crons.now ≡ all_crons files.now }
    ensures { IfOk result (λ v. v.items ≡ meant_of upcoming.now files.now) }
{
    chosen(alloc, upcoming.namespace, upcoming.crons.as_slice(), crons)
}

// ---- the answer

// What helps where there are too many starts.
const MANY_WORDS: &str =
    "--for: more than 4000000 starts in the window; want a shorter one, or fewer CronJobs by --cron or -n\n";

fn refused_many(alloc: Global, explain: bool) -> Result<Answer, AllocError>
    ensures { IfOk result (λ a. outcome_of a ≡ explained explain many_words
        (refusal (codes "cronsim: starts\n"))) }
{
    Answer::refused(alloc, "cronsim: starts\n")?.explained(explain, MANY_WORDS)
}

// How many objects of a file are passed over.
fn passed_line(alloc: Global, several: bool, file: &FileCrons) -> Result<String, AllocError>
    ensures { IfOk result (λ s. string_bytes s ≡ passed_line several file.now) }
{
    let passed = file.passed;
    if passed == 0 {
        return Ok(String::new(alloc));
    }
    let mark = passed_mark(several, file.name.as_str());
    format!(in alloc; "{mark}: objects of other kinds, passed over: {passed}\n")
}

// Which file is meant.
fn passed_mark<'a>(several: bool, name: &'a str) -> &'a str
    ensures { result.now ≡ passed_mark several name.now }
{
    if several { name } else { "FILE" }
}

fn passed_lines(alloc: Global, several: bool, files: &[FileCrons]) -> Result<String, AllocError>
    ensures { IfOk result (λ s. string_bytes s ≡ passed_lines several files.now) }
{
    let mut text = String::new(alloc);
    for file in files {
        let line = passed_line(alloc, several, file)?;
        text.push_str(line.as_str())?;
    }
    Ok(text)
}

// How what is printed ends, with what is passed over.
fn told(alloc: Global, files: &[FileCrons], printed: String) -> Result<Answer, AllocError>
    ensures { IfOk result (λ a. outcome_of a ≡ told files.now (string_bytes printed)) }
{
    Ok(Answer {
        ending: ending_by(are_read(files)),
        printed,
        said: passed_lines(alloc, is_several(files), files)?,
    })
}

fn told_text(
    alloc: Global,
    explain: bool,
    files: &[FileCrons],
    printed: String,
) -> Result<Answer, AllocError>
    ensures { IfOk result (λ a. outcome_of a
        ≡ explained explain (all_words (is_several files.now) files.now)
        (told files.now (string_bytes printed))) }
{
    let words = all_words(alloc, is_several(files), files)?;
    told(alloc, files, printed)?.explained(explain, words.as_str())
}

// The items that can't be used, in lines, with the lines of the window behind them.
fn with_items(alloc: Global, files: &[FileCrons], text: &str) -> Result<String, AllocError>
    ensures { IfOk result (λ s. string_bytes s
        ≡ all_lines (is_several files.now) files.now ++ text.now) }
{
    let mut printed = all_lines(alloc, is_several(files), files)?;
    printed.push_str(text)?;
    Ok(printed)
}

// The lines of these CronJobs.
fn window_lines(
    alloc: Global,
    zones: &ZoneTable,
    window: &Window,
    files: &[FileCrons],
    crons: &[Shared<ClusterCron>],
    peaks: usize,
) -> Result<String, StartsFault>
    ensures ok { IfOk result (λ s. IsWindowLines (zones_of zones.now) window.now files.now crons.now
        peaks (string_bytes s)) }
    ensures many { IfErr result (λ e. e ≡ TooMany →
        HasMore (zones_of zones.now) window.now crons.now most_starts) }
{
    let text = counted_text(alloc, zones, window, crons, MOST_STARTS, peaks)?;
    let printed = with_items(alloc, files, text.as_str())?;
    Ok(printed)
}

// A line for each of these CronJobs.
fn window_sum(
    alloc: Global,
    zones: &ZoneTable,
    window: &Window,
    files: &[FileCrons],
    crons: &[Shared<ClusterCron>],
    peaks: usize,
) -> Result<String, StartsFault>
    ensures ok { IfOk result (λ s. IsWindowSum (zones_of zones.now) window.now files.now crons.now
        (string_bytes s)) }
    ensures many { IfErr result (λ e. e ≡ TooMany →
        HasMore (zones_of zones.now) window.now crons.now most_starts) }
{
    let text = summed_text(alloc, zones, window, crons, MOST_STARTS, peaks)?;
    let printed = with_items(alloc, files, text.as_str())?;
    Ok(printed)
}

// The minutes, or a line for each CronJob.
fn window_told(
    alloc: Global,
    minutes: bool,
    zones: &ZoneTable,
    window: &Window,
    files: &[FileCrons],
    crons: &[Shared<ClusterCron>],
    peaks: usize,
) -> Result<String, StartsFault>
    ensures ok { IfOk result (λ s. IsWindowTold minutes (zones_of zones.now) window.now files.now
        crons.now peaks (string_bytes s)) }
    ensures many { IfErr result (λ e. e ≡ TooMany →
        HasMore (zones_of zones.now) window.now crons.now most_starts) }
{
    if minutes {
        window_lines(alloc, zones, window, files, crons, peaks)
    } else {
        window_sum(alloc, zones, window, files, crons, peaks)
    }
}

// The answer as JSON or in lines.
fn window_printed(
    alloc: Global,
    upcoming: &UpcomingRequest<'_>,
    zones: &ZoneTable,
    window: &Window,
    files: &[FileCrons],
    crons: &[Shared<ClusterCron>],
) -> Result<String, StartsFault>
    ensures ok { IfOk result (λ s. IsWindowPrinted (is_json upcoming.now.output.now)
        upcoming.now.minutes (zones_of zones.now) window.now files.now crons.now
        upcoming.now.peaks (string_bytes s)) }
    ensures many { IfErr result (λ e. e ≡ TooMany →
        HasMore (zones_of zones.now) window.now crons.now most_starts) }
{
    let peaks = usize::from(upcoming.peaks);
    if is_json(upcoming.output) {
        let items = files_value(alloc, is_several(files), files)?;
        window_json(alloc, zones, window, crons, MOST_STARTS, peaks, items)
    } else {
        window_told(alloc, upcoming.minutes, zones, window, files, crons, peaks)
    }
}

// A picture of them, with the items that can't be used below it, by the clock that the word is of.
fn drawn(
    alloc: Global,
    word: Option<&str>,
    zones: &ZoneTable,
    zone_files: &[ZoneFile],
    window: &Window,
    files: &[FileCrons],
    crons: &[Shared<ClusterCron>],
) -> Result<String, StartsFault>
    ensures many { IfErr result (λ e. e ≡ TooMany →
        HasMore (zones_of zones.now) window.now crons.now most_starts) }
{
    let items = all_lines(alloc, is_several(files), files)?;
    let table = clock_table(alloc, word, zone_files)?;
    let clock = clock_of(&table);
    window_drawn(
        alloc,
        zones,
        window,
        crons,
        MOST_STARTS,
        items.as_str(),
        clock,
    )
}

// A picture, or else JSON or lines.
fn window_shown(
    alloc: Global,
    upcoming: &UpcomingRequest<'_>,
    zones: &ZoneTable,
    zone_files: &[ZoneFile],
    window: &Window,
    files: &[FileCrons],
    crons: &[Shared<ClusterCron>],
) -> Result<String, StartsFault>
    ensures ok { IfOk result (λ s. IsWindowShown upcoming.now.svg (is_json upcoming.now.output.now)
        upcoming.now.minutes (zones_of zones.now) window.now files.now crons.now
        upcoming.now.peaks (string_bytes s)) }
    ensures many { IfErr result (λ e. e ≡ TooMany →
        HasMore (zones_of zones.now) window.now crons.now most_starts) }
{
    if upcoming.svg {
        let word = upcoming.clock.zone;
        drawn(alloc, word, zones, zone_files, window, files, crons)
    } else {
        window_printed(alloc, upcoming, zones, window, files, crons)
    }
}

// With what the clocks of these CronJobs do in the window, where people ask for it.
fn told_clocks(
    alloc: Global,
    explain: bool,
    zones: &ZoneTable,
    window: &Window,
    files: &[FileCrons],
    crons: &[Shared<ClusterCron>],
    printed: String,
) -> Result<Answer, Failure>
    ensures { IfOk result (λ a. TellsNights explain (zones_of zones.now) (window_look window.now)
        (map (λ c. c.cron) crons.now)
        (explained explain (all_words (is_several files.now) files.now)
        (told files.now (string_bytes printed)))
        (outcome_of a)) }
{
    let answer = told_text(alloc, explain, files, printed)?;
    let look = window_look(window);
    Ok(with_nights(alloc, explain, zones, &look, crons, answer)?)
}

// The answer for these CronJobs.
fn told_of(
    alloc: Global,
    upcoming: &UpcomingRequest<'_>,
    zones: &ZoneTable,
    zone_files: &[ZoneFile],
    window: &Window,
    files: &[FileCrons],
    crons: &[Shared<ClusterCron>],
) -> Result<Answer, Failure>
    requires { crons.now ≡ meant_of upcoming.now files.now }
    ensures { IfOk result (λ a. RefusesMany upcoming.now (zones_of zones.now) window.now files.now
        (outcome_of a)
        ⊎ TellsWindow upcoming.now (zones_of zones.now) window.now files.now (outcome_of a)) }
{
    match window_shown(alloc, upcoming, zones, zone_files, window, files, crons) {
        Ok(text) => told_clocks(alloc, upcoming.explain, zones, window, files, crons, text),
        Err(StartsFault::TooMany) => Ok(refused_many(alloc, upcoming.explain)?),
        Err(StartsFault::Memory) => Err(Failure::Memory),
    }
}

fn is_home(namespace: &str, file: &FileCrons) -> bool
    ensures { result
        ≡ list_any (λ note. is_noted_in namespace.now note.cron) file.now.list.notes }
{
    has_note(namespace, file.notes())
}

// Whether one of the items that can't be used is a CronJob of that namespace.
fn has_noted(namespace: &str, files: &[FileCrons]) -> bool
    ensures { result ≡ list_any
        (λ f. list_any (λ note. is_noted_in namespace.now note.cron) f.list.notes) files.now }
{
    files.iter().any(|file| is_home(namespace, file))
}

// Whether a CronJob of the files is in the namespace that is given, if one is.
fn has_home(within: Option<&str>, files: &[FileCrons], crons: &[Shared<ClusterCron>]) -> bool
    requires { crons.now ≡ all_crons files.now }
    ensures { result ≡ has_home (option_map (λ s. s.now) within.entry) files.now }
{
    match within {
        None => true,
        Some(namespace) => {
            let has_cron = has_cron(namespace, crons);
            let has_note = has_noted(namespace, files);
            has_cron || has_note
        }
    }
}

// The answer of what the CronJobs that are meant start, with what is told beside it.
fn told_noticed(
    alloc: Global,
    upcoming: &UpcomingRequest<'_>,
    zones: &ZoneTable,
    zone_files: &[ZoneFile],
    window: &Window,
    files: &[FileCrons],
    crons: &[Shared<ClusterCron>],
) -> Result<Answer, Failure>
    requires { crons.now ≡ all_crons files.now }
    ensures { IfOk result (λ a. TellsNoticed upcoming.now (zones_of zones.now) window.now files.now
        (outcome_of a)) }
{
    let meant = meant_of(alloc, upcoming, files, crons)?;
    let answer = told_of(
        alloc,
        upcoming,
        zones,
        zone_files,
        window,
        files,
        meant.as_slice(),
    )?;
    let within = upcoming.namespace;
    let home = has_home(within, files, crons);
    Ok(with_home_notice(alloc, within, crons, home, answer)?)
}

// The answer where these lines say which names are unknown.
fn told_known(
    alloc: Global,
    upcoming: &UpcomingRequest<'_>,
    zones: &ZoneTable,
    zone_files: &[ZoneFile],
    window: &Window,
    files: &[FileCrons],
    crons: &[Shared<ClusterCron>],
    unknown: &str,
) -> Result<Answer, Failure>
    requires all { crons.now ≡ all_crons files.now }
    requires lines { unknown.now ≡ unknown_of upcoming.now files.now }
    ensures { IfOk result (λ a. IsTold upcoming.now (zones_of zones.now) window.now files.now
        (outcome_of a)) }
{
    if is_nothing(unknown) {
        told_noticed(alloc, upcoming, zones, zone_files, window, files, crons)
    } else {
        refused_unknown(alloc, upcoming.explain, unknown)
    }
}

// The answer for what the files have.
fn files_told(
    alloc: Global,
    upcoming: &UpcomingRequest<'_>,
    zones: &ZoneTable,
    zone_files: &[ZoneFile],
    window: &Window,
    files: &[FileCrons],
) -> Result<Answer, Failure>
    ensures { IfOk result (λ a. IsTold upcoming.now (zones_of zones.now) window.now files.now
        (outcome_of a)) }
{
    let crons = all_crons(alloc, files)?;
    let crons = crons.as_slice();
    let unknown = unknown_of(alloc, upcoming, files, crons)?;
    told_known(
        alloc,
        upcoming,
        zones,
        zone_files,
        window,
        files,
        crons,
        unknown.as_str(),
    )
}

// What is answered where a file is refused; of several files its lines begin with its name.
fn refused_file(
    alloc: Global,
    explain: bool,
    several: bool,
    bad: &BadFile<'_>,
) -> Result<Answer, Failure>
    requires { IsRefusedList bad.now.file.bytes.now bad.now.fault }
    ensures { IfOk result (λ a. RefusesMarked explain several bad.now.file (outcome_of a)) }
{
    let alone = refused_list(alloc, explain, bad.file.bytes, bad.fault)?;
    let mark = mark_for(alloc, several, bad.file.name)?;
    let said = marked(alloc, mark.as_str(), alone.said.as_str())?;
    Ok(Answer {
        ending: alone.ending,
        printed: alone.printed,
        said,
    })
}

// The answer for the files.
fn sources_told(
    alloc: Global,
    upcoming: &UpcomingRequest<'_>,
    zones: &ZoneTable,
    zone_files: &[ZoneFile],
    window: &Window,
    sources: &[CronFile<'_>],
) -> Result<Answer, Failure>
    ensures { IfOk result (λ a. IsToldOf upcoming.now (zones_of zones.now) window.now sources.now
        (outcome_of a)) }
{
    match read_files(alloc, sources, zones) {
        Ok(files) => files_told(alloc, upcoming, zones, zone_files, window, files.as_slice()),
        Err(bad) => refused_file(alloc, upcoming.explain, sources.len() > 1, &bad),
    }
}

// ---- the words

// What the words ask for.
#[derive(Drop)]
enum Asked {
    Known(Window, ZoneTable),
    Refused(Answer),
}

// What a start has to be.
const FROM_WORDS: &str =
    "--from: want a time like 2024-01-01T00:00:00Z or 2024-01-01T01:00:00+01:00, a date like 2024-01-01, now, or -1h or +2d from now\n";

/// What is answered where the start of a window is refused.
pub(crate) fn refused_start(alloc: Global, explain: bool) -> Result<Answer, AllocError>
    ensures { IfOk result (λ a. outcome_of a ≡ explained explain from_words
        (refusal (codes "cronsim: time\n"))) }
{
    Answer::refused(alloc, "cronsim: time\n")?.explained(explain, FROM_WORDS)
}

// What a length has to be.
const LENGTH_WORDS: &str =
    "--for: want units s, m, h, d, w, as 90m, 24h, 7d or 1h30m, at most 3000d, and an end before the year 9999\n";

// What an end has to be.
const UNTIL_WORDS: &str =
    "--until: want a moment as --from, not before the start and at most 3000d behind it\n";

// What is wanted of a window that is refused.
fn end_words(until: Option<&str>) -> &'static str
    ensures { result.now ≡ end_words until.entry }
{
    match until {
        Some(_) => UNTIL_WORDS,
        None => LENGTH_WORDS,
    }
}

/// What is answered where the length or the end of a window is refused.
pub(crate) fn refused_length(
    alloc: Global,
    explain: bool,
    until: Option<&str>,
) -> Result<Answer, AllocError>
    ensures { IfOk result (λ a. outcome_of a ≡ explained explain (end_words until.entry)
        (refusal (codes "cronsim: length\n"))) }
{
    Answer::refused(alloc, "cronsim: length\n")?.explained(explain, end_words(until))
}

// So long from one instant to another that isn't before it.
fn between(from: Seconds, end: Option<Seconds>) -> Option<u64>
    ensures { result ≡ between from end }
{
    let end = end?;
    if from.get() <= end.get() {
        Some(end.get() - from.get())
    } else {
        None
    }
}

// A length of one unit, or else of several.
fn length_of(text: &str) -> Option<u64>
    ensures { result ≡ or_span (length_of text.now) text.now }
{
    match read_length(text) {
        Some(length) => Some(length),
        None => read_span(text),
    }
}

// How long the window is: up to the moment that is given as its end, else as its length says.
fn length_for(
    alloc: Global,
    from: Seconds,
    length: &str,
    until: Option<&str>,
) -> Result<Option<u64>, AllocError>
    ensures { IfOk result (λ n. n ≡ length_for from length.now until.entry) }
{
    match until {
        Some(_) => Ok(between(from, asked_moment(alloc, until)?)),
        None => Ok(length_of(length)),
    }
}

/// The window from an instant on that is so long, or up to that moment.
pub(crate) fn window_from(
    alloc: Global,
    from: Seconds,
    length: &str,
    until: Option<&str>,
) -> Result<Option<Window>, AllocError>
    ensures some { IfOk result (λ w. IfSome w (IsWindow from
        (length_for from length.now until.entry))) }
    ensures none { IfOk result (λ w. IsNone w → IsNoWindow from
        (length_for from length.now until.entry)) }
{
    match length_for(alloc, from, length, until)? {
        Some(length) => Ok(Window::new(from, length)),
        None => Ok(None),
    }
}

// The window and the zones, or why they are refused.
fn window_asked(
    alloc: Global,
    upcoming: &UpcomingRequest<'_>,
    files: &[ZoneFile],
) -> Result<Asked, Failure>
    ensures { IfOk result (IsWindowAsked upcoming.now files.now) }
{
    let Some(from) = asked_moment(alloc, upcoming.from)? else {
        return Ok(Asked::Refused(refused_start(alloc, upcoming.explain)?));
    };
    let Some(window) = window_from(alloc, from, upcoming.length, upcoming.until)? else {
        let refused = refused_length(alloc, upcoming.explain, upcoming.until)?;
        return Ok(Asked::Refused(refused));
    };
    let Some(zones) = given_zones(alloc, &upcoming.zones, files)? else {
        return Ok(Asked::Refused(refused_pair(alloc, upcoming.explain)?));
    };
    Ok(Asked::Known(window, zones))
}

// The answer in a form that exists.
fn words_asked(
    alloc: Global,
    upcoming: &UpcomingRequest<'_>,
    files: &[ZoneFile],
) -> Result<Asked, Failure>
    ensures { IfOk result (IsAsked upcoming.now files.now) }
{
    if is_form(upcoming.output) {
        window_asked(alloc, upcoming, files)
    } else {
        Ok(Asked::Refused(refused_form(alloc, upcoming.explain)?))
    }
}

/// What the command `upcoming` answers of several files that were read: the form of what is printed
/// is looked at first, then the start, then the length, then the zones, then the files in their
/// order.
pub fn upcoming_files_answer(
    alloc: Global,
    upcoming: &UpcomingRequest<'_>,
    files: &[ZoneFile],
    sources: &[CronFile<'_>],
) -> Result<Answer, Failure>
    ensures { IfOk result (λ a. IsUpcomingFiles upcoming.now files.now sources.now
        (outcome_of a)) }
{
    match words_asked(alloc, upcoming, files)? {
        Asked::Known(window, zones) => sources_told(
            alloc, upcoming, &zones, files, &window, sources,
        ),
        Asked::Refused(answer) => Ok(answer),
    }
}

/// What the command `upcoming` answers of one file: form, start, length and zones are looked at
/// first, then all of the input is read.
pub fn upcoming_answer<R: Read>(
    alloc: Global,
    upcoming: &UpcomingRequest<'_>,
    files: &[ZoneFile],
    input: &mut R,
) -> Result<Answer, Failure>
    ensures { IfOk result (λ a. IsUpcomingOutcome upcoming.now files.now (R.remaining input.old)
        (outcome_of a)) }
{
    match words_asked(alloc, upcoming, files)? {
        Asked::Known(window, zones) => {
            let bytes = read_input(alloc, input, MOST_LIST_BYTES, MOST_LIST_READS)?;
            let source = CronFile {
                name: "",
                bytes: bytes.as_slice(),
            };
            sources_told(
                alloc,
                upcoming,
                &zones,
                files,
                &window,
                slice::from_ref(&source),
            )
        }
        Asked::Refused(answer) => Ok(answer),
    }
}
