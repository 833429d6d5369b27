// How the rows of CronJobs are laid out.
ghost use Rattle.std.specs.Prelude.{◌≡◌, ◌-◌, ◌++◌, IfOk, IfErr, OnOk, codes, length, replicate, string_bytes};
ghost use Rattle.cj_base.specs.declared.refusal.Refusal.TheVariants.{OutOfMemory};
ghost use Rattle.cj_why.specs.reviews.Table.{IsTable, all_words, caption, cell, heading, line_of, lines_under, missed_cell, next_cell, row_line, row_lines, row_words, taken_words};

use crate::reviews::rows::CronRow;
use crate::reviews::verdict::Verdict;
use cj_due::Missed;
use cj_types::{Refusal, Seconds};
use cj_zone::time_text;
use std::alloc::{AllocError, Global};

/// How wide the columns are, with the blanks before the next.
#[derive(Clone, Copy, Debug)]
pub(crate) struct Widths {
    pub(crate) namespace: usize,
    pub(crate) name: usize,
    pub(crate) missed: usize,
    pub(crate) next: usize,
}

// The least number of blanks between two columns.
const GAP: usize = 3;

fn wider(width: usize, text: &str) -> usize {
    width.max(text.len().saturating_add(GAP))
}

// The columns are as wide as their longest cell.
fn widths_of(rows: &[CronRow]) -> Widths {
    let mut widths = Widths {
        namespace: wider(0, "NAMESPACE"),
        name: wider(0, "NAME"),
        missed: wider(0, "MISSED"),
        next: wider(0, "0000-00-00T00:00:00Z"),
    };
    for row in rows {
        let key = row.cron.get().cron.key.key();
        widths.namespace = wider(widths.namespace, key.namespace());
        widths.name = wider(widths.name, key.name());
    }
    widths
}

fn missed_cell(alloc: Global, missed: Missed) -> Result<String, Refusal>
    ensures ok { IfOk result (λ s. string_bytes s ≡ missed_cell missed) }
    ensures err { IfErr result (λ e. e ≡ OutOfMemory) }
{
    match missed {
        Missed::None => Ok(String::from_str(alloc, "0")?),
        Missed::Some { count, .. } => Ok(format!(in alloc; "{count}")?),
        Missed::Many { .. } => Ok(String::from_str(alloc, ">100")?),
    }
}

fn next_cell(alloc: Global, next: Option<Seconds>) -> Result<String, Refusal>
    ensures ok { IfOk result (λ s. string_bytes s ≡ next_cell next) }
    ensures err { IfErr result (λ e. e ≡ OutOfMemory) }
{
    match next {
        Some(time) => time_text(alloc, time),
        None => Ok(String::from_str(alloc, "<none>")?),
    }
}

fn push_blanks(text: &mut String, count: usize) -> Result<(), AllocError>
    ensures { OnOk result (string_bytes text.new ≡ string_bytes text.old ++ replicate count 32) }
{
    for _ in 0..count {
        text.push_str(" ")?;
    }
    Ok(())
}

fn push_cell(text: &mut String, width: usize, cell_text: &str) -> Result<(), AllocError>
    ensures { OnOk result (string_bytes text.new
        ≡ string_bytes text.old ++ cell width cell_text.now) }
{
    text.push_str(cell_text)?;
    push_blanks(text, width.saturating_sub(cell_text.len()))
}

fn line_of(
    alloc: Global,
    widths: &Widths,
    namespace: &str,
    name: &str,
    missed: &str,
    next: &str,
    why: &str,
) -> Result<String, AllocError>
    ensures { IfOk result (λ s. string_bytes s
        ≡ line_of widths.now namespace.now name.now missed.now next.now why.now) }
{
    let mut line = String::new(alloc);
    push_cell(&mut line, widths.namespace, namespace)?;
    push_cell(&mut line, widths.name, name)?;
    push_cell(&mut line, widths.missed, missed)?;
    push_cell(&mut line, widths.next, next)?;
    line.push_str(why)?;
    line.push_str("\n")?;
    Ok(line)
}

fn heading(alloc: Global, widths: &Widths) -> Result<String, AllocError>
    ensures { IfOk result (λ s. string_bytes s ≡ heading widths.now) }
{
    line_of(alloc, widths, "NAMESPACE", "NAME", "MISSED", "NEXT", "WHY")
}

fn row_line(alloc: Global, widths: &Widths, row: &CronRow) -> Result<String, Refusal>
    ensures ok { IfOk result (λ s. string_bytes s ≡ row_line widths.now row.now) }
    ensures err { IfErr result (λ e. e ≡ OutOfMemory) }
{
    let missed = missed_cell(alloc, row.missed)?;
    let next = next_cell(alloc, row.next)?;
    let key = row.cron.get().cron.key.key();
    let (missed, next) = (missed.as_str(), next.as_str());
    let (namespace, name) = (key.namespace(), key.name());
    let why = row.verdict.text();
    Ok(line_of(alloc, widths, namespace, name, missed, next, why)?)
}

fn row_lines(alloc: Global, widths: &Widths, rows: &[CronRow]) -> Result<String, Refusal>
    ensures ok { IfOk result (λ s. string_bytes s ≡ row_lines widths.now rows.now) }
    ensures err { IfErr result (λ e. e ≡ OutOfMemory) }
{
    let mut text = String::new(alloc);
    for row in rows {
        let line = row_line(alloc, widths, row)?;
        text.push_str(line.as_str())?;
    }
    Ok(text)
}

// The lines with the heading over them, where there are some.
fn lines_under(alloc: Global, widths: &Widths, rows: &[CronRow]) -> Result<String, Refusal>
    ensures ok { IfOk result (λ s. string_bytes s ≡ lines_under widths.now rows.now) }
    ensures err { IfErr result (λ e. e ≡ OutOfMemory) }
{
    if rows.is_empty() {
        return Ok(String::new(alloc));
    }
    let mut text = heading(alloc, widths)?;
    let lines = row_lines(alloc, widths, rows)?;
    text.push_str(lines.as_str())?;
    Ok(text)
}

// Where the name is taken, nothing comes of what the plan says.
fn taken_words(verdict: Verdict) -> &'static str
    ensures { result.now ≡ taken_words verdict }
{
    match verdict {
        Verdict::NameTaken => {
            "taken: the list has a Job of the name that this one would have, so it can't be made\n"
        }
        _ => "",
    }
}

fn push_words(text: &mut String, row: &CronRow) -> Result<(), AllocError>
    ensures { OnOk result (string_bytes text.new
        ≡ string_bytes text.old ++ (codes "\n"
        ++ (string_bytes row.now.words ++ taken_words row.now.verdict))) }
{
    text.push_str("\n")?;
    text.push_str(row.words.as_str())?;
    text.push_str(taken_words(row.verdict))
}

fn all_words(alloc: Global, rows: &[CronRow]) -> Result<String, Refusal>
    ensures ok { IfOk result (λ s. string_bytes s ≡ all_words rows.now) }
    ensures err { IfErr result (λ e. e ≡ OutOfMemory) }
{
    let mut text = String::new(alloc);
    for row in rows {
        push_words(&mut text, row)?;
    }
    Ok(text)
}

fn row_words(alloc: Global, explain: bool, rows: &[CronRow]) -> Result<String, Refusal>
    ensures ok { IfOk result (λ s. string_bytes s ≡ row_words explain rows.now) }
    ensures err { IfErr result (λ e. e ≡ OutOfMemory) }
{
    if explain {
        all_words(alloc, rows)
    } else {
        Ok(String::new(alloc))
    }
}

fn caption(alloc: Global, now: Seconds, shown: usize, all: usize) -> Result<String, Refusal>
    ensures ok { IfOk result (λ s. string_bytes s ≡ caption now shown all) }
    ensures err { IfErr result (λ e. e ≡ OutOfMemory) }
{
    let time = time_text(alloc, now)?;
    let time = time.as_str();
    Ok(format!(in alloc; "At {time} (all times in UTC), CronJobs shown: {shown} of {all}\n")?)
}

/// The rows below each other, under the moment and how many they are of all, and, where people ask
/// for it, why, of each.
pub fn table_text(
    alloc: Global,
    explain: bool,
    now: Seconds,
    all: usize,
    rows: &[CronRow],
) -> Result<String, Refusal>
    ensures ok { IfOk result (λ s. IsTable explain now all rows.now (string_bytes s)) }
    ensures err { IfErr result (λ e. e ≡ OutOfMemory) }
{
    let widths = widths_of(rows);
    let lines = lines_under(alloc, &widths, rows)?;
    let words = row_words(alloc, explain, rows)?;
    let mut text = caption(alloc, now, rows.len(), all)?;
    text.push_str(lines.as_str())?;
    text.push_str(words.as_str())?;
    Ok(text)
}
