// A bar for each Job that a worker made.
ghost use Rattle.std.specs.Prelude.{◌≡◌, ◌++◌, List, [], ◌∷◌, IfOk, IfErr, OnOk, map, option_copied};
ghost use Rattle.cj_base.specs.declared.refusal.Refusal.TheVariants.{OutOfMemory};
ghost use Rattle.cj_calls.specs.Rows.{Told};
ghost use Rattle.cj_report.specs.timeline.Known.{IsRead};
ghost use Rattle.cj_report.specs.timeline.Bars as said;

use crate::timeline::bar::{Bar, BarEnd};
use crate::timeline::reading::Reading;
use crate::timeline::running::{ended_by, how_by};
use cj_calls::Entry;
use cj_table::Table;
use cj_types::{Job, Key, Refusal, Shared, TryCopy};
use std::alloc::Global;

fn push_bar(bars: &mut Vec<Bar>, bar: Bar) -> Result<(), Refusal>
    ensures ok { OnOk result (bars.new.items ≡ bars.old.items ++ bar ∷ []) }
    ensures err { IfErr result (λ e. e ≡ OutOfMemory) }
{
    bars.push(bar).map_err(|_| Refusal::OutOfMemory)
}

// The bar of the Job with the key, if it ran.
fn push_closed(
    alloc: Global,
    bars: &mut Vec<Bar>,
    running: &Table<Shared<Job>>,
    key: Option<&Key>,
    end: BarEnd,
) -> Result<(), Refusal>
    ensures ok { OnOk result (bars.new.items
        ≡ bars.old.items ++ said.closed running.now (option_copied key.entry) end) }
    ensures err { IfErr result (λ e. e ≡ OutOfMemory) }
{
    let Some(key) = key else {
        return Ok(());
    };
    let Some(job) = running.get(key) else {
        return Ok(());
    };
    let job = job.try_copy(alloc)?;
    let end = Some(end);
    push_bar(bars, Bar { job, end })
}

// The bar that ends with the entry, if there is one.
fn push_ended(
    alloc: Global,
    bars: &mut Vec<Bar>,
    reading: &Reading,
    entry: &Entry,
    after: &[Entry],
) -> Result<(), Refusal>
    ensures ok { OnOk result ((h : List Told) → IsRead reading.now h →
        bars.new.items ≡ bars.old.items ++ said.bars_at h entry.now after.now) }
    ensures err { IfErr result (λ e. e ≡ OutOfMemory) }
{
    let key = ended_by(entry.call(), entry.answer());
    let how = how_by(entry.call());
    let at = reading.moment(entry, after);
    push_closed(alloc, bars, reading.running(), key, BarEnd { how, at })
}

// The bars of the Jobs that still run.
fn push_open(bars: &mut Vec<Bar>, jobs: Vec<Shared<Job>>) -> Result<(), Refusal>
    ensures ok { OnOk result (bars.new.items ≡ bars.old.items ++ map said.open_bar jobs.items) }
    ensures err { IfErr result (λ e. e ≡ OutOfMemory) }
{
    for job in jobs {
        push_bar(bars, Bar { job, end: None })?;
    }
    Ok(())
}

/// A bar for each Job that a worker made: first those that ended, in the order of their ends, then
/// those that still run, by key. The entries come with the oldest first. Takes memory in proportion
/// to the Jobs.
///
/// # Errors
///
/// `OutOfMemory`.
pub fn bars_of(alloc: Global, entries: &[Entry]) -> Result<Vec<Bar>, Refusal>
    ensures ok { IfOk result (λ bs. bs.items ≡ said.bars entries.now) }
    ensures err { IfErr result (λ e. e ≡ OutOfMemory) }
{
    let mut reading = Reading::new(alloc);
    let mut bars = Vec::new(alloc);
    for (i, entry) in entries.iter().enumerate() {
        push_ended(alloc, &mut bars, &reading, entry, &entries[i + 1..])?;
        reading.note(alloc, entry)?;
    }
    let jobs = reading.running().list(alloc)?;
    push_open(&mut bars, jobs)?;
    Ok(bars)
}
