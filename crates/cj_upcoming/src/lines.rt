// The lines of what starts.
ghost use Rattle.std.specs.Prelude.{◌≡◌, ◌++◌, List, IfOk, IfErr, OnOk, All, codes, slice_get, string_bytes};
ghost use Rattle.cj_base.specs.declared.refusal.Refusal.TheVariants.{OutOfMemory};
ghost use Rattle.cj_upcoming.specs.declared.minute.Minute.{Minute};
ghost use Rattle.cj_upcoming.specs.Lines.{named_text, names, peak_line, peak_lines, start_line, start_lines};
ghost use Rattle.cj_upcoming.specs.Standings.{key_text};
ghost use Rattle.cj_upcoming.specs.Minutes.{minutes, IsPeaks, IsWithin};

use crate::minute::Minute;
use crate::minutes::minutes_of;
use crate::peaks::peaks;
use crate::start::Start;
use cj_cluster::ClusterCron;
use cj_types::{Key, Refusal, Shared};
use cj_zone::time_text;
use std::alloc::{AllocError, Global};

/// Namespace and name.
pub(crate) fn key_text(alloc: Global, key: &Key) -> Result<String, AllocError>
    ensures { IfOk result (λ s. string_bytes s ≡ key_text key.now) }
{
    let namespace = key.namespace();
    let name = key.name();
    format!(in alloc; "{namespace}/{name}")
}

fn push_cron(alloc: Global, text: &mut String, cron: &ClusterCron) -> Result<(), AllocError>
    ensures { OnOk result (string_bytes text.new
        ≡ string_bytes text.old ++ (codes " " ++ key_text cron.now.cron.key)) }
{
    let key = key_text(alloc, cron.cron.get().key.key())?;
    text.push_str(" ")?;
    text.push_str(key.as_str())
}

// The name of the CronJob at a place, if there is one.
fn push_name(
    alloc: Global,
    text: &mut String,
    crons: &[Shared<ClusterCron>],
    place: usize,
) -> Result<(), AllocError>
    ensures { OnOk result (string_bytes text.new
        ≡ string_bytes text.old ++ named_text (slice_get crons.now place)) }
{
    match crons.get(place) {
        Some(cron) => push_cron(alloc, text, cron.get()),
        None => Ok(()),
    }
}

fn names(
    alloc: Global,
    crons: &[Shared<ClusterCron>],
    starts: &[Start],
) -> Result<String, AllocError>
    ensures { IfOk result (λ s. string_bytes s ≡ names crons.now starts.now) }
{
    let mut text = String::new(alloc);
    for start in starts {
        push_name(alloc, &mut text, crons, start.cron)?;
    }
    Ok(text)
}

fn start_line(
    alloc: Global,
    crons: &[Shared<ClusterCron>],
    starts: &[Start],
    minute: &Minute,
) -> Result<String, Refusal>
    requires { IsWithin starts.now minute.now }
    ensures ok { IfOk result (λ s. string_bytes s ≡ start_line crons.now starts.now minute.now) }
    ensures memory { IfErr result (λ e. e ≡ OutOfMemory) }
{
    let time = time_text(alloc, minute.time)?;
    let names = names(
        alloc,
        crons,
        &starts[minute.first..minute.first + minute.count],
    )?;
    let (time, names) = (time.as_str(), names.as_str());
    Ok(format!(in alloc; "start {time}{names}\n")?)
}

fn peak_line(
    alloc: Global,
    crons: &[Shared<ClusterCron>],
    starts: &[Start],
    minute: &Minute,
) -> Result<String, Refusal>
    requires { IsWithin starts.now minute.now }
    ensures ok { IfOk result (λ s. string_bytes s ≡ peak_line crons.now starts.now minute.now) }
    ensures memory { IfErr result (λ e. e ≡ OutOfMemory) }
{
    let time = time_text(alloc, minute.time)?;
    let names = names(
        alloc,
        crons,
        &starts[minute.first..minute.first + minute.count],
    )?;
    let (time, names) = (time.as_str(), names.as_str());
    let count = minute.count;
    Ok(format!(in alloc; "peak {time} {count}{names}\n")?)
}

fn start_lines(
    alloc: Global,
    crons: &[Shared<ClusterCron>],
    starts: &[Start],
    minutes: &[Minute],
) -> Result<String, Refusal>
    requires { All (IsWithin starts.now) minutes.now }
    ensures ok { IfOk result (λ s. string_bytes s
        ≡ start_lines crons.now starts.now minutes.now) }
    ensures memory { IfErr result (λ e. e ≡ OutOfMemory) }
{
    let mut text = String::new(alloc);
    for minute in minutes {
        let line = start_line(alloc, crons, starts, minute)?;
        text.push_str(line.as_str())?;
    }
    Ok(text)
}

fn peak_lines(
    alloc: Global,
    crons: &[Shared<ClusterCron>],
    starts: &[Start],
    minutes: &[Minute],
) -> Result<String, Refusal>
    requires { All (IsWithin starts.now) minutes.now }
    ensures ok { IfOk result (λ s. string_bytes s
        ≡ peak_lines crons.now starts.now minutes.now) }
    ensures memory { IfErr result (λ e. e ≡ OutOfMemory) }
{
    let mut text = String::new(alloc);
    for minute in minutes {
        let line = peak_line(alloc, crons, starts, minute)?;
        text.push_str(line.as_str())?;
    }
    Ok(text)
}

/// A line for each minute in which something starts, in their order: its time, and the CronJobs
/// that start then.
pub(crate) fn starts_text(
    alloc: Global,
    crons: &[Shared<ClusterCron>],
    starts: &[Start],
) -> Result<String, Refusal>
    ensures ok { IfOk result (λ s. string_bytes s
        ≡ start_lines crons.now starts.now (minutes starts.now)) }
    ensures memory { IfErr result (λ e. e ≡ OutOfMemory) }
{
    let minutes = minutes_of(alloc, starts)?;
    start_lines(alloc, crons, starts, minutes.as_slice())
}

/// A line for each of the fullest minutes, at most `most`, the fullest first: its time, how much
/// starts then, and the CronJobs. Of two that are as full the earlier comes first.
pub(crate) fn peaks_text(
    alloc: Global,
    crons: &[Shared<ClusterCron>],
    starts: &[Start],
    most: usize,
) -> Result<String, Refusal>
    ensures ok { IfOk result (λ s. (peaks : List Minute)
        × IsPeaks most (minutes starts.now) peaks
        × (string_bytes s ≡ peak_lines crons.now starts.now peaks)) }
    ensures memory { IfErr result (λ e. e ≡ OutOfMemory) }
{
    let peaks = peaks(alloc, starts, most)?;
    peak_lines(alloc, crons, starts, peaks.as_slice())
}
