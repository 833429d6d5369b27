// The CronJobs whose schedules name the same local time on the clock of one zone.
ghost use Rattle.std.specs.Prelude.{◌≡◌, IfErr};
ghost use Rattle.cj_base.specs.declared.refusal.Refusal.TheVariants.{OutOfMemory};

use cj_types::{Key, Refusal, TryCopy};
use std::alloc::Global;
use std::cmp::Ordering;

/// A local time that a clock skips, or shows twice, and the CronJobs whose schedules name it.
#[derive(Drop)]
pub(crate) struct Night {
    /// The zone of the clock.
    pub zone: String,
    /// What is said of a CronJob alone, with no end of a line.
    pub line: String,
    /// When the clock is put.
    pub time: String,
    /// The CronJobs.
    pub crons: Vec<Key>,
}

/// What a line says.
#[derive(Clone, Copy)]
pub(crate) struct Parts<'a> {
    /// The local time that the schedule names.
    pub named: &'a str,
    /// What becomes of it: `is skipped` or `comes twice`.
    pub fate: &'a str,
    /// From where to where the clock goes.
    pub from: &'a str,
    pub to: &'a str,
    /// When it is put.
    pub time: &'a str,
}

/// What a line says that has the form of those of `cj_upcoming`.
pub(crate) fn parts_of(line: &str) -> Option<Parts<'_>> {
    let (named, rest) = line.split_once(", which the schedule names, ")?;
    let (fate, rest) = rest.split_once(": the clock goes from ")?;
    let (from, rest) = rest.split_once(" to ")?;
    let (to, time) = rest.split_once(" at ")?;
    Some(Parts {
        named,
        fate,
        from,
        to,
        time,
    })
}

fn is_same(night: &Night, zone: &str, line: &str) -> bool {
    night.line.as_str() == line && night.zone.as_str() == zone
}

// The place of the one of which the line is, if there is one.
fn place_of(nights: &[Night], zone: &str, line: &str) -> Option<usize> {
    for (i, night) in nights.iter().enumerate() {
        if is_same(night, zone, line) {
            return Some(i);
        }
    }
    None
}

fn is_after(night: &Night, time: &str) -> bool {
    night.time.as_str().cmp(time) == Ordering::Greater
}

// Where one of that time belongs: behind those that aren't later.
fn place_for(nights: &[Night], time: &str) -> usize {
    for (i, night) in nights.iter().enumerate() {
        if is_after(night, time) {
            return i;
        }
    }
    nights.len()
}

// Adds a CronJob to one.
fn push_key(night: &mut Night, key: Key) -> Result<(), Refusal>
    ensures { IfErr result (λ e. e ≡ OutOfMemory) }
{
    night.crons.push(key).map_err(|_| Refusal::OutOfMemory)
}

// One with no CronJob yet.
fn new_night(alloc: Global, zone: &str, line: &str, time: &str) -> Result<Night, Refusal>
    ensures { IfErr result (λ e. e ≡ OutOfMemory) }
{
    Ok(Night {
        zone: String::from_str(alloc, zone)?,
        line: String::from_str(alloc, line)?,
        time: String::from_str(alloc, time)?,
        crons: Vec::new(alloc),
    })
}

// Adds one that isn't there yet.
fn insert_night(
    alloc: Global,
    nights: &mut Vec<Night>,
    key: Key,
    zone: &str,
    line: &str,
) -> Result<(), Refusal>
    ensures { IfErr result (λ e. e ≡ OutOfMemory) }
{
    let time = match parts_of(line) {
        Some(parts) => parts.time,
        None => "",
    };
    let mut night = new_night(alloc, zone, line, time)?;
    push_key(&mut night, key)?;
    let place = place_for(nights.as_slice(), time).min(nights.len());
    nights
        .insert(place, night)
        .map_err(|_| Refusal::OutOfMemory)
}

// Adds a line of a CronJob.
fn add_line(
    alloc: Global,
    nights: &mut Vec<Night>,
    key: &Key,
    zone: &str,
    line: &str,
) -> Result<(), Refusal>
    ensures { IfErr result (λ e. e ≡ OutOfMemory) }
{
    let key = key.try_copy(alloc)?;
    if let Some(place) = place_of(nights.as_slice(), zone, line) {
        if let Some(night) = nights.as_mut_slice().get_mut(place) {
            return push_key(night, key);
        }
    }
    insert_night(alloc, nights, key, zone, line)
}

/// Adds the lines of a CronJob, in the order of time.
pub(crate) fn add_lines(
    alloc: Global,
    nights: &mut Vec<Night>,
    key: &Key,
    zone: &str,
    lines: &str,
) -> Result<(), Refusal>
    ensures { IfErr result (λ e. e ≡ OutOfMemory) }
{
    for line in lines.lines() {
        add_line(alloc, nights, key, zone, line)?;
    }
    Ok(())
}
