// Where a zone's clock is put forward or back.
ghost use Rattle.std.specs.Prelude.{◌≡◌, ◌≤◌, ◌++◌, ◌∷◌, [], ℕ, IfOk, IfErr, OnOk, cond, codes, int_lt, if◌then◌else◌, ◌+◌, ◌-◌, string_bytes};
ghost use Rattle.cj_base.specs.Instant.{last_second};
ghost use Rattle.cj_base.specs.declared.refusal.Refusal.TheVariants.{OutOfMemory};
ghost use Rattle.cj_zone.specs.Offset.{zone_offset};
ghost use Rattle.cj_upcoming.specs.Changes.{change_line, change_lines, changes, is_change};

use crate::clocks::civil_text;
use cj_base::{Refusal, Seconds};
use cj_zone::{Zone, interval_at, local, steady_from, time_text};
use std::alloc::{AllocError, Global};

/// The instant of a number of seconds since 1970.
pub(crate) fn instant(count: u64) -> Seconds
    requires { count ≤ last_second }
    ensures { result ≡ count }
{
    match Seconds::new(count) {
        Some(instant) => instant,
        None => unreachable!(),
    }
}

/// How far the zone's clock is ahead of UTC, in seconds.
pub(crate) fn offset(zone: &Zone, at: Seconds) -> i64
    ensures { result ≡ zone_offset zone.now at }
{
    steady_from(zone, at).one
}

// Up to when, from an instant on, the clock surely stays as far ahead as it is then.
fn same_until(zone: &Zone, at: Seconds) -> u64
    ensures low { at ≤ result }
    ensures same { (t : ℕ) → at ≤ t → t ≤ result →
        zone_offset zone.now t ≡ zone_offset zone.now at }
{
    let interval = interval_at(zone, at);
    if interval.one == interval.other {
        interval.last
    } else {
        steady_from(zone, at).last
    }
}

// Whether the clock is put at the second that comes next.
fn is_change(zone: &Zone, before: u64, at: u64) -> bool
    requires next { at ≡ before + 1 }
    requires in_range { at ≤ last_second }
    ensures { result ≡ is_change zone.now at }
{
    offset(zone, instant(at)) != offset(zone, instant(before))
}

fn push_if(changes: &mut Vec<Seconds>, is_change: bool, at: u64) -> Result<(), AllocError>
    requires { at ≤ last_second }
    ensures { OnOk result (changes.new.items
        ≡ changes.old.items ++ cond is_change (at ∷ []) []) }
{
    if is_change {
        changes.push(instant(at)).map_err(AllocError::from)?;
    }
    Ok(())
}

/// The instants after one and up to another at which the zone's clock is put forward or back.
pub(crate) fn changes(
    alloc: Global,
    zone: &Zone,
    after: Seconds,
    last: Seconds,
) -> Result<Vec<Seconds>, AllocError>
    ensures { IfOk result (λ v. v.items ≡ changes zone.now after last) }
{
    let mut changes = Vec::new(alloc);
    let mut at = after.get();
    let last = last.get();
    while at < last {
        let same = same_until(zone, instant(at));
        if same >= last {
            return Ok(changes);
        }
        push_if(&mut changes, is_change(zone, same, same + 1), same + 1)?;
        at = same + 1;
    }
    Ok(changes)
}

/// Whether it skips local times or shows some twice.
pub(crate) fn change_word(before: i64, after: i64) -> &'static str
    ensures { result.now ≡ (if int_lt before after then codes "skips" else codes "repeats") }
{
    if before < after { "skips" } else { "repeats" }
}

/// The second before.
pub(crate) fn second_before(at: Seconds) -> Seconds
    ensures { result ≡ at - 1 }
{
    instant(at.get().saturating_sub(1))
}

fn change_line(alloc: Global, zone: &Zone, at: Seconds) -> Result<String, Refusal>
    ensures ok { IfOk result (λ s. string_bytes s ≡ change_line zone.now at) }
    ensures memory { IfErr result (λ e. e ≡ OutOfMemory) }
{
    let before = second_before(at);
    let word = change_word(offset(zone, before), offset(zone, at));
    let name = zone.name();
    let from = civil_text(alloc, local(zone, before))?;
    let to = civil_text(alloc, local(zone, at))?;
    let time = time_text(alloc, at)?;
    let (from, to, time) = (from.as_str(), to.as_str(), time.as_str());
    Ok(format!(in alloc; "{word} {name} {from} {to} {time}\n")?)
}

fn change_lines(alloc: Global, zone: &Zone, changes: &[Seconds]) -> Result<String, Refusal>
    ensures ok { IfOk result (λ s. string_bytes s ≡ change_lines zone.now changes.now) }
    ensures memory { IfErr result (λ e. e ≡ OutOfMemory) }
{
    let mut text = String::new(alloc);
    for at in changes {
        let line = change_line(alloc, zone, *at)?;
        text.push_str(line.as_str())?;
    }
    Ok(text)
}

/// A line for each instant after one and up to another at which the zone's clock is put forward,
/// and so skips local times, or back, and so shows some twice: what it shows a second before and
/// then, and when that is.
pub(crate) fn changes_text(
    alloc: Global,
    zone: &Zone,
    after: Seconds,
    last: Seconds,
) -> Result<String, Refusal>
    ensures ok { IfOk result (λ s. string_bytes s
        ≡ change_lines zone.now (changes zone.now after last)) }
    ensures memory { IfErr result (λ e. e ≡ OutOfMemory) }
{
    let changes = changes(alloc, zone, after, last)?;
    change_lines(alloc, zone, changes.as_slice())
}
