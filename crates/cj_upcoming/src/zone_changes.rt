// Where the clocks of the zones that CronJobs name are put in a window.
ghost use Rattle.std.specs.Prelude.{◌≡◌, ◌++◌, ◌-◌, [], Some, IfOk, IfErr, OnOk, bytes_eq, option_copied, string_bytes};
ghost use Rattle.std.specs.List.{list_any};
ghost use Rattle.cj_base.specs.declared.refusal.Refusal.TheVariants.{OutOfMemory};
ghost use Rattle.cj_zone.specs.Table.{zones_of};
ghost use Rattle.cj_upcoming.specs.Zones.{fresh, lines_where, named, zone_lines};

use crate::changes::changes_text;
use crate::clock::spec_of;
use crate::window::Window;
use cj_base::Seconds;
use cj_cluster::ClusterCron;
use cj_types::{Refusal, Shared, Text, TryCopy};
use cj_zone::{Zone, ZoneTable};
use std::alloc::Global;

fn is_among(names: &[Text], name: &Text) -> bool
    ensures { result ≡ list_any (λ n. bytes_eq n name.now) names.now }
{
    names.iter().any(|n| n.as_str() == name.as_str())
}

// The name behind the others, where it isn't among them.
fn push_fresh(alloc: Global, names: &mut Vec<Text>, name: &Text) -> Result<(), Refusal>
    ensures ok { OnOk result (names.new.items
        ≡ names.old.items ++ fresh names.old.items (Some name.now)) }
    ensures memory { IfErr result (λ e. e ≡ OutOfMemory) }
{
    if is_among(names.as_slice(), name) {
        return Ok(());
    }
    names
        .push(name.try_copy(alloc)?)
        .map_err(|_| Refusal::OutOfMemory)
}

fn push_named(alloc: Global, names: &mut Vec<Text>, name: &Option<Text>) -> Result<(), Refusal>
    ensures ok { OnOk result (names.new.items
        ≡ names.old.items ++ fresh names.old.items name.now) }
    ensures memory { IfErr result (λ e. e ≡ OutOfMemory) }
{
    match name {
        Some(name) => push_fresh(alloc, names, name),
        None => Ok(()),
    }
}

/// The zones that the CronJobs name, each once.
pub(crate) fn named(alloc: Global, crons: &[Shared<ClusterCron>]) -> Result<Vec<Text>, Refusal>
    ensures ok { IfOk result (λ v. v.items ≡ named [] crons.now) }
    ensures memory { IfErr result (λ e. e ≡ OutOfMemory) }
{
    let mut names = Vec::new(alloc);
    for cron in crons {
        push_named(alloc, &mut names, &spec_of(cron.get()).time_zone)?;
    }
    Ok(names)
}

/// The second before its end.
pub(crate) fn last_of(window: &Window) -> Seconds
    ensures { result ≡ window.now.end - 1 }
{
    let end = window.end().get();
    match Seconds::new(end.saturating_sub(1)) {
        Some(last) => last,
        None => window.end(),
    }
}

fn lines_where(alloc: Global, zone: Option<&Zone>, window: &Window) -> Result<String, Refusal>
    ensures ok { IfOk result (λ s. string_bytes s
        ≡ lines_where (option_copied zone.entry) window.now) }
    ensures memory { IfErr result (λ e. e ≡ OutOfMemory) }
{
    match zone {
        Some(zone) => changes_text(alloc, zone, window.from(), last_of(window)),
        None => Ok(String::new(alloc)),
    }
}

fn zone_lines(
    alloc: Global,
    zones: &ZoneTable,
    window: &Window,
    names: &[Text],
) -> Result<String, Refusal>
    ensures ok { IfOk result (λ s. string_bytes s
        ≡ zone_lines (zones_of zones.now) window.now names.now) }
    ensures memory { IfErr result (λ e. e ≡ OutOfMemory) }
{
    let mut text = String::new(alloc);
    for name in names {
        let lines = lines_where(alloc, zones.get(name.as_str()), window)?;
        text.push_str(lines.as_str())?;
    }
    Ok(text)
}

/// Of each zone that a CronJob names, a line for each instant in the window, after its first, at
/// which the zone's clock is put forward or back.
pub fn zone_changes_text(
    alloc: Global,
    zones: &ZoneTable,
    window: &Window,
    crons: &[Shared<ClusterCron>],
) -> Result<String, Refusal>
    ensures ok { IfOk result (λ s. string_bytes s
        ≡ zone_lines (zones_of zones.now) window.now (named [] crons.now)) }
    ensures memory { IfErr result (λ e. e ≡ OutOfMemory) }
{
    let names = named(alloc, crons)?;
    zone_lines(alloc, zones, window, names.as_slice())
}
