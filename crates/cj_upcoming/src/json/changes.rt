// Where clocks are put, as JSON.
ghost use Rattle.std.specs.Prelude.{◌≡◌, ◌++◌, [], IfOk, IfErr, OnOk, map, option_copied};
ghost use Rattle.cj_base.specs.declared.refusal.Refusal.TheVariants.{OutOfMemory};
ghost use Rattle.serde_json.specs.View.{view};
ghost use Rattle.cj_zone.specs.Table.{zones_of};
ghost use Rattle.cj_upcoming.specs.Changes.{changes};
ghost use Rattle.cj_upcoming.specs.Zones.{named};
ghost use Rattle.cj_upcoming.specs.json.Changes.{change_data, change_object, changes_data, changes_where, zone_changes, zone_changes_data};

use crate::changes::{change_word, changes, offset, second_before};
use crate::clocks::civil_text;
use crate::window::Window;
use crate::zone_changes::{last_of, named};
use cj_base::Seconds;
use cj_cluster::ClusterCron;
use cj_json::{push_value, time_value};
use cj_types::{Refusal, Shared, Text};
use cj_zone::{Zone, ZoneTable, local};
use serde_json::{Value, json};
use std::alloc::{AllocError, Global};

fn change_object(
    alloc: Global,
    word: &str,
    zone: &str,
    from: Value,
    to: Value,
    time: Value,
) -> Result<Value, AllocError>
    ensures { IfOk result (λ v. view v
        ≡ change_object word.now zone.now (view from) (view to) (view time)) }
{
    json!(in alloc; {
        "change": word,
        "from": from,
        "time": time,
        "timeZone": zone,
        "to": to
    })
}

fn change_value(alloc: Global, zone: &Zone, at: Seconds) -> Result<Value, Refusal>
    ensures ok { IfOk result (λ v. view v ≡ change_data zone.now at) }
    ensures err { IfErr result (λ e. e ≡ OutOfMemory) }
{
    let before = second_before(at);
    let word = change_word(offset(zone, before), offset(zone, at));
    let from = Value::String(civil_text(alloc, local(zone, before))?);
    let to = Value::String(civil_text(alloc, local(zone, at))?);
    let time = time_value(alloc, at)?;
    Ok(change_object(alloc, word, zone.name(), from, to, time)?)
}

// The values of changes behind those before them.
fn push_each(
    alloc: Global,
    values: &mut Vec<Value>,
    zone: &Zone,
    changes: &[Seconds],
) -> Result<(), Refusal>
    ensures ok { OnOk result (map view values.new.items
        ≡ map view values.old.items ++ changes_data zone.now changes.now) }
    ensures err { IfErr result (λ e. e ≡ OutOfMemory) }
{
    for at in changes {
        let value = change_value(alloc, zone, *at)?;
        push_value(values, value)?;
    }
    Ok(())
}

/// The changes at the instants after one and up to another at which the zone's clock is put.
pub(crate) fn push_changes(
    alloc: Global,
    values: &mut Vec<Value>,
    zone: &Zone,
    after: Seconds,
    last: Seconds,
) -> Result<(), Refusal>
    ensures ok { OnOk result (map view values.new.items
        ≡ map view values.old.items ++ changes_data zone.now (changes zone.now after last)) }
    ensures err { IfErr result (λ e. e ≡ OutOfMemory) }
{
    let changes = changes(alloc, zone, after, last)?;
    push_each(alloc, values, zone, changes.as_slice())
}

fn push_where(
    alloc: Global,
    values: &mut Vec<Value>,
    zone: Option<&Zone>,
    window: &Window,
) -> Result<(), Refusal>
    ensures ok { OnOk result (map view values.new.items
        ≡ map view values.old.items ++ changes_where (option_copied zone.entry) window.now) }
    ensures err { IfErr result (λ e. e ≡ OutOfMemory) }
{
    match zone {
        Some(zone) => push_changes(alloc, values, zone, window.from(), last_of(window)),
        None => Ok(()),
    }
}

fn zone_values(
    alloc: Global,
    zones: &ZoneTable,
    window: &Window,
    names: &[Text],
) -> Result<Vec<Value>, Refusal>
    ensures ok { IfOk result (λ v. map view v.items
        ≡ zone_changes (zones_of zones.now) window.now names.now) }
    ensures err { IfErr result (λ e. e ≡ OutOfMemory) }
{
    let mut values = Vec::new(alloc);
    for name in names {
        push_where(alloc, &mut values, zones.get(name.as_str()), window)?;
    }
    Ok(values)
}

/// Of each zone that a CronJob names, each instant in the window, after its first, at which the
/// zone's clock is put forward or back.
pub fn zone_changes_value(
    alloc: Global,
    zones: &ZoneTable,
    window: &Window,
    crons: &[Shared<ClusterCron>],
) -> Result<Value, Refusal>
    ensures ok { IfOk result (λ v. view v
        ≡ zone_changes_data (zones_of zones.now) window.now (named [] crons.now)) }
    ensures memory { IfErr result (λ e. e ≡ OutOfMemory) }
{
    let names = named(alloc, crons)?;
    Ok(Value::Array(zone_values(alloc, zones, window, names.as_slice())?))
}
