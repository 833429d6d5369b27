// CronJobs that start nothing, as JSON.
ghost use Rattle.std.specs.Prelude.{◌≡◌, ◌++◌, ◌∷◌, [], IfOk, IfErr, OnOk, map};
ghost use Rattle.cj_base.specs.declared.refusal.Refusal.TheVariants.{OutOfMemory};
ghost use Rattle.serde_json.specs.View.{view};
ghost use Rattle.cj_zone.specs.Table.{zones_of};
ghost use Rattle.cj_upcoming.specs.json.Standings.{AreStandingData, idle_data, standing_data};

use crate::standing::{Standing, standing_of};
use cj_base::Seconds;
use cj_cluster::ClusterCron;
use cj_json::push_value;
use cj_types::{Key, Refusal, Shared};
use cj_zone::ZoneTable;
use serde_json::{Value, json};
use std::alloc::{AllocError, Global};

fn idle_value(alloc: Global, word: &str, key: &Key) -> Result<Value, AllocError>
    ensures { IfOk result (λ v. view v ≡ idle_data word.now key.now) }
{
    json!(in alloc; {"name": key.name(), "namespace": key.namespace(), "standing": word})
}

fn push_idle(alloc: Global, values: &mut Vec<Value>, word: &str, key: &Key) -> Result<(), Refusal>
    ensures ok { OnOk result (map view values.new.items
        ≡ map view values.old.items ++ (idle_data word.now key.now ∷ [])) }
    ensures err { IfErr result (λ e. e ≡ OutOfMemory) }
{
    let value = idle_value(alloc, word, key)?;
    push_value(values, value)
}

fn push_standing(
    alloc: Global,
    values: &mut Vec<Value>,
    standing: Standing,
    key: &Key,
) -> Result<(), Refusal>
    ensures ok { OnOk result (map view values.new.items
        ≡ map view values.old.items ++ standing_data standing key.now) }
    ensures err { IfErr result (λ e. e ≡ OutOfMemory) }
{
    match standing {
        Standing::Comes => Ok(()),
        Standing::Suspended => push_idle(alloc, values, "suspended", key),
        Standing::Never => push_idle(alloc, values, "never", key),
        Standing::Unread => push_idle(alloc, values, "unread", key),
        Standing::Deleting => push_idle(alloc, values, "deleting", key),
        Standing::Stuck => push_idle(alloc, values, "stuck", key),
    }
}

/// Each CronJob that starts nothing from an instant on, and why: one that is suspended, being
/// deleted or stuck, whose schedule comes at no time within 3,000 days, or that names no zone that
/// is given.
pub fn standing_values(
    alloc: Global,
    zones: &ZoneTable,
    from: Seconds,
    crons: &[Shared<ClusterCron>],
) -> Result<Vec<Value>, Refusal>
    ensures ok { IfOk result (λ v. AreStandingData (zones_of zones.now) from crons.now
        (map view v.items)) }
    ensures memory { IfErr result (λ e. e ≡ OutOfMemory) }
{
    let mut values = Vec::new(alloc);
    for cron in crons {
        let cron = cron.get();
        let standing = standing_of(zones, from, cron);
        push_standing(alloc, &mut values, standing, cron.cron.get().key.key())?;
    }
    Ok(values)
}
