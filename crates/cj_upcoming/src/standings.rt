// The lines of CronJobs that start nothing.
ghost use Rattle.std.specs.Prelude.{◌≡◌, ◌++◌, IfOk, IfErr, OnOk, string_bytes};
ghost use Rattle.cj_base.specs.declared.refusal.Refusal.TheVariants.{OutOfMemory};
ghost use Rattle.cj_zone.specs.Table.{zones_of};
ghost use Rattle.cj_upcoming.specs.Standings.{standing_line, AreStandings};

use crate::lines::key_text;
use crate::standing::{Standing, standing_of};
use cj_base::Seconds;
use cj_cluster::ClusterCron;
use cj_types::{Key, Refusal, Shared};
use cj_zone::ZoneTable;
use std::alloc::{AllocError, Global};

fn standing_line(alloc: Global, standing: Standing, key: &Key) -> Result<String, AllocError>
    ensures { IfOk result (λ s. string_bytes s ≡ standing_line standing key.now) }
{
    let key = key_text(alloc, key)?;
    let key = key.as_str();
    match standing {
        Standing::Comes => Ok(String::new(alloc)),
        Standing::Suspended => format!(in alloc; "suspended {key}\n"),
        Standing::Never => format!(in alloc; "never {key}\n"),
        Standing::Unread => format!(in alloc; "unread {key}\n"),
        Standing::Deleting => format!(in alloc; "deleting {key}\n"),
        Standing::Stuck => format!(in alloc; "stuck {key}\n"),
    }
}

fn push_standing(
    alloc: Global,
    text: &mut String,
    standing: Standing,
    key: &Key,
) -> Result<(), AllocError>
    ensures { OnOk result (string_bytes text.new
        ≡ string_bytes text.old ++ standing_line standing key.now) }
{
    let line = standing_line(alloc, standing, key)?;
    text.push_str(line.as_str())
}

/// A line for each CronJob that starts nothing from an instant on: one that is suspended, being
/// deleted or stuck, whose schedule comes at no time within 3,000 days, or that names no zone that
/// is given.
pub fn standings_text(
    alloc: Global,
    zones: &ZoneTable,
    from: Seconds,
    crons: &[Shared<ClusterCron>],
) -> Result<String, Refusal>
    ensures ok { IfOk result (λ s. AreStandings (zones_of zones.now) from crons.now
        (string_bytes s)) }
    ensures memory { IfErr result (λ e. e ≡ OutOfMemory) }
{
    let mut text = String::new(alloc);
    for cron in crons {
        let cron = cron.get();
        let standing = standing_of(zones, from, cron);
        push_standing(alloc, &mut text, standing, cron.cron.get().key.key())?;
    }
    Ok(text)
}
