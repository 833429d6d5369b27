// The table of the CronJobs.
ghost use Rattle.std.specs.Prelude.{◌≡◌, IfErr, Some, codes};
ghost use Rattle.cj_base.specs.declared.refusal.Refusal.TheVariants.{OutOfMemory};
ghost use Rattle.cj_zone.specs.Table.{local_zone, zones_of};
ghost use Rattle.cj_zone.specs.Zones.{utc_zone};

use crate::html::rows::push_row;
use crate::html::seen::SeenCron;
use cj_types::Refusal;
use cj_zone::ZoneTable;
use std::alloc::Global;

const HEAD: &str =
    "<div class=\"wide\" tabindex=\"0\" role=\"region\" aria-label=\"Table of the CronJobs\">
<table class=\"sorted\">
<caption>Each CronJob at that moment. Missed counts the due times that got no Job since the last one; Why says what the next sync does, with the reasons behind it, and which of its Jobs in the files failed.</caption>
<thead>
<tr><th scope=\"col\">CronJob</th><th scope=\"col\">Schedule</th><th scope=\"col\">Zone</th><th scope=\"col\">Policy</th><th scope=\"col\">Last (UTC)</th><th scope=\"col\">Next (UTC)</th><th scope=\"col\">Next by its clock</th><th scope=\"col\">Missed</th><th scope=\"col\">Why</th></tr>
</thead>
<tbody>
";

fn push_rows(
    alloc: Global,
    text: &mut String,
    zones: &ZoneTable,
    seen: &[SeenCron],
) -> Result<(), Refusal>
    requires { local_zone zones.now ≡ Some (utc_zone (codes "UTC")) }
    ensures err { IfErr result (λ e. e ≡ OutOfMemory) }
{
    for cron in seen {
        push_row(alloc, text, zones, cron)?;
    }
    Ok(())
}

// The table, where it has rows.
fn push_table(
    alloc: Global,
    text: &mut String,
    zones: &ZoneTable,
    seen: &[SeenCron],
) -> Result<(), Refusal>
    requires { local_zone zones.now ≡ Some (utc_zone (codes "UTC")) }
    ensures err { IfErr result (λ e. e ≡ OutOfMemory) }
{
    if seen.is_empty() {
        return Ok(text.push_str("<p>There are none.</p>\n")?);
    }
    text.push_str(HEAD)?;
    push_rows(alloc, text, zones, seen)?;
    Ok(text.push_str("</tbody>\n</table>\n</div>\n")?)
}

/// The section of the CronJobs.
pub(crate) fn push_crons(
    alloc: Global,
    text: &mut String,
    zones: &ZoneTable,
    seen: &[SeenCron],
) -> Result<(), Refusal>
    requires { local_zone zones.now ≡ Some (utc_zone (codes "UTC")) }
    ensures err { IfErr result (λ e. e ≡ OutOfMemory) }
{
    text.push_str("<section id=\"cronjobs\">\n<h2>CronJobs</h2>\n")?;
    push_table(alloc, text, zones, seen)?;
    Ok(text.push_str("</section>\n")?)
}
