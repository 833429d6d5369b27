// What starts in the day to come.
ghost use Rattle.std.specs.Prelude.{◌≡◌, IfErr};
ghost use Rattle.cj_base.specs.declared.refusal.Refusal.TheVariants.{OutOfMemory};

use crate::html::pictures::push_picture;
use crate::html::text::push_list;
use cj_cluster::ClusterCron;
use cj_picture::heat_picture;
use cj_types::{Refusal, Seconds, Shared};
use cj_upcoming::{Start, StartsFault, Window, standings_text, upcoming};
use cj_zone::ZoneTable;
use std::alloc::Global;

const DAY: u64 = 86_400;

// More starts than these aren't drawn.
const MOST_STARTS: usize = 4_000_000;

const HEAD: &str = "<section id=\"day\">
<h2>The day to come</h2>
<p>A row is an hour, in UTC, a square a minute in which something starts: the stronger its colour, the more. The number at the right is the sum of the hour.</p>
";

fn push_heat(
    alloc: Global,
    text: &mut String,
    window: &Window,
    crons: &[Shared<ClusterCron>],
    starts: &[Start],
) -> Result<(), Refusal>
    ensures err { IfErr result (λ e. e ≡ OutOfMemory) }
{
    let picture = heat_picture(alloc, window, crons, starts, "", None)?;
    Ok(push_picture(text, "Starts by minute", picture.as_str())?)
}

fn push_starts(
    alloc: Global,
    text: &mut String,
    zones: &ZoneTable,
    window: &Window,
    crons: &[Shared<ClusterCron>],
) -> Result<(), Refusal>
    ensures err { IfErr result (λ e. e ≡ OutOfMemory) }
{
    match upcoming(alloc, zones, window, crons, MOST_STARTS) {
        Ok(starts) => push_heat(alloc, text, window, crons, starts.as_slice()),
        Err(StartsFault::TooMany) => {
            Ok(text.push_str("<p>More than 4,000,000 starts: they aren't drawn.</p>\n")?)
        }
        Err(StartsFault::Memory) => Err(Refusal::OutOfMemory),
    }
}

// The CronJobs that start nothing.
fn push_idle(
    alloc: Global,
    text: &mut String,
    zones: &ZoneTable,
    from: Seconds,
    crons: &[Shared<ClusterCron>],
) -> Result<(), Refusal>
    ensures err { IfErr result (λ e. e ≡ OutOfMemory) }
{
    let lines = standings_text(alloc, zones, from, crons)?;
    if lines.is_empty() {
        return Ok(());
    }
    text.push_str("<h3>CronJobs that start nothing</h3>\n")?;
    Ok(push_list(text, lines.as_str())?)
}

/// The section of the day from then on.
pub(crate) fn push_day(
    alloc: Global,
    text: &mut String,
    zones: &ZoneTable,
    crons: &[Shared<ClusterCron>],
    now: Seconds,
) -> Result<(), Refusal>
    ensures err { IfErr result (λ e. e ≡ OutOfMemory) }
{
    text.push_str(HEAD)?;
    match Window::new(now, DAY) {
        Some(window) => push_starts(alloc, text, zones, &window, crons)?,
        None => text.push_str("<p>It ends after the year 9998.</p>\n")?,
    }
    push_idle(alloc, text, zones, now, crons)?;
    Ok(text.push_str("</section>\n")?)
}
