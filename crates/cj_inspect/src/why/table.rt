// What `why` prints in a table, for people.
ghost use Rattle.std.specs.Prelude.{◌≡◌, ◌==◌, ◌||◌, not, IfOk, Some, codes, length};
ghost use Rattle.std.specs.FinMap as map;
ghost use Rattle.cj_zone.specs.Table.{local_zone, zones_of};
ghost use Rattle.cj_zone.specs.Zones.{utc_zone};
ghost use Rattle.cj_answers.specs.Clusters as told;
ghost use Rattle.cj_answers.specs.Outcome.{explained, outcome_of};
ghost use Rattle.cj_inspect.specs.Why.{PrintsTable, is_full, is_nothing, meant_of, reviewed as outcome_reviewed};

use cj_answers::{Answer, ending_by, is_read, note_lines, note_words};
use cj_args::WhyRequest;
use cj_cluster::{ClusterCron, ClusterList, ItemNote};
use cj_io::Failure;
use cj_types::{Seconds, Shared};
use cj_why::{CronRow, cron_rows, table_text};
use cj_zone::ZoneTable;
use std::alloc::{AllocError, Global};

/// Whether the reasons are given in full: `--explain` asks for it, or one CronJob is named.
pub(crate) fn is_full(why: &WhyRequest<'_>) -> bool
    ensures { result ≡ is_full why.now }
{
    why.explain || why.crons.as_slice().len() == 1
}

// Whether none of these needs attention, where only such are printed.
fn is_fine(problems: bool, rows: &[CronRow]) -> bool
    ensures { result ≡ (not problems || is_nothing rows.now) }
{
    !problems || rows.is_empty()
}

// The items that can't be used, then the table.
fn tabled(
    alloc: Global,
    explain: bool,
    fine: bool,
    notes: &[ItemNote],
    table: &str,
) -> Result<Answer, AllocError>
    ensures { IfOk result (λ a. outcome_of a ≡ explained explain (told.note_words notes.now)
        (outcome_reviewed fine notes.now table.now)) }
{
    let said = note_words(alloc, notes)?;
    let mut printed = note_lines(alloc, notes)?;
    printed.push_str(table)?;
    let answer = Answer {
        ending: ending_by(is_read(notes) && fine),
        printed,
        said: String::new(alloc),
    };
    answer.explained(explain, said.as_str())
}

/// What is printed of them in a table.
pub(crate) fn table_reviewed(
    alloc: Global,
    why: &WhyRequest<'_>,
    zones: &ZoneTable,
    list: &ClusterList,
    all: usize,
    crons: &[Shared<ClusterCron>],
    now: Seconds,
) -> Result<Answer, Failure>
    requires local { local_zone zones.now ≡ Some (utc_zone (codes "UTC")) }
    requires meant { crons.now ≡ meant_of why.now list.now }
    requires all { all ≡ length (map.values list.now.cluster.crons) }
    ensures { IfOk result (λ a. PrintsTable why.now (zones_of zones.now) now list.now
        (outcome_of a)) }
{
    let full = is_full(why);
    let rows = cron_rows(alloc, why.problems, full, zones, &list.cluster, crons, now)?;
    let table = table_text(alloc, full, now, all, rows.as_slice())?;
    let fine = is_fine(why.problems, rows.as_slice());
    let notes = list.notes.as_slice();
    Ok(tabled(alloc, why.explain, fine, notes, table.as_str())?)
}
