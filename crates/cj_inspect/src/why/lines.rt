// What `why` prints in lines, for programs.
ghost use Rattle.std.specs.Prelude.{◌≡◌, ◌++◌, ◌||◌, not, IfOk, Some, codes, string_bytes};
ghost use Rattle.cj_zone.specs.Table.{local_zone, zones_of};
ghost use Rattle.cj_zone.specs.Zones.{utc_zone};
ghost use Rattle.cj_why.specs.reviews.Rows.{AreLined};
ghost use Rattle.cj_answers.specs.Clusters as told;
ghost use Rattle.cj_answers.specs.Outcome.{explained, outcome_of};
ghost use Rattle.cj_inspect.specs.Why.{PrintsReview, is_nothing, meant_of, reviewed as outcome_reviewed};

use cj_answers::{Answer, ending_by, is_read, note_lines, note_words};
use cj_args::WhyRequest;
use cj_cluster::{ClusterCron, ClusterList, ItemNote};
use cj_io::Failure;
use cj_types::{Seconds, Shared};
use cj_why::{Reviewed, problems, review};
use cj_zone::ZoneTable;
use std::alloc::{AllocError, Global};

// Whether none of these needs attention, where only such are printed.
pub(crate) fn is_fine(problems: bool, lined: &[Shared<ClusterCron>]) -> bool
    ensures { result ≡ (not problems || is_nothing lined.now) }
{
    !problems || lined.is_empty()
}

// The items that can't be used, and what is printed and said of the CronJobs.
fn printed(
    alloc: Global,
    explain: bool,
    fine: bool,
    notes: &[ItemNote],
    reviewed: &Reviewed,
) -> Result<Answer, AllocError>
    ensures { IfOk result (λ a. outcome_of a ≡ explained explain
        (told.note_words notes.now ++ string_bytes reviewed.now.said)
        (outcome_reviewed fine notes.now (string_bytes reviewed.now.printed))) }
{
    let mut said = note_words(alloc, notes)?;
    said.push_str(reviewed.said.as_str())?;
    let mut printed = note_lines(alloc, notes)?;
    printed.push_str(reviewed.printed.as_str())?;
    let answer = Answer {
        ending: ending_by(is_read(notes) && fine),
        printed,
        said: String::new(alloc),
    };
    answer.explained(explain, said.as_str())
}

// What is printed of these in lines.
fn all_lined(
    alloc: Global,
    why: &WhyRequest<'_>,
    zones: &ZoneTable,
    list: &ClusterList,
    lined: &[Shared<ClusterCron>],
    now: Seconds,
) -> Result<Answer, Failure>
    requires local { local_zone zones.now ≡ Some (utc_zone (codes "UTC")) }
    requires are { AreLined why.now.problems (zones_of zones.now) list.now.cluster now
        (meant_of why.now list.now) lined.now }
    ensures { IfOk result (λ a. PrintsReview why.now (zones_of zones.now) now list.now
        (outcome_of a)) }
{
    let reviewed = review(alloc, why.explain, zones, &list.cluster, lined, now)?;
    let fine = is_fine(why.problems, lined);
    let notes = list.notes.as_slice();
    Ok(printed(alloc, why.explain, fine, notes, &reviewed)?)
}

/// What is printed of them in lines, of all or of those that need attention.
pub(crate) fn lines_reviewed(
    alloc: Global,
    why: &WhyRequest<'_>,
    zones: &ZoneTable,
    list: &ClusterList,
    crons: &[Shared<ClusterCron>],
    now: Seconds,
) -> Result<Answer, Failure>
    requires local { local_zone zones.now ≡ Some (utc_zone (codes "UTC")) }
    requires meant { crons.now ≡ meant_of why.now list.now }
    ensures { IfOk result (λ a. PrintsReview why.now (zones_of zones.now) now list.now
        (outcome_of a)) }
{
    if why.problems {
        let lined = problems(alloc, zones, &list.cluster, crons, now)?;
        all_lined(alloc, why, zones, list, lined.as_slice(), now)
    } else {
        all_lined(alloc, why, zones, list, crons, now)
    }
}
