// In a word, why a CronJob starts a Job at a moment, or why not.
ghost use Rattle.std.specs.Prelude.{◌≡◌};
ghost use Rattle.std.specs.List.{list_any};
ghost use Rattle.cj_why.specs.reviews.Verdict.{by_claim, by_deadline, by_marks, by_suspension, by_zone, is_behind, is_overdue, is_problem, is_skipped, is_some_missed, is_taken, resting, starting, verdict_of, verdict_text};

use crate::reviews::lacking::is_sure;
use crate::running::lacks_any;
use crate::start::is_never;
use cj_cluster::{Cluster, ClusterCron, CronMarks};
use cj_decide::Steps;
use cj_due::Missed;
use cj_types::{JobDraft, ObjectName, Reason, Seconds};

/// Why a CronJob starts a Job at a moment, or why not.
#[derive(Clone, Copy, Debug)]
pub enum Verdict {
    /// The Job of the latest time missed is started.
    Starts,
    /// It is started in place of those that run.
    Replaces,
    /// No time was missed.
    NothingMissed,
    /// `spec.suspend` is true.
    Suspended,
    /// Under `Forbid`, a Job of it runs.
    SkippedRunning,
    /// The list has a Job of the name that the Job would have.
    NameTaken,
    /// It rests on Jobs that `status.active` names and the list lacks.
    LacksJobs,
    /// With `spec.startingDeadlineSeconds` of 0 no time is ever in time.
    NeverInTime,
    /// `spec.schedule` comes at no time within 3,000 days.
    NeverDue,
    /// No zone of the name in `spec.timeZone` is given.
    ZoneUnknown,
    /// No time was missed that is still in time, but some that came too late for
    /// `spec.startingDeadlineSeconds`.
    TooLate,
    /// It is being deleted: it has a `metadata.deletionTimestamp`.
    Deleting,
    /// A reference in its `status.active` names no Job, so that each sync of Kubernetes' controller
    /// fails.
    Stuck,
}

impl Verdict {
    /// The verdict as it is written.
    pub fn text(self) -> &'static str
        ensures { result.now ≡ verdict_text self }
    {
        match self {
            Verdict::Starts => "starts",
            Verdict::Replaces => "replaces",
            Verdict::NothingMissed => "nothing missed",
            Verdict::Suspended => "suspended",
            Verdict::SkippedRunning => "skipped: running",
            Verdict::NameTaken => "name taken",
            Verdict::LacksJobs => "lacks Jobs",
            Verdict::NeverInTime => "never: spec.startingDeadlineSeconds",
            Verdict::NeverDue => "never: spec.schedule",
            Verdict::ZoneUnknown => "zone unknown",
            Verdict::TooLate => "too late: spec.startingDeadlineSeconds",
            Verdict::Deleting => "being deleted",
            Verdict::Stuck => "stuck: status.active",
        }
    }
}

// Whether the list has a Job of the name that is made.
fn is_taken(cluster: &Cluster, make: &Option<JobDraft>) -> bool
    ensures { result ≡ is_taken cluster.now make.now }
{
    match make {
        None => false,
        Some(draft) => cluster.job(&draft.key).is_some(),
    }
}

fn is_skipped(reason: Reason) -> bool
    ensures { result ≡ is_skipped reason }
{
    match reason {
        Reason::JobAlreadyActive => true,
        Reason::UnknownTimeZone => false,
        Reason::TooManyMissedTimes => false,
        Reason::FailedCreate => false,
    }
}

fn is_any_skipped(reasons: &[Reason]) -> bool
    ensures { result ≡ list_any is_skipped reasons.now }
{
    reasons.iter().any(|reason| is_skipped(*reason))
}

fn starting(lacks: bool, taken: bool, replaces: bool) -> Verdict
    ensures { result ≡ starting lacks taken replaces }
{
    match (lacks, taken, replaces) {
        (true, _, _) => Verdict::LacksJobs,
        (false, true, _) => Verdict::NameTaken,
        (false, false, true) => Verdict::Replaces,
        (false, false, false) => Verdict::Starts,
    }
}

fn resting(skipped: bool, next: Option<Seconds>, late: bool) -> Verdict
    ensures { result ≡ resting skipped next late }
{
    match (skipped, next, late) {
        (true, _, _) => Verdict::SkippedRunning,
        (false, None, _) => Verdict::NeverDue,
        (false, Some(_), true) => Verdict::TooLate,
        (false, Some(_), false) => Verdict::NothingMissed,
    }
}

// What a verdict rests on beside the plan.
#[derive(Clone, Copy)]
struct Known {
    zone: bool,
    lacks: bool,
    taken: bool,
    late: bool,
}

fn by_claim(known: Known, steps: &Steps) -> Verdict
    ensures { result ≡ by_claim steps.now.claim known.lacks known.taken known.late steps.now }
{
    match steps.claim {
        None => resting(
            is_any_skipped(steps.reasons.as_slice()),
            steps.next,
            known.late,
        ),
        Some(_) => starting(known.lacks, known.taken, steps.drop_first.has_any()),
    }
}

fn by_zone(known: Known, steps: &Steps) -> Verdict
    ensures { result ≡ by_zone known.zone known.lacks known.taken known.late steps.now }
{
    if known.zone {
        by_claim(known, steps)
    } else {
        Verdict::ZoneUnknown
    }
}

fn by_deadline(never: bool, known: Known, steps: &Steps) -> Verdict
    ensures { result
        ≡ by_deadline never known.zone known.lacks known.taken known.late steps.now }
{
    if never {
        Verdict::NeverInTime
    } else {
        by_zone(known, steps)
    }
}

fn by_suspension(suspend: bool, never: bool, known: Known, steps: &Steps) -> Verdict
    ensures { result
        ≡ by_suspension suspend never known.zone known.lacks known.taken known.late steps.now }
{
    if suspend {
        Verdict::Suspended
    } else {
        by_deadline(never, known, steps)
    }
}

fn by_marks(marks: CronMarks, verdict: Verdict) -> Verdict
    ensures { result ≡ by_marks marks.is_deleting marks.is_stuck verdict }
{
    match (marks.is_deleting, marks.is_stuck) {
        (true, _) => Verdict::Deleting,
        (false, true) => Verdict::Stuck,
        (false, false) => verdict,
    }
}

fn is_some_missed(missed: Missed) -> bool
    ensures { result ≡ is_some_missed missed }
{
    match missed {
        Missed::None => false,
        Missed::Some { .. } => true,
        Missed::Many { .. } => true,
    }
}

/// The verdict that a plan means, by whether the CronJob's zone is known, by the names of its Jobs
/// of which nothing is known, and by the times that came too late for its deadline.
pub(crate) fn verdict_of(
    cluster: &Cluster,
    cron: &ClusterCron,
    zone: bool,
    unknown: &[ObjectName],
    late: Missed,
    steps: &Steps,
) -> Verdict
    ensures { result ≡ verdict_of cron.now zone unknown.now late cluster.now steps.now }
{
    let spec = cron.cron.spec.get();
    let never = is_never(spec.starting_deadline_seconds);
    let is_sure = is_sure(spec.policy, &steps.claim);
    let lacks = lacks_any(unknown) && !is_sure;
    let taken = is_taken(cluster, &steps.make);
    let late = is_some_missed(late);
    let known = Known {
        zone,
        lacks,
        taken,
        late,
    };
    by_marks(cron.marks, by_suspension(spec.suspend, never, known, steps))
}

fn is_overdue(now: Seconds, latest: Seconds) -> bool
    ensures { result ≡ is_overdue now latest }
{
    latest.get() + 120 < now.get()
}

fn is_behind(now: Seconds, missed: Missed) -> bool
    ensures { result ≡ is_behind now missed }
{
    match missed {
        Missed::None => false,
        Missed::Some { count, latest } => {
            let is_overdue = is_overdue(now, latest);
            1 < count || is_overdue
        }
        Missed::Many { .. } => true,
    }
}

/// Whether a CronJob of that verdict, which missed that number of times by a moment, wants a look.
pub fn is_problem(verdict: Verdict, now: Seconds, missed: Missed) -> bool
    ensures { result ≡ is_problem verdict now missed }
{
    match verdict {
        Verdict::Starts | Verdict::Replaces => is_behind(now, missed),
        Verdict::NothingMissed | Verdict::Suspended | Verdict::Deleting => false,
        Verdict::SkippedRunning
        | Verdict::NameTaken
        | Verdict::LacksJobs
        | Verdict::NeverInTime
        | Verdict::NeverDue
        | Verdict::ZoneUnknown
        | Verdict::TooLate
        | Verdict::Stuck => true,
    }
}
