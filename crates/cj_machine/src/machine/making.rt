// A Job is made for a time, and claimed.

use crate::machine::choice::Choice;
use crate::machine::clearing::tidy;
use crate::machine::listing::{later_success, list_text};
use crate::machine::others;
use crate::machine::planning::{Decided, plan};
use crate::machine::task::{Again, CronRead, Stage, Task};
use crate::machine::view::{View, rank};
use cj_base::{Refusal, Seconds, Text, TryCopy};
use cj_control::{CronParts, mark_of};
use cj_fence::{At, Call, Claim, Held, Job, Policy, Ref};
use std::alloc::Global;

// The name of the Job of a time; the second one has a mark of policy, template and uid besides.
fn job_name(
    alloc: Global,
    parts: &CronParts,
    policy: Policy,
    time: u64,
    is_second: bool,
) -> Result<Text, Refusal> {
    let (namespace, name) = (parts.head.namespace.as_str(), parts.head.name.as_str());
    let minutes = time / 60;
    if !is_second {
        let full = format!(in alloc; "{namespace}/{name}-{minutes}")?;
        return Ok(Text::from_string(full));
    }
    let uid = parts.head.uid.as_str();
    let mark = parts.mark.as_str();
    let policy = policy_digit(policy);
    let said = format!(in alloc; "{policy} {mark} {uid}")?;
    let mark = mark_of(alloc, said.as_str())?;
    let short = mark.as_str().get(..room(name)).unwrap_or("");
    let full = format!(in alloc; "{namespace}/{name}-{minutes}-{short}")?;
    Ok(Text::from_string(full))
}

fn policy_digit(policy: Policy) -> u64 {
    match policy {
        Policy::Allow => 0,
        Policy::Forbid => 1,
        Policy::Replace => 2,
    }
}

// How much of a mark a second name has room for: a name has at most 63 characters.
fn room(name: &str) -> usize {
    53_usize.saturating_sub(name.len()).clamp(1, 6)
}

// The creation of the Job of the plan's time, held.
fn create(alloc: Global, task: &mut Task, at: &At) -> Result<Choice, Refusal> {
    let Some(time) = time_of(task) else {
        return Ok(Choice::End(Again::Failed));
    };
    let name = job_name(alloc, &task.parts, at.cron.policy, time, task.is_second)?;
    task.stage = Stage::Creating;
    task.parts.hold = task.parts.by.hold();
    let job = Job {
        uid: Text::new(alloc, "")?,
        version: Text::new(alloc, "")?,
        owner: at.cron.uid.try_copy(alloc)?,
        time,
        policy: at.cron.policy,
        held: true,
        finished: false,
        deleting: false,
        pinned: false,
    };
    Ok(Choice::Send(Call::Create(name, job)))
}

// The time that the plan claims.
fn time_of(task: &Task) -> Option<u64> {
    match &task.plan {
        Some(plan) => plan.time,
        None => None,
    }
}

// Whether a CronJob is left alone.
fn is_left_alone(view: &View<'_>, cron: &CronRead) -> bool {
    cron.is_deleting || (view.options.only_annotated && !cron.is_annotated)
}

// The zone that the CronJob names, where it isn't in the table and wasn't wanted yet.
fn unknown_zone<'a>(view: &View<'_>, cron: &'a CronRead) -> Option<&'a Text> {
    let zone = match &cron.zone {
        Some(zone) => zone,
        None => return None,
    };
    let is_known = view.known.iter().any(|it| it.as_str() == zone.as_str());
    if is_known || view.zones.get(zone.as_str()).is_some() {
        None
    } else {
        Some(zone)
    }
}

// A Job is made where the plan says so, and where the protocol lets one be held.
fn make_planned(
    alloc: Global,
    view: &View<'_>,
    task: &mut Task,
    at: &At,
) -> Result<Choice, Refusal> {
    let Some(time) = time_of(task) else {
        return tidy(alloc, view, task, at);
    };
    let is_new = time > at.cron.last;
    let is_forbidden = at.cron.policy == Policy::Forbid && !at.alive.as_slice().is_empty();
    if !is_new || is_forbidden {
        return tidy(alloc, view, task, at);
    }
    task.due = time;
    let from = time.saturating_add(rank(view.options.replica.as_str(), task.name.as_str()));
    if view.now < from {
        return Ok(Choice::End(Again::At(from)));
    }
    if others::wants_list(view, task, at) {
        return others::list(alloc, task);
    }
    if others::is_held_back(task, at) {
        task.is_held_back = true;
        return tidy(alloc, view, task, at);
    }
    if task.asks_first {
        ask(alloc, task, at, time)
    } else {
        create(alloc, task, at)
    }
}

// The Job that has the name is read.
fn ask(alloc: Global, task: &mut Task, at: &At, time: u64) -> Result<Choice, Refusal> {
    let name = job_name(alloc, &task.parts, at.cron.policy, time, task.is_second)?;
    task.stage = Stage::Asking;
    Ok(Choice::Send(Call::GetJob(name)))
}

// How many references name no Job.
fn nameless(refs: &[Ref]) -> u64 {
    refs.iter().filter(|it| it.name.as_str().is_empty()).count() as u64
}

/// What is made is decided, by the CronJob and the Jobs that were read.
pub(crate) fn make(
    alloc: Global,
    view: &View<'_>,
    task: &mut Task,
    at: &At,
) -> Result<Choice, Refusal> {
    let (Some(cron), Some(now)) = (&task.cron, Seconds::new(view.now)) else {
        return Ok(Choice::End(Again::Never));
    };
    if is_left_alone(view, cron) {
        return Ok(Choice::End(Again::Never));
    }
    if let Some(zone) = unknown_zone(view, cron) {
        task.wants = Some(zone.try_copy(alloc)?);
        return Ok(Choice::End(Again::After(0)));
    }
    task.last = at.cron.last;
    task.nameless = nameless(at.cron.active.as_slice());
    let alive = at.alive.as_slice();
    let text = list_text(alloc, view, cron, &task.key, task.nameless, alive)?;
    match plan(alloc, view.zones, text.as_str(), &task.key, now)? {
        Decided::Plan(plan) => {
            task.plan = Some(plan);
            make_planned(alloc, view, task, at)
        }
        Decided::Refused(reason, words) => {
            task.refused = Some((reason, words));
            Ok(Choice::End(Again::Never))
        }
    }
}

/// The creation was refused: the Job that has the name is read, where it was taken.
pub(crate) fn name_taken(alloc: Global, task: &mut Task, at: &At) -> Result<Choice, Refusal> {
    let Some(time) = time_of(task) else {
        return Ok(Choice::End(Again::Failed));
    };
    if task.status != 409 {
        return Ok(Choice::End(Again::Failed));
    }
    ask(alloc, task, at, time)
}

// The second name is tried, if it wasn't.
fn other_name(alloc: Global, task: &mut Task, at: &At) -> Result<Choice, Refusal> {
    if task.is_second {
        return Ok(Choice::End(Again::After(2_000)));
    }
    task.is_second = true;
    create(alloc, task, at)
}

// No Job was found under the name: it is created, where it was looked for before that.
fn none_found(alloc: Global, task: &mut Task, at: &At) -> Result<Choice, Refusal> {
    if task.asks_first && task.status == 404 {
        task.asks_first = false;
        create(alloc, task, at)
    } else {
        Ok(Choice::End(Again::After(300)))
    }
}

/// The Job that has the name isn't one to adopt. One of this CronJob and time that was started says
/// that the time was claimed, or somebody else made it: a GET of the CronJob tells.
pub(crate) fn not_adopted(alloc: Global, task: &mut Task, at: &At) -> Result<Choice, Refusal> {
    let Some(found) = task.found else {
        return none_found(alloc, task, at);
    };
    let was_started = found.is_same && !found.is_held && !found.is_deleting;
    if was_started && !task.is_live {
        Ok(Choice::End(Again::Live(0)))
    } else {
        other_name(alloc, task, at)
    }
}

// Whether the Job that was found under the name may be claimed: it is of this time and template,
// and a start can take its hold away. One with a hold that isn't known is left to a newer version.
fn is_fit(alloc: Global, task: &mut Task, held: &Held) -> Result<bool, Refusal> {
    let Some(found) = task.found else {
        return Ok(false);
    };
    if !found.has_known_hold {
        task.left_job = Some(held.job.try_copy(alloc)?);
        return Ok(false);
    }
    Ok(found.has_mark && Some(held.found.time) == time_of(task))
}

/// A held Job is claimed; one that was made by another template is left alone.
pub(crate) fn hold(
    alloc: Global,
    view: &View<'_>,
    task: &mut Task,
    at: &At,
    held: &Held,
) -> Result<Choice, Refusal> {
    let is_adopted = task.stage == Stage::Asking;
    if is_adopted && !is_fit(alloc, task, held)? {
        return other_name(alloc, task, at);
    }
    task.stage = Stage::Starting;
    let success = later_success(alloc, view, &task.key, at)?;
    Ok(Choice::Send(Call::Claim(claim(alloc, at, held, success)?)))
}

fn claim(alloc: Global, at: &At, held: &Held, success: Option<u64>) -> Result<Claim, Refusal> {
    let mut active = at.alive.try_copy(alloc)?;
    active.push(held.job.try_copy(alloc)?)?;
    Ok(Claim {
        name: at.name.try_copy(alloc)?,
        uid: at.cron.uid.try_copy(alloc)?,
        version: at.cron.version.try_copy(alloc)?,
        time: held.found.time,
        job: held.job.try_copy(alloc)?,
        active,
        success,
    })
}
