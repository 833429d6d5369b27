// What is printed of a plan where the list lacks Jobs, and what never starts one.
ghost use Rattle.std.specs.Prelude.{◌≡◌, ◌++◌, IfOk, IfErr, string_bytes};
ghost use Rattle.cj_base.specs.declared.refusal.Refusal.TheVariants.{OutOfMemory};
ghost use Rattle.cj_why.specs.reviews.Lacking.{is_known, is_sure, lack_lines, lines_by, lines_for, never_by, never_line, never_unless, sure_lines};

use crate::reviews::steps_text::{plan_text, push_line, push_time};
use crate::running::lacks_any;
use crate::start::is_never;
use cj_cluster::CronMarks;
use cj_decide::{Claim, Steps};
use cj_types::{CronSpec, ObjectName, Policy, Refusal, Seconds};
use std::alloc::{AllocError, Global};

fn lack_lines(alloc: Global, lacking: &[ObjectName]) -> Result<String, AllocError>
    ensures { IfOk result (λ s. string_bytes s ≡ lack_lines lacking.now) }
{
    let mut text = String::new(alloc);
    for name in lacking {
        push_line(&mut text, "lacks", name.as_str())?;
    }
    Ok(text)
}

/// Whether the plan that takes Jobs for gone is also that of those that run.
pub(crate) fn is_sure(policy: Policy, claim: &Option<Claim>) -> bool
    ensures { result ≡ is_sure policy claim.now }
{
    match (policy, claim) {
        (Policy::Allow, _) => true,
        (Policy::Forbid, None) => true,
        (Policy::Forbid, Some(_)) => false,
        (Policy::Replace, None) => true,
        (Policy::Replace, Some(_)) => false,
    }
}

fn sure_lines(alloc: Global, sure: bool, steps: &Steps) -> Result<String, Refusal>
    ensures ok { IfOk result (λ s. string_bytes s ≡ sure_lines sure steps.now) }
    ensures err { IfErr result (λ e. e ≡ OutOfMemory) }
{
    if sure {
        return plan_text(alloc, steps);
    }
    let mut text = String::new(alloc);
    push_time(&mut text, alloc, "next", steps.next)?;
    Ok(text)
}

/// Whether the plan is that of the CronJob's controller, by the names of its Jobs of which nothing
/// is known.
pub(crate) fn is_known(unknown: &[ObjectName], policy: Policy, steps: &Steps) -> bool
    ensures { result ≡ is_known unknown.now policy steps.now }
{
    let has_all = !lacks_any(unknown);
    let is_sure = is_sure(policy, &steps.claim);
    has_all || is_sure
}

fn lines_by(alloc: Global, marks: CronMarks, known: bool, steps: &Steps) -> Result<String, Refusal>
    ensures ok { IfOk result (λ s. string_bytes s ≡ lines_by marks known steps.now) }
    ensures err { IfErr result (λ e. e ≡ OutOfMemory) }
{
    if !marks.is_halted() {
        return sure_lines(alloc, known, steps);
    }
    let mut text = String::new(alloc);
    push_time(&mut text, alloc, "next", None)?;
    Ok(text)
}

/// The names that the list lacks, and the lines of the plan, where there is one and it doesn't rest
/// on those of which nothing is known.
pub(crate) fn lines_for(
    alloc: Global,
    marks: CronMarks,
    lacking: &[ObjectName],
    unknown: &[ObjectName],
    policy: Policy,
    steps: &Steps,
) -> Result<String, Refusal>
    ensures ok { IfOk result (λ s. string_bytes s
        ≡ lines_for marks lacking.now unknown.now policy steps.now) }
    ensures err { IfErr result (λ e. e ≡ OutOfMemory) }
{
    let mut text = lack_lines(alloc, lacking)?;
    let known = is_known(unknown, policy, steps);
    let lines = lines_by(alloc, marks, known, steps)?;
    text.push_str(lines.as_str())?;
    Ok(text)
}

fn never_by(is_never: bool, next: Option<Seconds>) -> &'static str
    ensures { result.now ≡ never_by is_never next }
{
    match (is_never, next) {
        (true, _) => "never spec.startingDeadlineSeconds\n",
        (false, None) => "never spec.schedule\n",
        (false, Some(_)) => "",
    }
}

fn never_unless(spec: &CronSpec, next: Option<Seconds>) -> &'static str
    ensures { result.now ≡ never_unless spec.now.suspend spec.now next }
{
    if spec.suspend {
        "never spec.suspend\n"
    } else {
        never_by(is_never(spec.starting_deadline_seconds), next)
    }
}

/// A line with the field that keeps a CronJob from ever starting a Job, where one does.
pub(crate) fn never_line(marks: CronMarks, spec: &CronSpec, next: Option<Seconds>) -> &'static str
    ensures { result.now ≡ never_line marks spec.now next }
{
    if marks.is_deleting {
        "never metadata.deletionTimestamp\n"
    } else if marks.is_stuck {
        "never status.active\n"
    } else {
        never_unless(spec, next)
    }
}
