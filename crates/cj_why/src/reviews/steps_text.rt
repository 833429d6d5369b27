// The lines of a plan.
ghost use Rattle.std.specs.Prelude.{◌≡◌, ◌++◌, option_map, IfErr, IfOk, OnOk, string_bytes};
ghost use Rattle.cj_base.specs.declared.refusal.Refusal.TheVariants.{OutOfMemory};
ghost use Rattle.cj_why.specs.reviews.PlanLines.{job_lines, name_value, plan_lines, reason_lines, time_value, word_line};

use cj_decide::{Claim, JobRef, Steps};
use cj_types::{JobDraft, Reason, Refusal, Seconds};
use cj_zone::time_text;
use std::alloc::{AllocError, Global};

/// A line of a word and a value, at the end of the text.
pub(crate) fn push_line(text: &mut String, word: &str, value: &str) -> Result<(), AllocError>
    ensures { OnOk result (string_bytes text.new
        ≡ string_bytes text.old ++ word_line word.now value.now) }
{
    text.push_str(word)?;
    text.push_str(" ")?;
    text.push_str(value)?;
    text.push_str("\n")
}

/// A line with that word and a time, or `none`.
pub(crate) fn push_time(
    text: &mut String,
    alloc: Global,
    word: &str,
    time: Option<Seconds>,
) -> Result<(), Refusal>
    ensures ok { OnOk result (string_bytes text.new
        ≡ string_bytes text.old ++ word_line word.now (time_value time)) }
    ensures err { IfErr result (λ e. e ≡ OutOfMemory) }
{
    match time {
        Some(time) => {
            let value = time_text(alloc, time)?;
            push_line(text, word, value.as_str())?;
        }
        None => push_line(text, word, "none")?,
    }
    Ok(())
}

fn push_jobs(text: &mut String, word: &str, jobs: &[JobRef]) -> Result<(), AllocError>
    ensures { OnOk result (string_bytes text.new
        ≡ string_bytes text.old ++ job_lines word.now jobs.now) }
{
    for job in jobs {
        push_line(text, word, job.key.name())?;
    }
    Ok(())
}

fn push_reasons(text: &mut String, reasons: &[Reason]) -> Result<(), AllocError>
    ensures { OnOk result (string_bytes text.new
        ≡ string_bytes text.old ++ reason_lines reasons.now) }
{
    for reason in reasons {
        push_line(text, "reason", reason.name())?;
    }
    Ok(())
}

fn claimed(claim: &Option<Claim>) -> Option<Seconds>
    ensures { result ≡ option_map (λ c. c.time) claim.now }
{
    match claim {
        Some(claim) => Some(claim.time),
        None => None,
    }
}

fn made(make: &Option<JobDraft>) -> &str
    ensures { result.now ≡ name_value make.now }
{
    match make {
        Some(draft) => draft.key.name(),
        None => "none",
    }
}

/// The lines of a plan: the claimed time, the Jobs that go first, the Job that is made, those that
/// go after it, the reasons, and when to look again.
pub fn plan_text(alloc: Global, steps: &Steps) -> Result<String, Refusal>
    ensures ok { IfOk result (λ s. string_bytes s ≡ plan_lines steps.now) }
    ensures err { IfErr result (λ e. e ≡ OutOfMemory) }
{
    let mut text = String::new(alloc);
    push_time(&mut text, alloc, "claim", claimed(&steps.claim))?;
    push_jobs(&mut text, "drop", steps.drop_first.as_slice())?;
    push_line(&mut text, "make", made(&steps.make))?;
    push_jobs(&mut text, "clean", steps.cleanup.as_slice())?;
    push_reasons(&mut text, steps.reasons.as_slice())?;
    push_time(&mut text, alloc, "next", steps.next)?;
    Ok(text)
}
