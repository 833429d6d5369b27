// The report at the end.
ghost use Rattle.std.specs.Prelude.{◌≡◌, IfOk, IfErr, string_bytes};
ghost use mathlib.Core.List.{reverse};
ghost use Rattle.cj_base.specs.declared.refusal.Refusal.TheVariants.{OutOfMemory};
ghost use Rattle.cj_report.specs.Reports.{report_lines};

use crate::objects::objects_text;
use crate::reasons::reasons_text;
use cj_calls::Entry;
use cj_types::{CronJob, Job, Refusal, Shared};
use std::alloc::Global;

/// The lines of these objects, and those of the reasons in the entries, the oldest entry first.
pub fn report_text(
    alloc: Global,
    crons: &[Shared<CronJob>],
    jobs: &[Shared<Job>],
    entries: &[Entry],
) -> Result<String, Refusal>
    ensures ok { IfOk result (λ s. string_bytes s
        ≡ report_lines crons.now jobs.now (reverse entries.now)) }
    ensures err { IfErr result (λ e. e ≡ OutOfMemory) }
{
    let mut text = objects_text(alloc, crons, jobs)?;
    let reasons = reasons_text(alloc, crons, entries)?;
    text.push_str(reasons.as_str())?;
    Ok(text)
}
