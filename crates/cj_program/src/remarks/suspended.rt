// What is said to people of CronJobs that are suspended in the end.
ghost use Rattle.std.specs.Prelude.{◌≡◌, [], if◌then◌else◌, IfOk, IfErr, string_bytes};
ghost use Rattle.cj_base.specs.declared.refusal.Refusal.TheVariants.{OutOfMemory};
ghost use Rattle.cj_program.specs.remarks.Suspended as said;

use cj_types::{CronJob, Refusal, Shared};
use std::alloc::Global;

#[tactic(auto, unfolding(crate::specs::remarks::Suspended::suspended_line))]
fn suspended_line(alloc: Global, cron: &CronJob) -> Result<String, Refusal>
    ensures ok { IfOk result (λ s. string_bytes s ≡ said.suspended_line cron.now) }
    ensures err { IfErr result (λ e. e ≡ OutOfMemory) }
{
    let key = cron.key.key();
    let (namespace, name) = (key.namespace(), key.name());
    Ok(format!(in alloc;
        "{namespace}/{name}: no Job for times after its last sync, since spec.suspend is true\n"
    )?)
}

// A line where it is suspended.
fn line_if(alloc: Global, cron: &CronJob) -> Result<String, Refusal>
    ensures ok { IfOk result (λ s. string_bytes s
        ≡ (if cron.now.spec.suspend then said.suspended_line cron.now else [])) }
    ensures err { IfErr result (λ e. e ≡ OutOfMemory) }
{
    if cron.spec.get().suspend {
        suspended_line(alloc, cron)
    } else {
        Ok(String::new(alloc))
    }
}

/// A line for each of the CronJobs that is suspended, in their order.
pub(crate) fn suspended_text(alloc: Global, crons: &[Shared<CronJob>]) -> Result<String, Refusal>
    ensures ok { IfOk result (λ s. string_bytes s ≡ said.suspended_lines crons.now) }
    ensures err { IfErr result (λ e. e ≡ OutOfMemory) }
{
    let mut text = String::new(alloc);
    for cron in crons {
        let line = line_if(alloc, cron.get())?;
        text.push_str(line.as_str())?;
    }
    Ok(text)
}
