// The Jobs that run.
ghost use Rattle.std.specs.Prelude.{◌≡◌, ◌++◌, OnOk, IfOk, IfErr, string_bytes};
ghost use Rattle.cj_base.specs.declared.refusal.Refusal.TheVariants.{OutOfMemory};
ghost use Rattle.cj_why.specs.Running.{lacking_end, lacking_line, lacking_lines, lacks_any, running_line, running_lines};

use cj_decide::JobRef;
use cj_types::{ObjectName, Refusal};
use std::alloc::{AllocError, Global};

fn push_running(text: &mut String, name: &str) -> Result<(), AllocError>
    ensures { OnOk result (string_bytes text.new ≡ string_bytes text.old ++ running_line name.now) }
{
    text.push_str("running: ")?;
    text.push_str(name)?;
    text.push_str("\n")
}

/// A line for each Job that runs.
pub(crate) fn running_lines(alloc: Global, running: &[JobRef]) -> Result<String, Refusal>
    ensures ok { IfOk result (λ s. string_bytes s ≡ running_lines running.now) }
    ensures err { IfErr result (λ e. e ≡ OutOfMemory) }
{
    let mut text = String::new(alloc);
    for job in running {
        push_running(&mut text, job.key.name())?;
    }
    Ok(text)
}

#[tactic(auto, unfolding(crate::specs::Running::lacking_end))]
fn lacking_end() -> &'static str
    ensures { result.now ≡ lacking_end }
{
    ", which status.active names and the list lacks; kubectl get cronjobs,jobs -o json lists Jobs too\n"
}

fn lacking_line(alloc: Global, name: &str) -> Result<String, AllocError>
    ensures { IfOk result (λ s. string_bytes s ≡ lacking_line name.now) }
{
    let end = lacking_end();
    format!(in alloc; "running: perhaps {name}{end}")
}

fn push_lacking(alloc: Global, text: &mut String, name: &str) -> Result<(), AllocError>
    ensures { OnOk result (string_bytes text.new ≡ string_bytes text.old ++ lacking_line name.now) }
{
    let line = lacking_line(alloc, name)?;
    text.push_str(line.as_str())
}

/// A line for each Job of which nothing is known.
pub(crate) fn lacking_lines(alloc: Global, lacking: &[ObjectName]) -> Result<String, Refusal>
    ensures ok { IfOk result (λ s. string_bytes s ≡ lacking_lines lacking.now) }
    ensures err { IfErr result (λ e. e ≡ OutOfMemory) }
{
    let mut text = String::new(alloc);
    for name in lacking {
        push_lacking(alloc, &mut text, name.as_str())?;
    }
    Ok(text)
}

/// Whether there is such a Job.
pub(crate) fn lacks_any(lacking: &[ObjectName]) -> bool
    ensures { result ≡ lacks_any lacking.now }
{
    !lacking.is_empty()
}
