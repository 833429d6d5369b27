// What a step does whose verb takes no manifest: one function for each verb.
ghost use Rattle.std.specs.Prelude.{◌≡◌, IfOk, IfErr};
ghost use Rattle.serde_json.specs.View.{view};
ghost use Rattle.cj_base.specs.declared.refusal.Refusal.TheVariants.{OutOfMemory};
ghost use Rattle.cj_script.specs.operations.Operations as said;
ghost use Rattle.cj_script.specs.operations.Plain.{plain_operation};

use crate::operations::finish::finish;
use crate::operations::instant::time_at;
use crate::operations::keys::key_at;
use crate::operations::member::{max_at, number_at, present};
use crate::operations::operation::Operation;
use crate::operations::verb::Plain;
use cj_calls::Call;
use cj_types::{Millis, Outcome, Refusal, Seconds, Version};
use serde_json::Value;
use std::alloc::Global;

fn delete_cron(alloc: Global, value: &Value) -> Result<Option<Operation>, Refusal>
    ensures ok { IfOk result (λ a. a ≡ said.delete_cron (view value.now)) }
    ensures err { IfErr result (λ e. e ≡ OutOfMemory) }
{
    match key_at(alloc, value)? {
        Some(key) => Ok(Some(Operation::Calls(Call::DeleteCron(key)))),
        None => Ok(None),
    }
}

fn delete_job(alloc: Global, value: &Value) -> Result<Option<Operation>, Refusal>
    ensures ok { IfOk result (λ a. a ≡ said.delete_job (view value.now)) }
    ensures err { IfErr result (λ e. e ≡ OutOfMemory) }
{
    match key_at(alloc, value)? {
        Some(key) => Ok(Some(Operation::Calls(Call::DeleteJob(key)))),
        None => Ok(None),
    }
}

fn add(alloc: Global, value: &Value) -> Result<Option<Operation>, Refusal>
    ensures ok { IfOk result (λ a. a ≡ said.add (view value.now)) }
    ensures err { IfErr result (λ e. e ≡ OutOfMemory) }
{
    match key_at(alloc, value)? {
        Some(key) => Ok(Some(Operation::Calls(Call::Add(key)))),
        None => Ok(None),
    }
}

fn outcome_named(at: Seconds, word: &str) -> Option<Outcome>
    ensures { result ≡ said.outcome_named at word.now }
{
    match word {
        "Complete" => Some(Outcome::Complete(at)),
        "Failed" => Some(Outcome::Failed),
        _ => None,
    }
}

fn outcome_at(at: Seconds, value: &Value) -> Option<Outcome>
    ensures { result ≡ said.outcome_in at (view value.now) }
{
    outcome_named(at, present(value, "outcome")?.as_str()?)
}

fn end_job(alloc: Global, value: &Value) -> Result<Option<Operation>, Refusal>
    ensures ok { IfOk result (λ a. a ≡ said.end_job (view value.now)) }
    ensures err { IfErr result (λ e. e ≡ OutOfMemory) }
{
    let Some(at) = time_at(value, "at") else {
        return Ok(None);
    };
    let Some(outcome) = outcome_at(at, value) else {
        return Ok(None);
    };
    match key_at(alloc, value)? {
        Some(key) => Ok(Some(Operation::Ends(key, outcome, at))),
        None => Ok(None),
    }
}

fn watch(value: &Value) -> Option<Operation>
    ensures { result ≡ said.watch (view value.now) }
{
    let version = number_at(value, "version")?;
    let max = max_at(value)?;
    Some(Operation::Calls(Call::Watch(Version::new(version), max)))
}

fn feed(value: &Value) -> Option<Operation>
    ensures { result ≡ said.feed (view value.now) }
{
    Some(Operation::Calls(Call::Feed(max_at(value)?)))
}

fn tick(value: &Value) -> Option<Operation>
    ensures { result ≡ said.tick (view value.now) }
{
    let at = time_at(value, "at")?;
    Some(Operation::Calls(Call::Tick(Millis::from(at))))
}

fn claim(value: &Value) -> Option<Operation>
    ensures { result ≡ said.claim (view value.now) }
{
    Some(Operation::Claims(time_at(value, "at")?))
}

/// What a step with this verb does, or none where a member that it needs is missing or has the
/// wrong form. Members that it doesn't need aren't looked at.
pub(crate) fn plain_operation(
    alloc: Global,
    verb: Plain,
    value: &Value,
) -> Result<Option<Operation>, Refusal>
    ensures ok { IfOk result (λ a. a ≡ plain_operation verb (view value.now)) }
    ensures err { IfErr result (λ e. e ≡ OutOfMemory) }
{
    match verb {
        Plain::DeleteCron => delete_cron(alloc, value),
        Plain::DeleteJob => delete_job(alloc, value),
        Plain::EndJob => end_job(alloc, value),
        Plain::Watch => Ok(watch(value)),
        Plain::Add => add(alloc, value),
        Plain::Tick => Ok(tick(value)),
        Plain::Shut => Ok(Some(Operation::Calls(Call::Shut))),
        Plain::Feed => Ok(feed(value)),
        Plain::Take => Ok(Some(Operation::Calls(Call::Take))),
        Plain::SeeCron => Ok(Some(Operation::Calls(Call::SeeCron))),
        Plain::SeeJobs => Ok(Some(Operation::Calls(Call::SeeJobs))),
        Plain::SeeActive => Ok(Some(Operation::Calls(Call::SeeActive))),
        Plain::Claim => Ok(claim(value)),
        Plain::Drops => Ok(Some(Operation::Calls(Call::DropNext))),
        Plain::Make => Ok(Some(Operation::Calls(Call::MakeNext))),
        Plain::SetStatus => Ok(Some(Operation::Calls(Call::SetStatus))),
        Plain::Finish => finish(alloc, value),
    }
}
