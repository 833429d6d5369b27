// What a live read of a scenario finds.
ghost use Rattle.std.specs.Prelude.{◌≡◌, ◌++◌, ◌∷◌, [], Some, filter, map, IfOk, IfErr, OnOk};
ghost use Rattle.cj_base.specs.declared.refusal.Refusal.TheVariants.{OutOfMemory};
ghost use Rattle.cj_types.specs.Objects.{is_unfinished};
ghost use Rattle.cj_status.specs.Order.{in_order};
ghost use Rattle.cj_scenario.specs.Live.{is_before, live_jobs, name_cmp, names_of};
ghost use Rattle.cj_scenario.specs.declared.fault.SceneFault.TheVariants.{Memory};

use crate::fault::SceneFault;
use cj_types::{Job, Key, Names, ObjectName, Refusal, Shared};
use std::alloc::Global;
use std::cmp::Ordering;

fn compare(a: &Job, b: &Job) -> Ordering
    ensures { result ≡ name_cmp a.now b.now }
{
    a.key.name().cmp(b.key.name())
}

fn sort(jobs: &mut Vec<Shared<Job>>) -> Result<(), SceneFault>
    ensures ok { OnOk result (jobs.new.items ≡ in_order is_before jobs.old.items) }
    ensures err { IfErr result (λ e. e ≡ Memory) }
{
    match jobs.sort_by(|a, b| compare(a.get(), b.get())) {
        Ok(()) => Ok(()),
        Err(_) => Err(SceneFault::Memory),
    }
}

fn unfinished(alloc: Global, jobs: &[Shared<Job>]) -> Result<Vec<Shared<Job>>, SceneFault>
    ensures ok { IfOk result (λ r. r.items ≡ filter is_unfinished jobs.now) }
    ensures err { IfErr result (λ e. e ≡ Memory) }
{
    let mut live = Vec::new(alloc);
    for job in jobs {
        if job.get().is_unfinished() {
            live.push(job.share()?).map_err(|_| SceneFault::Memory)?;
        }
    }
    Ok(live)
}

/// The Jobs that run, in byte order of their names.
pub(crate) fn live_jobs(alloc: Global, jobs: &[Shared<Job>]) -> Result<Vec<Shared<Job>>, SceneFault>
    ensures ok { IfOk result (λ r. r.items ≡ live_jobs jobs.now) }
    ensures err { IfErr result (λ e. e ≡ Memory) }
{
    let mut live = unfinished(alloc, jobs)?;
    sort(&mut live)?;
    Ok(live)
}

// Adds the name in a key at the end.
fn push_name(alloc: Global, names: &mut Names, key: &Key) -> Result<(), Refusal>
    ensures ok { OnOk result (names.new ≡ names.old ++ key.now.name ∷ []) }
    ensures err { IfErr result (λ e. e ≡ OutOfMemory) }
{
    names.push(ObjectName::of_key(alloc, key)?)
}

/// The names of these Jobs.
pub(crate) fn names_of(alloc: Global, live: &[Shared<Job>]) -> Result<Names, Refusal>
    ensures ok { IfOk result (λ n. n ≡ names_of live.now) }
    ensures err { IfErr result (λ e. e ≡ OutOfMemory) }
{
    let mut names = Names::new(alloc);
    for job in live {
        push_name(alloc, &mut names, &job.get().key)?;
    }
    Ok(names)
}

/// Each of these Jobs, as a live read finds it.
pub(crate) fn found_of(
    alloc: Global,
    live: &[Shared<Job>],
) -> Result<Vec<Option<Shared<Job>>>, SceneFault>
    ensures ok { IfOk result (λ r. r.items ≡ map (λ job. Some job) live.now) }
    ensures err { IfErr result (λ e. e ≡ Memory) }
{
    let mut found = Vec::new(alloc);
    for job in live {
        found
            .push(Some(job.share()?))
            .map_err(|_| SceneFault::Memory)?;
    }
    Ok(found)
}
