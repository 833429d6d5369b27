ghost use Rattle.std.specs.Prelude.{◌≡◌, IfOk, IfErr};
ghost use Rattle.std.specs.FinMap as map;
ghost use Rattle.cj_base.specs.declared.refusal.Refusal.TheVariants.{OutOfMemory};
ghost use Rattle.cj_watch.specs.Log.{since};
ghost use Rattle.cj_calls.specs.declared.call.Call.TheVariants.{ListCrons, ListJobs};
ghost use Rattle.cj_state.specs.WorkerCalls.{handled};
ghost use Rattle.cj_state.specs.Step.{found_cron, found_job, told_events, by_reader};

use cj_calls::{Answered, Call, Reply};
use cj_state::{State, refused};
use cj_types::{Key, Max, Refusal, TryCopy, Version};
use std::alloc::Global;

fn get_cron(alloc: Global, state: &State, key: &Key) -> Result<Answered, Refusal>
    ensures ok { IfOk result (λ t. found_cron state.now (map.get state.now.store.crons key.now)
        ≡ handled t state.now) }
    ensures err { IfErr result (λ e. e ≡ OutOfMemory) }
{
    match state.store.get_cron(key) {
        Some(cron) => Answered::new(alloc, Ok(Reply::Cron(cron.try_copy(alloc)?))),
        None => refused(alloc, Refusal::NotFound),
    }
}

fn get_job(alloc: Global, state: &State, key: &Key) -> Result<Answered, Refusal>
    ensures ok { IfOk result (λ t. found_job state.now (map.get state.now.store.jobs key.now)
        ≡ handled t state.now) }
    ensures err { IfErr result (λ e. e ≡ OutOfMemory) }
{
    match state.store.get_job(key) {
        Some(job) => Answered::new(alloc, Ok(Reply::Job(job.try_copy(alloc)?))),
        None => refused(alloc, Refusal::NotFound),
    }
}

fn list_crons(alloc: Global, state: &State) -> Result<Answered, Refusal>
    ensures ok { IfOk result (λ t. by_reader state.now ListCrons ≡ handled t state.now) }
    ensures err { IfErr result (λ e. e ≡ OutOfMemory) }
{
    let crons = state.store.list_crons(alloc)?;
    Answered::new(alloc, Ok(Reply::Crons(crons, state.store.version())))
}

fn list_jobs(alloc: Global, state: &State) -> Result<Answered, Refusal>
    ensures ok { IfOk result (λ t. by_reader state.now ListJobs ≡ handled t state.now) }
    ensures err { IfErr result (λ e. e ≡ OutOfMemory) }
{
    let jobs = state.store.list_jobs(alloc)?;
    Answered::new(alloc, Ok(Reply::Jobs(jobs, state.store.version())))
}

fn watch(alloc: Global, state: &State, version: Version, max: Max) -> Result<Answered, Refusal>
    ensures ok { IfOk result (λ t. told_events state.now (since state.now.watch version max)
        ≡ handled t state.now) }
    ensures err { IfErr result (λ e. e ≡ OutOfMemory) }
{
    match state.watch.since(alloc, version, max) {
        Ok(events) => Answered::new(alloc, Ok(Reply::Events(events))),
        Err(refusal) => refused(alloc, refusal),
    }
}

/// A reading, which users, informers and runners share; any other call is refused.
pub fn by_reader(alloc: Global, state: &State, call: &Call) -> Result<Answered, Refusal>
    ensures ok { IfOk result (λ t. by_reader state.now call.now ≡ handled t state.now) }
    ensures err { IfErr result (λ e. e ≡ OutOfMemory) }
{
    match call {
        Call::GetCron(key) => get_cron(alloc, state, key),
        Call::GetJob(key) => get_job(alloc, state, key),
        Call::ListCrons => list_crons(alloc, state),
        Call::ListJobs => list_jobs(alloc, state),
        Call::Watch(version, max) => watch(alloc, state, *version, *max),
        _ => refused(alloc, Refusal::NotPermitted),
    }
}
