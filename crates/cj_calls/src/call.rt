use crate::End;
use cj_decide::Plan;
use cj_types::{
    CronJobDraft, JobDraft, Key, Max, Millis, Outcome, Reasons, Refusal, Seconds, Shared, TryCopy,
    Uid, Version,
};
use std::alloc::Global;

/// A call on the world. A moment that it needs comes with it. Copies share drafts and plans.
#[derive(Drop)]
pub enum Call {
    /// A user creates a CronJob. Answers it.
    CreateCron(Shared<CronJobDraft>, Seconds),
    /// A user replaces labels, annotations and spec of a CronJob. Answers it.
    UpdateCron(Shared<CronJobDraft>),
    /// A user deletes a CronJob. Answers the version of the deletion.
    DeleteCron(Key),
    /// A user, an informer or a runner reads a CronJob.
    GetCron(Key),
    /// A user, an informer or a runner reads a Job.
    GetJob(Key),
    /// A user, an informer or a runner lists the CronJobs by key, with the store's version.
    ListCrons,
    /// A user, an informer or a runner lists the Jobs by key, with the store's version.
    ListJobs,
    /// A user creates a Job, which can have no controller. Answers it.
    CreateJob(Shared<JobDraft>, Seconds),
    /// A user replaces labels, annotations and spec of a Job. Answers it.
    UpdateJob(Shared<JobDraft>),
    /// A user deletes a Job. Answers the version of the deletion.
    DeleteJob(Key),
    /// A runner finishes the Job with this uid at the given moment. Answers it.
    EndJob(Key, Uid, Outcome, Seconds),
    /// A user, an informer or a runner reads up to `max` events after the version.
    Watch(Version, Max),
    /// An informer adds a key to the queue.
    Add(Key),
    /// An informer gives the queue the present moment.
    Tick(Millis),
    /// An informer shuts the queue.
    Shut,
    /// An informer feeds the listings with the events of up to `max` further writes. Answers how
    /// many writes they know then.
    Feed(Max),
    /// A worker takes the first key of the queue.
    Take,
    /// A worker reads the CronJob of the key that it holds.
    SeeCron,
    /// A worker reads the Jobs of its key from a listing that may lag behind the store.
    SeeJobs,
    /// A worker reads, live, the Jobs that the status of the CronJob it saw names as active.
    SeeActive,
    /// A worker makes the claim of a plan of these three answers.
    Claim(Shared<Plan>),
    /// A worker makes the next step of the claimed plan, the deletion of a Job.
    DropNext,
    /// A worker makes the next step of the claimed plan, the creation of a Job.
    MakeNext,
    /// A worker makes the next step of the claimed plan, the CronJob's status at the end.
    SetStatus,
    /// A worker ends its sync, and reports why no Job was started.
    Finish(End, Reasons),
}

impl TryCopy for Call {
    fn try_copy(&self, alloc: Global) -> Result<Call, Refusal> {
        Ok(match self {
            Call::CreateCron(draft, now) => Call::CreateCron(draft.try_copy(alloc)?, *now),
            Call::UpdateCron(draft) => Call::UpdateCron(draft.try_copy(alloc)?),
            Call::DeleteCron(key) => Call::DeleteCron(key.try_copy(alloc)?),
            Call::GetCron(key) => Call::GetCron(key.try_copy(alloc)?),
            Call::GetJob(key) => Call::GetJob(key.try_copy(alloc)?),
            Call::ListCrons => Call::ListCrons,
            Call::ListJobs => Call::ListJobs,
            Call::CreateJob(draft, now) => Call::CreateJob(draft.try_copy(alloc)?, *now),
            Call::UpdateJob(draft) => Call::UpdateJob(draft.try_copy(alloc)?),
            Call::DeleteJob(key) => Call::DeleteJob(key.try_copy(alloc)?),
            Call::EndJob(key, uid, outcome, now) => {
                Call::EndJob(key.try_copy(alloc)?, *uid, *outcome, *now)
            }
            Call::Watch(version, max) => Call::Watch(*version, *max),
            Call::Add(key) => Call::Add(key.try_copy(alloc)?),
            Call::Tick(now) => Call::Tick(*now),
            Call::Shut => Call::Shut,
            Call::Feed(max) => Call::Feed(*max),
            Call::Take => Call::Take,
            Call::SeeCron => Call::SeeCron,
            Call::SeeJobs => Call::SeeJobs,
            Call::SeeActive => Call::SeeActive,
            Call::Claim(plan) => Call::Claim(plan.try_copy(alloc)?),
            Call::DropNext => Call::DropNext,
            Call::MakeNext => Call::MakeNext,
            Call::SetStatus => Call::SetStatus,
            Call::Finish(end, reasons) => Call::Finish(*end, reasons.try_copy(alloc)?),
        })
    }
}
