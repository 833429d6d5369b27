//! The calls of a worker that holds a key.
ghost use Rattle.std.specs.Prelude.{◌≡◌, IsTrue, IfOk, IfErr, Ok};
ghost use Rattle.cj_calls.specs.declared.reply.Reply.TheVariants as Is;
ghost use Rattle.cj_hub.specs.Runs.{Adds, FoundFull};
ghost use Rattle.cj_worker.specs.Errors.{is_inner, is_cron, is_jobs, is_active, HasAsked, HasDone, HasCron, HasJobs, HasActive, ErrorFull};

use crate::error::{SyncError, error_of, refusal_of};
use cj_calls::{Answer, Call, Reply};
use cj_hub::{CallError, Desk, Pass, Receipt, ask};
use cj_types::{CronJob, Job, Listing, Shared, TryCopy};
use std::alloc::Global;

/// Makes one call; where it is accepted, the receipt has the reply.
#[tactic(auto, using(crate::proofs::Full::lost_full))]
pub(crate) fn call_on<D: Desk>(
    desk: &mut D,
    pass: &mut Pass,
    call: Call,
) -> Result<Receipt, SyncError>
    requires { IsTrue (is_inner call) }
    ensures adds { Adds D.tells (D.history desk.old) (D.history desk.new) pass.old pass.new
        (HasAsked call result) }
    ensures full { IfErr result (λ e. ErrorFull e
        (FoundFull D.tells (D.history desk.new) (D.refused_full desk.new))) }
{
    match ask(desk, pass, call) {
        Ok(receipt) => Ok(receipt),
        Err(CallError::Refused(receipt)) => Err(SyncError::Refused(refusal_of(receipt.answer()))),
        Err(CallError::Unentered(refusal)) => Err(error_of(refusal)),
    }
}

/// Makes one call of whose reply nothing is kept.
pub(crate) fn make<D: Desk>(desk: &mut D, pass: &mut Pass, call: Call) -> Result<(), SyncError>
    requires { IsTrue (is_inner call) }
    ensures adds { Adds D.tells (D.history desk.old) (D.history desk.new) pass.old pass.new
        (HasDone call result) }
    ensures full { IfErr result (λ e. ErrorFull e
        (FoundFull D.tells (D.history desk.new) (D.refused_full desk.new))) }
{
    match call_on(desk, pass, call) {
        Ok(_receipt) => Ok(()),
        Err(error) => Err(error),
    }
}

// The CronJob that a reply to SeeCron has.
fn cron_in(alloc: Global, answer: &Answer) -> Result<Option<Shared<CronJob>>, SyncError>
    requires { IsTrue (is_cron answer.now) }
    ensures ok { IfOk result (λ x. answer.now ≡ Ok (Is.SeenCron x)) }
    ensures err { IfErr result (λ h. h ≡ SyncError.Starved) }
{
    match answer {
        Ok(Reply::SeenCron(cron)) => match cron.try_copy(alloc) {
            Ok(cron) => Ok(cron),
            Err(_) => Err(SyncError::Starved),
        },
        _ => unreachable!(),
    }
}

// The Jobs that a reply to SeeJobs has.
fn jobs_in(alloc: Global, answer: &Answer) -> Result<Listing<Shared<Job>>, SyncError>
    requires { IsTrue (is_jobs answer.now) }
    ensures ok { IfOk result (λ x. answer.now ≡ Ok (Is.SeenJobs x)) }
    ensures err { IfErr result (λ h. h ≡ SyncError.Starved) }
{
    match answer {
        Ok(Reply::SeenJobs(jobs)) => match jobs.try_copy(alloc) {
            Ok(jobs) => Ok(jobs),
            Err(_) => Err(SyncError::Starved),
        },
        _ => unreachable!(),
    }
}

// The Jobs that a reply to SeeActive has.
fn active_in(alloc: Global, answer: &Answer) -> Result<Listing<Option<Shared<Job>>>, SyncError>
    requires { IsTrue (is_active answer.now) }
    ensures ok { IfOk result (λ x. answer.now ≡ Ok (Is.SeenActive x)) }
    ensures err { IfErr result (λ h. h ≡ SyncError.Starved) }
{
    match answer {
        Ok(Reply::SeenActive(active)) => match active.try_copy(alloc) {
            Ok(active) => Ok(active),
            Err(_) => Err(SyncError::Starved),
        },
        _ => unreachable!(),
    }
}

/// The CronJob of the key, if there is one.
pub(crate) fn see_cron<D: Desk>(
    alloc: Global,
    desk: &mut D,
    pass: &mut Pass,
) -> Result<Option<Shared<CronJob>>, SyncError>
    ensures adds { Adds D.tells (D.history desk.old) (D.history desk.new) pass.old pass.new
        (HasCron result) }
    ensures full { IfErr result (λ e. ErrorFull e
        (FoundFull D.tells (D.history desk.new) (D.refused_full desk.new))) }
{
    match call_on(desk, pass, Call::SeeCron) {
        Ok(receipt) => cron_in(alloc, receipt.answer()),
        Err(error) => Err(error),
    }
}

/// The Jobs of the key, by a listing that may lag.
pub(crate) fn see_jobs<D: Desk>(
    alloc: Global,
    desk: &mut D,
    pass: &mut Pass,
) -> Result<Listing<Shared<Job>>, SyncError>
    ensures adds { Adds D.tells (D.history desk.old) (D.history desk.new) pass.old pass.new
        (HasJobs result) }
    ensures full { IfErr result (λ e. ErrorFull e
        (FoundFull D.tells (D.history desk.new) (D.refused_full desk.new))) }
{
    match call_on(desk, pass, Call::SeeJobs) {
        Ok(receipt) => jobs_in(alloc, receipt.answer()),
        Err(error) => Err(error),
    }
}

/// The Jobs that the CronJob's status names as active, as they are by now.
pub(crate) fn see_active<D: Desk>(
    alloc: Global,
    desk: &mut D,
    pass: &mut Pass,
) -> Result<Listing<Option<Shared<Job>>>, SyncError>
    ensures adds { Adds D.tells (D.history desk.old) (D.history desk.new) pass.old pass.new
        (HasActive result) }
    ensures full { IfErr result (λ e. ErrorFull e
        (FoundFull D.tells (D.history desk.new) (D.refused_full desk.new))) }
{
    match call_on(desk, pass, Call::SeeActive) {
        Ok(receipt) => active_in(alloc, receipt.answer()),
        Err(error) => Err(error),
    }
}
