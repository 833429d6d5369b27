// The faults of what a server says of an object.
ghost use Rattle.std.specs.Prelude.{◌≡◌, ◌++◌, IfOk, IfErr, OnOk};
ghost use Rattle.cj_base.specs.declared.refusal.Refusal.TheVariants.{OutOfMemory};
ghost use Rattle.cj_types.specs.Keys.{fault_of};
ghost use Rattle.cj_cluster.specs.kubectl.Faults.{cron_faults_by, job_faults_by, uid_cause};

use crate::kubectl::times::{CronTimes, RunTimes};
use cj_base::{all_four, all_three, both};
use cj_types::{Cause, Field, FieldFault, FieldFaults, Refusal, Text};
use std::alloc::Global;

fn note(faults: &mut FieldFaults, field: Field, cause: Option<Cause>) -> Result<(), Refusal>
    ensures ok { OnOk result (faults.new ≡ faults.old ++ fault_of field cause) }
    ensures err { IfErr result (λ e. e ≡ OutOfMemory) }
{
    if let Some(cause) = cause {
        faults.push(FieldFault { field, cause })?;
    }
    Ok(())
}

/// The cause against a uid that is missing.
pub(crate) fn uid_cause(uid: &Option<Text>) -> Option<Cause>
    ensures { result ≡ uid_cause uid.now }
{
    match uid {
        Some(_) => None,
        None => Some(Cause::Required),
    }
}

/// One fault.
pub(crate) fn fault(alloc: Global, field: Field, cause: Cause) -> Result<FieldFaults, Refusal>
    ensures ok { IfOk result (λ f. f ≡ fault_of field (Some cause)) }
    ensures err { IfErr result (λ e. e ≡ OutOfMemory) }
{
    let mut faults = FieldFaults::new(alloc);
    note(&mut faults, field, Some(cause))?;
    Ok(faults)
}

/// The faults of a CronJob, by the causes against its uid, its status and the list of its Jobs.
pub(crate) fn cron_faults(
    alloc: Global,
    uid: Option<Cause>,
    status: Option<Cause>,
    active: Option<Cause>,
    times: &CronTimes,
) -> Result<FieldFaults, Refusal>
    ensures ok { IfOk result (λ f. f ≡ cron_faults_by uid status active times.now) }
    ensures err { IfErr result (λ e. e ≡ OutOfMemory) }
{
    let mut faults = FieldFaults::new(alloc);
    let uid = note(&mut faults, Field::Uid, uid);
    let created = note(&mut faults, Field::CreationTimestamp, times.created.err());
    let status = note(&mut faults, Field::Status, status);
    let active = note(&mut faults, Field::Active, active);
    let last = note(&mut faults, Field::LastScheduleTime, times.last.err());
    let success = note(&mut faults, Field::LastSuccessfulTime, times.success.err());
    all_three(
        both(uid, created),
        both(status, active),
        both(last, success),
    )?;
    Ok(faults)
}

/// The faults of a Job, by the causes against its status and the conditions in it.
pub(crate) fn job_faults(
    alloc: Global,
    status: Option<Cause>,
    conditions: Option<Cause>,
    times: &RunTimes,
) -> Result<FieldFaults, Refusal>
    ensures ok { IfOk result (λ f. f ≡ job_faults_by status conditions times.now) }
    ensures err { IfErr result (λ e. e ≡ OutOfMemory) }
{
    let mut faults = FieldFaults::new(alloc);
    let created = note(&mut faults, Field::CreationTimestamp, times.created.err());
    let scheduled = note(
        &mut faults,
        Field::ScheduledTimestamp,
        times.scheduled.err(),
    );
    let status = note(&mut faults, Field::Status, status);
    let conditions = note(&mut faults, Field::Conditions, conditions);
    let ended = note(&mut faults, Field::CompletionTime, times.ended.err());
    both(created, all_four(scheduled, status, conditions, ended))?;
    Ok(faults)
}
