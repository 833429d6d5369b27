// What is sent for a call of a sync.
ghost use Rattle.std.specs.Prelude.{◌≡◌, [], ◌∷◌, codes, IfOk, IfErr};
ghost use Rattle.serde_json.specs.Data.{array, member, no_members, string};
ghost use Rattle.serde_json.specs.View.{items_of, view};
ghost use Rattle.cj_base.specs.declared.refusal.Refusal.TheVariants.{OutOfMemory};
ghost use Rattle.cj_control.specs.Created.{hold_by};
ghost use Rattle.cj_control.specs.Requests as sent;

use crate::hold::Hold;
use cj_base::{Refusal, Seconds};
use cj_json::time_value;
use serde_json::{Value, json};
use std::alloc::{AllocError, Global};

/// How Jobs are created so that they don't run yet.
#[derive(Clone, Copy, Debug, PartialEq, Eq)]
pub enum HeldBy {
    /// `spec.suspend` is true.
    Suspend,
    /// `spec.parallelism` is 0: servers before 1.24 may drop `suspend`.
    Parallelism,
}

impl HeldBy {
    /// What holds a Job back that is created so.
    pub fn hold(self) -> Hold
        ensures { result ≡ hold_by self }
    {
        match self {
            HeldBy::Suspend => Hold::Suspend,
            HeldBy::Parallelism => Hold::Parallelism,
        }
    }
}

fn operation(alloc: Global, op: &str, path: &str, value: Value) -> Result<Value, AllocError>
    ensures { IfOk result (λ v. view v ≡ sent.operation op.now path.now (view value)) }
{
    json!(in alloc; {"op": op, "path": path, "value": value})
}

fn removal(alloc: Global, path: &str) -> Result<Value, AllocError>
    ensures { IfOk result (λ v. view v ≡ sent.removal path.now) }
{
    json!(in alloc; {"op": "remove", "path": path})
}

// The operation that a text stands at a path.
fn test(alloc: Global, path: &str, text: &str) -> Result<Value, AllocError>
    ensures { IfOk result (λ v. view v
        ≡ sent.operation (codes "test") path.now (string text.now)) }
{
    let value = Value::try_from_str(alloc, text)?;
    operation(alloc, "test", path, value)
}

fn four_values(
    alloc: Global,
    first: Value,
    second: Value,
    third: Value,
    fourth: Value,
) -> Result<Value, AllocError>
    ensures { IfOk result (λ v. view v
        ≡ array (items_of (view first ∷ view second ∷ view third ∷ view fourth ∷ []))) }
{
    json!(in alloc; [first, second, third, fourth])
}

fn five_values(
    alloc: Global,
    first: Value,
    second: Value,
    third: Value,
    fourth: Value,
    fifth: Value,
) -> Result<Value, AllocError>
    ensures { IfOk result (λ v. view v ≡ array (items_of (
        view first ∷ view second ∷ view third ∷ view fourth ∷ view fifth ∷ []))) }
{
    json!(in alloc; [first, second, third, fourth, fifth])
}

// A start of another hold fails at its second test, so the server refuses it whole.
fn start_patch(
    alloc: Global,
    uid: &str,
    hold: Hold,
    suspend: Value,
    parallelism: Value,
) -> Result<Value, AllocError>
    ensures { IfOk result (λ v. view v
        ≡ sent.start_body uid.now hold (view suspend) (view parallelism)) }
{
    let held = "/metadata/annotations/cronsim~1held";
    let is_of_uid = test(alloc, "/metadata/uid", uid)?;
    let is_held = test(alloc, held, hold.text())?;
    let removal = removal(alloc, held)?;
    let suspend = operation(alloc, "add", "/spec/suspend", suspend)?;
    let parallelism = operation(alloc, "add", "/spec/parallelism", parallelism)?;
    match hold {
        Hold::Suspend => four_values(alloc, is_of_uid, is_held, removal, suspend),
        Hold::Parallelism => four_values(alloc, is_of_uid, is_held, removal, parallelism),
        Hold::Unsaid => { five_values(alloc, is_of_uid, is_held, removal, suspend, parallelism) }
    }
}

/// The JSON patch that starts a Job: on condition of its uid and of its hold, the hold goes, and
/// what kept it from running has the template's value. Where another hold keeps it, the API server
/// refuses the patch (422).
pub fn start_body(
    alloc: Global,
    uid: &str,
    hold: Hold,
    suspend: Value,
    parallelism: Value,
) -> Result<Value, Refusal>
    ensures ok { IfOk result (λ v. view v
        ≡ sent.start_body uid.now hold (view suspend) (view parallelism)) }
    ensures err { IfErr result (λ e. e ≡ OutOfMemory) }
{
    Ok(start_patch(alloc, uid, hold, suspend, parallelism)?)
}

fn delete_object(alloc: Global, uid: &str) -> Result<Value, AllocError>
    ensures { IfOk result (λ v. view v ≡ sent.delete_body uid.now) }
{
    json!(in alloc; {
        "preconditions": {"uid": uid},
        "propagationPolicy": "Background"
    })
}

/// The options of a deletion of a Job, on condition of its uid.
pub fn delete_body(alloc: Global, uid: &str) -> Result<Value, Refusal>
    ensures ok { IfOk result (λ v. view v ≡ sent.delete_body uid.now) }
    ensures err { IfErr result (λ e. e ≡ OutOfMemory) }
{
    Ok(delete_object(alloc, uid)?)
}

fn expire_object(alloc: Global, uid: &str, version: &str) -> Result<Value, AllocError>
    ensures { IfOk result (λ v. view v ≡ sent.expire_body uid.now version.now) }
{
    json!(in alloc; {
        "preconditions": {"resourceVersion": version, "uid": uid},
        "propagationPolicy": "Background"
    })
}

/// The options of a deletion of a Job, on condition of its uid and of its version.
pub fn expire_body(alloc: Global, uid: &str, version: &str) -> Result<Value, Refusal>
    ensures ok { IfOk result (λ v. view v ≡ sent.expire_body uid.now version.now) }
    ensures err { IfErr result (λ e. e ≡ OutOfMemory) }
{
    Ok(expire_object(alloc, uid, version)?)
}

fn claim_object(
    alloc: Global,
    uid: &str,
    version: &str,
    time: Value,
    active: Value,
) -> Result<Value, AllocError>
    ensures { IfOk result (λ v. view v
        ≡ sent.claim_patch uid.now version.now (view time) (view active) no_members) }
{
    json!(in alloc; {
        "metadata": {"resourceVersion": version, "uid": uid},
        "status": {"active": active, "lastScheduleTime": time}
    })
}

// The same with the last successful time.
fn claim_with(
    alloc: Global,
    uid: &str,
    version: &str,
    time: Value,
    active: Value,
    success: Value,
) -> Result<Value, AllocError>
    ensures { IfOk result (λ v. view v
        ≡ sent.claim_patch uid.now version.now (view time) (view active)
        (member (codes "lastSuccessfulTime") (view success) no_members)) }
{
    json!(in alloc; {
        "metadata": {"resourceVersion": version, "uid": uid},
        "status": {"active": active, "lastScheduleTime": time, "lastSuccessfulTime": success}
    })
}

/// The merge patch of a claim: the status, on condition of the CronJob's uid and version.
pub fn claim_body(
    alloc: Global,
    uid: &str,
    version: &str,
    time: Seconds,
    active: Value,
    success: Option<Seconds>,
) -> Result<Value, Refusal>
    ensures ok { IfOk result (λ v. view v
        ≡ sent.claim_body uid.now version.now time (view active) success) }
    ensures err { IfErr result (λ e. e ≡ OutOfMemory) }
{
    let time = time_value(alloc, time)?;
    match success {
        None => Ok(claim_object(alloc, uid, version, time, active)?),
        Some(success) => {
            let success = time_value(alloc, success)?;
            Ok(claim_with(alloc, uid, version, time, active, success)?)
        }
    }
}

fn tidy_object(alloc: Global, uid: &str, version: &str, active: Value) -> Result<Value, AllocError>
    ensures { IfOk result (λ v. view v
        ≡ sent.tidy_patch uid.now version.now (view active) no_members) }
{
    json!(in alloc; {
        "metadata": {"resourceVersion": version, "uid": uid},
        "status": {"active": active}
    })
}

// The same with the last successful time.
fn tidy_with(
    alloc: Global,
    uid: &str,
    version: &str,
    active: Value,
    success: Value,
) -> Result<Value, AllocError>
    ensures { IfOk result (λ v. view v ≡ sent.tidy_patch uid.now version.now (view active)
        (member (codes "lastSuccessfulTime") (view success) no_members)) }
{
    json!(in alloc; {
        "metadata": {"resourceVersion": version, "uid": uid},
        "status": {"active": active, "lastSuccessfulTime": success}
    })
}

/// The merge patch of a tidied status, on condition of the CronJob's uid and version.
pub fn tidy_body(
    alloc: Global,
    uid: &str,
    version: &str,
    active: Value,
    success: Option<Seconds>,
) -> Result<Value, Refusal>
    ensures ok { IfOk result (λ v. view v
        ≡ sent.tidy_body uid.now version.now (view active) success) }
    ensures err { IfErr result (λ e. e ≡ OutOfMemory) }
{
    match success {
        None => Ok(tidy_object(alloc, uid, version, active)?),
        Some(success) => {
            let success = time_value(alloc, success)?;
            Ok(tidy_with(alloc, uid, version, active, success)?)
        }
    }
}

fn reference_object(
    alloc: Global,
    namespace: &str,
    name: &str,
    uid: &str,
) -> Result<Value, AllocError>
    ensures { IfOk result (λ v. view v ≡ sent.reference namespace.now name.now uid.now) }
{
    json!(in alloc; {
        "apiVersion": "batch/v1",
        "kind": "Job",
        "name": name,
        "namespace": namespace,
        "uid": uid
    })
}

/// A reference to a Job, as `status.active` has it.
pub fn reference(alloc: Global, namespace: &str, name: &str, uid: &str) -> Result<Value, Refusal>
    ensures ok { IfOk result (λ v. view v ≡ sent.reference namespace.now name.now uid.now) }
    ensures err { IfErr result (λ e. e ≡ OutOfMemory) }
{
    Ok(reference_object(alloc, namespace, name, uid)?)
}
