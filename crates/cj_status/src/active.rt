ghost use Rattle.std.specs.Prelude.{◌≡◌, [], ◌∷◌, ◌++◌, slice_index_or, None, IfOk, IfErr, OnOk, if◌then◌else◌};
ghost use Rattle.cj_base.specs.declared.refusal.Refusal.TheVariants.{OutOfMemory};
ghost use Rattle.cj_types.specs.Uids.{uid_text};
ghost use Rattle.cj_status.specs.Active.{active_of, is_found, names_of, names_with, still_active};

use crate::listing::{Pick, picked};
use crate::mine::is_running;
use crate::order::Sorting;
use crate::refs::JobRef;
use cj_types::{Job, Key, Names, ObjectName, Refusal, Shared, TryCopy, Uid};
use std::alloc::Global;

// Appends the name in a key.
fn push_name(alloc: Global, all: &mut Names, key: &Key) -> Result<(), Refusal>
    ensures ok { OnOk result (all.new ≡ all.old ++ key.now.name ∷ []) }
    ensures err { IfErr result (λ e. e ≡ OutOfMemory) }
{
    all.push(ObjectName::of_key(alloc, key)?)
}

// Appends a copy of the name.
fn push_copy(alloc: Global, all: &mut Names, name: &ObjectName) -> Result<(), Refusal>
    ensures ok { OnOk result (all.new ≡ all.old ++ name.now ∷ []) }
    ensures err { IfErr result (λ e. e ≡ OutOfMemory) }
{
    all.push(name.try_copy(alloc)?)
}

fn names_of(alloc: Global, refs: &[JobRef]) -> Result<Names, Refusal>
    ensures ok { IfOk result (λ n. n ≡ names_of refs.now) }
    ensures err { IfErr result (λ e. e ≡ OutOfMemory) }
{
    let mut names = Names::new(alloc);
    for job in refs {
        push_name(alloc, &mut names, &job.key)?;
    }
    Ok(names)
}

/// The names of the unfinished Jobs of the CronJob with this uid, in byte order.
pub fn active_of(alloc: Global, jobs: &[Shared<Job>], uid: &Uid) -> Result<Names, Refusal>
    ensures ok { IfOk result (λ n. n ≡ active_of jobs.now (uid_text uid.now)) }
    ensures err { IfErr result (λ e. e ≡ OutOfMemory) }
{
    let running = picked(alloc, Pick::Running, Sorting::ByName, uid, jobs)?;
    names_of(alloc, running.as_slice())
}

/// Names in byte order with the name in a key added, unless it is among them.
pub fn names_with(alloc: Global, names: &Names, key: &Key) -> Result<Names, Refusal>
    ensures ok { IfOk result (λ n. n ≡ names_with key.now.name names.now) }
    ensures err { IfErr result (λ e. e ≡ OutOfMemory) }
{
    let mut all = Names::new(alloc);
    let mut waits = true;
    for other in names.as_slice() {
        if waits {
            let order = key.name().cmp(other.as_str());
            if order.is_lt() {
                push_name(alloc, &mut all, key)?;
            }
            waits = order.is_gt();
        }
        push_copy(alloc, &mut all, other)?;
    }
    if waits {
        push_name(alloc, &mut all, key)?;
    }
    Ok(all)
}

fn is_found(uid: &Uid, name: &str, found: &Option<Shared<Job>>) -> bool
    ensures { result ≡ is_found (uid_text uid.now) name.now found.now }
{
    match found {
        Some(found) => {
            let job = found.get();
            let named = job.key.name() == name;
            let runs = is_running(uid, job);
            named && runs
        }
        None => false,
    }
}

// Whether the live read found the Job at the place, if there is one, unfinished and the CronJob's
// own.
fn is_found_at(uid: &Uid, name: &str, found: &[Option<Shared<Job>>], place: usize) -> bool
    ensures { result ≡ is_found (uid_text uid.now) name.now (slice_index_or found.now place None) }
{
    match found.get(place) {
        Some(one) => is_found(uid, name, one),
        None => false,
    }
}

// Appends a copy of the name if it is kept.
fn push_kept(alloc: Global, all: &mut Names, name: &ObjectName, keeps: bool) -> Result<(), Refusal>
    ensures ok { OnOk result (all.new ≡ if keeps then all.old ++ name.now ∷ [] else all.old) }
    ensures err { IfErr result (λ e. e ≡ OutOfMemory) }
{
    if keeps {
        push_copy(alloc, all, name)?;
    }
    Ok(())
}

/// The names for which a live read found an unfinished Job of the CronJob with this uid, in their
/// order.
pub fn still_active(
    alloc: Global,
    uid: &Uid,
    names: &Names,
    found: &[Option<Shared<Job>>],
) -> Result<Names, Refusal>
    ensures ok { IfOk result (λ n. n ≡ still_active (uid_text uid.now) names.now found.now) }
    ensures err { IfErr result (λ e. e ≡ OutOfMemory) }
{
    let mut all = Names::new(alloc);
    for (i, name) in names.as_slice().iter().enumerate() {
        let keeps = is_found_at(uid, name.as_str(), found, i);
        push_kept(alloc, &mut all, name, keeps)?;
    }
    Ok(all)
}
