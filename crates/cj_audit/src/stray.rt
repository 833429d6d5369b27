ghost use Rattle.std.specs.Prelude.{◌≡◌, true, is_some, Some, Ok, IfOk, IfErr, OnOk};
ghost use Rattle.std.specs.List.{list_any};
ghost use Rattle.std.specs.FinMap as map;
ghost use Rattle.cj_base.specs.declared.refusal.Refusal.TheVariants.{OutOfMemory};
ghost use Rattle.cj_types.specs.Objects.{cron_of};
ghost use Rattle.cj_audit.specs.Notes.{Notes, AnyOf};
ghost use Rattle.cj_audit.specs.Findings.{has_any, has_cron, stray_finding, tells_crons, IsStrayJob};
ghost use Rattle.cj_audit.specs.Places.{place_if, AreShort};

use crate::finding::Finding;
use crate::kind::FindingKind;
use crate::manual::is_manual;
use crate::note::note;
use cj_cluster::{Cluster, ClusterCron, ItemNote, is_of_refused};
use cj_types::{Job, Key, Refusal, Shared, Text, TryCopy};
use std::alloc::Global;
use std::collections::BTreeSet;

// The key of these texts, if they are well formed.
fn key_of(alloc: Global, namespace: &str, name: &str) -> Result<Option<Key>, Refusal>
    ensures ok { IfOk result (λ k. k ≡ place_if namespace.now name.now) }
    ensures memory { IfErr result (λ e. e ≡ OutOfMemory) }
{
    match Key::new(alloc, namespace, name) {
        Ok(key) => Ok(Some(key)),
        Err(Refusal::OutOfMemory) => Err(Refusal::OutOfMemory),
        Err(_) => Ok(None),
    }
}

// Whether a CronJob of that name controls the Job, which names it.
fn has_cron(alloc: Global, cluster: &Cluster, job: &Job, name: &Text) -> Result<bool, Refusal>
    requires short { AreShort cluster.now.crons }
    requires named { cron_of job.now ≡ Some name.now }
    ensures ok { IfOk result (λ b. b ≡ has_cron cluster.now job.now) }
    ensures memory { IfErr result (λ e. e ≡ OutOfMemory) }
{
    let Some(key) = key_of(alloc, job.key.namespace(), name.as_str())? else {
        return Ok(false);
    };
    match cluster.cron(&key) {
        Some(cron) => Ok(cron.controls(job)),
        None => Ok(false),
    }
}

fn stray_finding(alloc: Global, job: &Job, name: &Text) -> Result<Finding, Refusal>
    ensures ok { IfOk result (λ f. f ≡ stray_finding job.now name.now) }
    ensures memory { IfErr result (λ e. e ≡ OutOfMemory) }
{
    Ok(Finding {
        namespace: Text::new(alloc, job.key.namespace())?,
        cron: name.try_copy(alloc)?,
        time: job.meta.created,
        first: Text::new(alloc, job.key.name())?,
        second: None,
        kind: FindingKind::Stray,
    })
}

// Notes the Job, if nobody made it by hand, and it names a CronJob that doesn't control it or isn't
// there.
fn note_stray(
    alloc: Global,
    cluster: &Cluster,
    refused: &[ItemNote],
    job: &Job,
    notes: &mut BTreeSet<Finding>,
) -> Result<(), Refusal>
    requires short { AreShort cluster.now.crons }
    requires told { tells_crons cluster.now refused.now ≡ true }
    ensures ok { OnOk result (Notes (IsStrayJob cluster.now refused.now job.now) notes.old
        notes.new) }
    ensures memory { IfErr result (λ e. e ≡ OutOfMemory) }
{
    let Some(name) = job.cron_name() else {
        return Ok(());
    };
    if is_manual(cluster, job) {
        return Ok(());
    }
    if is_of_refused(refused, job) {
        return Ok(());
    }
    if has_cron(alloc, cluster, job, name)? {
        return Ok(());
    }
    note(notes, stray_finding(alloc, job, name)?)
}

fn has_crons(crons: &[Shared<ClusterCron>]) -> bool
    ensures { result ≡ has_any crons.now }
{
    !crons.is_empty()
}

// Whether one of the items that can't be used is a CronJob with a name.
fn has_named(refused: &[ItemNote]) -> bool
    ensures { result ≡ list_any (λ note. is_some note.cron) refused.now }
{
    refused.iter().any(|note| note.cron.is_some())
}

/// Whether the list has a CronJob, be it one that can't be used.
pub(crate) fn tells_crons(
    alloc: Global,
    cluster: &Cluster,
    refused: &[ItemNote],
) -> Result<bool, Refusal>
    ensures ok { IfOk result (λ b. b ≡ tells_crons cluster.now refused.now) }
    ensures memory { IfErr result (λ e. e ≡ OutOfMemory) }
{
    let crons = cluster.crons(alloc)?;
    let has_crons = has_crons(crons.as_slice());
    let has_refused = has_named(refused);
    Ok(has_crons || has_refused)
}

// Notes the Jobs whose CronJob isn't there, in a list that has CronJobs.
fn note_all(
    alloc: Global,
    cluster: &Cluster,
    refused: &[ItemNote],
    notes: &mut BTreeSet<Finding>,
) -> Result<(), Refusal>
    requires short { AreShort cluster.now.crons }
    requires told { tells_crons cluster.now refused.now ≡ true }
    ensures ok { OnOk result (Notes (AnyOf (IsStrayJob cluster.now refused.now)
        (map.values cluster.now.jobs)) notes.old notes.new) }
    ensures memory { IfErr result (λ e. e ≡ OutOfMemory) }
{
    let jobs = cluster.jobs(alloc)?;
    for job in jobs.as_slice() {
        note_stray(alloc, cluster, refused, job.get(), notes)?;
    }
    Ok(())
}

/// Notes the Jobs whose CronJob isn't there, neither among those of the cluster nor among the items
/// that can't be used.
pub(crate) fn note_strays(
    alloc: Global,
    cluster: &Cluster,
    refused: &[ItemNote],
    notes: &mut BTreeSet<Finding>,
) -> Result<(), Refusal>
    requires { AreShort cluster.now.crons }
    ensures ok { OnOk result (Notes (AnyOf (IsStrayJob cluster.now refused.now)
        (map.values cluster.now.jobs)) notes.old notes.new) }
    ensures memory { IfErr result (λ e. e ≡ OutOfMemory) }
{
    if tells_crons(alloc, cluster, refused)? {
        note_all(alloc, cluster, refused, notes)
    } else {
        Ok(())
    }
}
