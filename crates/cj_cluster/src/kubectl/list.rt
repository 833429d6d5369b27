// A cluster as a list of its objects says it.
ghost use Rattle.std.specs.Prelude.{◌≡◌, IfErr, IfOk, OnErr, OnOk};
ghost use Rattle.cj_base.specs.declared.refusal.Refusal.TheVariants.{OutOfMemory};
ghost use Rattle.cj_cluster.specs.kubectl.Reading.{adds, adds_cron, adds_job, noted, start, taken};
ghost use Rattle.std.specs.FinMap as map;
ghost use Rattle.serde_json.specs.View.{view};

use crate::cluster::Cluster;
use crate::cron::ClusterCron;
use crate::kubectl::item::Item;
use crate::kubectl::named::{cron_named, key_text};
use crate::kubectl::notes::{ItemNote, ItemNotes, ListedKind, Said};
use crate::kubectl::object::object_named;
use crate::times::JobTimes;
use cj_base::both;
use cj_types::{Job, Key, Refusal, Shared};
use serde_json::Value;
use std::alloc::Global;

/// What a list of a cluster's objects says: its CronJobs and Jobs, and a note of each other item.
pub struct ClusterList {
    pub cluster: Cluster,
    pub notes: ItemNotes,
}

impl Drop for ClusterList {
    fn drop(self) {
        let ClusterList { cluster, notes } = self;
        drop(cluster);
        drop(notes);
    }
}

impl ClusterList {
    /// The cluster and the notes.
    pub fn into_parts(self) -> (Cluster, ItemNotes)
        ensures cluster { result.0 ≡ self.cluster }
        ensures notes { result.1 ≡ self.notes }
    {
        let ClusterList { cluster, notes } = self;
        (cluster, notes)
    }
}

/// No object, and no note.
pub(crate) fn empty_list(alloc: Global) -> ClusterList
    ensures { result ≡ start }
{
    ClusterList {
        cluster: Cluster::new(alloc),
        notes: ItemNotes::new(alloc),
    }
}

fn note(
    alloc: Global,
    list: &mut ClusterList,
    place: u64,
    value: &Value,
    said: Said,
) -> Result<(), Refusal>
    ensures ok { OnOk result (list.new ≡ noted place (view value.now) said list.old) }
    ensures err { OnErr result (list.new ≡ list.old) }
    ensures memory { IfErr result (λ e. e ≡ OutOfMemory) }
{
    let (object, cron) = both(object_named(alloc, value), cron_named(alloc, value))?;
    list.notes.push(ItemNote {
        place,
        object,
        cron,
        said,
    })
}

// What is said of an object whose name an earlier one of its kind has.
fn taken(alloc: Global, kind: ListedKind, key: &Key) -> Result<Said, Refusal>
    ensures ok { IfOk result (λ s. s ≡ taken kind key.now) }
    ensures err { IfErr result (λ e. e ≡ OutOfMemory) }
{
    let text = key_text(alloc, key.namespace(), key.name())?;
    Ok(Said::Taken(kind, text))
}

// A note of such an object.
fn note_taken(
    alloc: Global,
    list: &mut ClusterList,
    place: u64,
    value: &Value,
    kind: ListedKind,
    key: &Key,
) -> Result<(), Refusal>
    ensures ok { OnOk result (list.new
        ≡ noted place (view value.now) (taken kind key.now) list.old) }
    ensures err { OnErr result (list.new ≡ list.old) }
    ensures memory { IfErr result (λ e. e ≡ OutOfMemory) }
{
    let said = taken(alloc, kind, key)?;
    note(alloc, list, place, value, said)
}

fn add_cron(
    alloc: Global,
    list: &mut ClusterList,
    place: u64,
    value: &Value,
    cron: ClusterCron,
) -> Result<(), Refusal>
    ensures ok { OnOk result (list.new ≡ adds_cron place (view value.now) cron
        (map.get list.old.cluster.crons cron.cron.key) list.old) }
    ensures err { OnErr result (list.new ≡ list.old) }
    ensures memory { IfErr result (λ e. e ≡ OutOfMemory) }
{
    let key = cron.cron.key.key();
    if list.cluster.cron(key).is_some() {
        note_taken(alloc, list, place, value, ListedKind::Cron, key)
    } else {
        list.cluster.add_cron(alloc, cron)
    }
}

fn add_job(
    alloc: Global,
    list: &mut ClusterList,
    place: u64,
    value: &Value,
    job: Shared<Job>,
    times: Shared<JobTimes>,
) -> Result<(), Refusal>
    ensures ok { OnOk result (list.new ≡ adds_job place (view value.now) job times
        (map.get list.old.cluster.jobs job.key) list.old) }
    ensures err { OnErr result (list.new ≡ list.old) }
    ensures memory { IfErr result (λ e. e ≡ OutOfMemory) }
{
    if list.cluster.job(&job.key).is_some() {
        note_taken(alloc, list, place, value, ListedKind::Run, &job.key)
    } else {
        list.cluster.add_job(alloc, job, times)
    }
}

/// Adds what is read of the item at a place; unchanged where there is no memory.
pub(crate) fn add_item(
    alloc: Global,
    list: &mut ClusterList,
    place: u64,
    value: &Value,
    item: Item,
) -> Result<(), Refusal>
    ensures ok { OnOk result (list.new ≡ adds place (view value.now) item list.old) }
    ensures err { OnErr result (list.new ≡ list.old) }
    ensures memory { IfErr result (λ e. e ≡ OutOfMemory) }
{
    match item {
        Item::Cron(cron) => add_cron(alloc, list, place, value, cron),
        Item::Run(job, times) => add_job(alloc, list, place, value, job, times),
        Item::Other(kind) => note(alloc, list, place, value, Said::Kind(kind)),
        Item::Faulty(faults) => note(alloc, list, place, value, Said::Refused(faults)),
    }
}
