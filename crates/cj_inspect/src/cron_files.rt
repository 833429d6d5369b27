// What is read of files with CronJobs.
ghost use Rattle.std.specs.Prelude.{◌≡◌, ◌∷◌, ◌++◌, [], IfErr, IfOk, MatchOption, OnOk, false, filter, not};
ghost use Rattle.cj_base.specs.declared.refusal.Refusal.TheVariants.{OutOfMemory};
ghost use Rattle.cj_cluster.specs.declared.kubectl.fault.ListFault.TheVariants.{Memory};
ghost use Rattle.cj_answers.specs.Clusters.{is_other, is_read};
ghost use Rattle.cj_cluster.specs.kubectl.Reading.{IsClusterList, IsRefusedList};
ghost use Rattle.cj_zone.specs.Table.{zones_of};
ghost use Rattle.cj_inspect.specs.CronFiles.{AddsFile, AreFiles, Drafts, DraftsNone, IsCron, IsDrafted, IsFile, IsListed, IsServedList, Stops, without_others};

use crate::manifests::served_text;
use cj_answers::is_read;
use cj_cluster::{
    Cluster, ClusterCron, ClusterList, CronMarks, ItemNote, ItemNotes, ListFault, Said,
    read_cluster,
};
use cj_manifest::read_cronjob;
use cj_types::{
    CronJob, CronJobDraft, CronStatus, DraftMeta, Listing, Meta, Names, Refusal, Seconds, Shared,
    Text, Uid, Version,
};
use cj_zone::ZoneTable;
use std::alloc::Global;

/// A file with CronJobs, as it was read.
#[derive(Clone, Copy)]
pub struct CronFile<'a> {
    /// The file's name, as the words give it.
    pub name: &'a str,
    /// All of its bytes.
    pub bytes: &'a [u8],
}

/// What is read of a file.
#[derive(Drop)]
pub(crate) struct FileCrons {
    /// The file's name.
    pub name: Text,
    /// Its CronJobs, in the order of their keys.
    pub crons: Listing<Shared<ClusterCron>>,
    /// What else it has, with a note of each item that can't be used.
    pub list: ClusterList,
    /// How many objects of other kinds are passed over without a note.
    pub passed: u64,
}

impl FileCrons {
    /// The notes of the items that can't be used.
    pub(crate) fn notes(&self) -> &[ItemNote]
        ensures { result.now ≡ self.now.list.notes }
    {
        self.list.notes.as_slice()
    }
}

/// The first file that is refused.
#[derive(Clone, Copy)]
pub(crate) struct BadFile<'a> {
    pub file: CronFile<'a>,
    pub fault: ListFault,
}

// What a server writes into the metadata of the first object that it creates.
fn first_meta(alloc: Global, meta: DraftMeta) -> Result<(Text, Meta), Refusal>
    ensures { IfErr result (λ e. e ≡ OutOfMemory) }
{
    let DraftMeta {
        uid,
        version: _,
        labels,
        annotations,
    } = meta;
    let uid = match uid {
        Some(uid) => uid,
        None => Text::new(alloc, "")?,
    };
    let (Some(place), Some(created)) = (Uid::new(1), Seconds::new(0)) else {
        return Err(Refusal::OutOfMemory);
    };
    let meta = Meta {
        uid: place,
        version: Version::new(1),
        generation: 1,
        created,
        labels,
        annotations,
    };
    Ok((uid, meta))
}

// The CronJob of a draft, as one that never ran.
fn cron(alloc: Global, draft: CronJobDraft) -> Result<ClusterCron, Refusal>
    ensures ok { IfOk result (IsCron draft) }
    ensures err { IfErr result (λ e. e ≡ OutOfMemory) }
{
    let CronJobDraft { key, meta, spec } = draft;
    let (uid, meta) = first_meta(alloc, meta)?;
    let status = CronStatus {
        active: Names::new(alloc),
        last_schedule_time: None,
        last_successful_time: None,
    };
    let cron = CronJob {
        key,
        meta,
        spec,
        status,
    };
    let cron = Shared::new(alloc, cron)?;
    let marks = CronMarks {
        is_deleting: false,
        is_stuck: false,
    };
    Ok(ClusterCron { uid, marks, cron })
}

// The file of one draft.
fn drafted(alloc: Global, name: Text, draft: CronJobDraft) -> Result<FileCrons, Refusal>
    ensures ok { IfOk result (IsDrafted name draft) }
    ensures err { IfErr result (λ e. e ≡ OutOfMemory) }
{
    let cron = Shared::new(alloc, cron(alloc, draft)?)?;
    let mut crons = Vec::new(alloc);
    crons.push(cron).map_err(|_| Refusal::OutOfMemory)?;
    let crons = Listing::new(alloc, crons)?;
    let list = ClusterList {
        cluster: Cluster::new(alloc),
        notes: ItemNotes::new(alloc),
    };
    Ok(FileCrons {
        name,
        crons,
        list,
        passed: 0,
    })
}

// The file of what a client prints.
fn listed(alloc: Global, name: Text, found: ReadList) -> Result<FileCrons, Refusal>
    ensures ok { IfOk result (IsListed name found.list) }
    ensures err { IfErr result (λ e. e ≡ OutOfMemory) }
{
    let ReadList { list, passed } = found;
    let crons = list.cluster.crons(alloc)?;
    Ok(FileCrons {
        name,
        crons,
        list,
        passed,
    })
}

// A list, and how many objects of other kinds are left out of it.
#[derive(Drop)]
struct ReadList {
    list: ClusterList,
    passed: u64,
}

fn is_other(note: &ItemNote) -> bool
    ensures { result ≡ is_other note.now.said }
{
    match &note.said {
        Said::Kind(_) => true,
        Said::Refused(_) | Said::Taken(_, _) => false,
    }
}

// How many objects are of other kinds.
fn others_count(notes: &[ItemNote]) -> u64 {
    let mut count: u64 = 0;
    for note in notes {
        if is_other(note) {
            count = count.saturating_add(1);
        }
    }
    count
}

// The notes but those of objects of other kinds.
fn own_notes(mut notes: Vec<ItemNote>) -> Vec<ItemNote>
    ensures { result.items ≡ filter (λ n. not (is_other n.said)) notes.items }
{
    notes.retain(|note| !is_other(note));
    notes
}

// The list without objects of other kinds.
fn without_others(list: ClusterList) -> ReadList
    ensures { result.list ≡ without_others list }
{
    let (cluster, notes) = list.into_parts();
    let passed = others_count(notes.as_slice());
    let list = ClusterList {
        cluster,
        notes: ItemNotes::of(own_notes(notes.into_items())),
    };
    ReadList { list, passed }
}

// The list, or that of the same manifests as a server would have them.
fn served_list(
    alloc: Global,
    bytes: &[u8],
    zones: &ZoneTable,
    list: ClusterList,
) -> Result<ReadList, ListFault>
    requires read { IsClusterList (zones_of zones.now) bytes.now list }
    requires some { is_read list.notes ≡ false }
    ensures read { IfOk result (λ r. IsServedList (zones_of zones.now) bytes.now r.list) }
    ensures refused { IfErr result (λ e. e ≡ Memory) }
{
    let Some(served) = served_text(alloc, bytes)? else {
        return Ok(ReadList { list, passed: 0 });
    };
    match read_cluster(alloc, served.as_slice(), zones) {
        Ok(list) => Ok(without_others(list)),
        Err(ListFault::Memory) => Err(ListFault::Memory),
        Err(_) => Ok(ReadList { list, passed: 0 }),
    }
}

// The list of what a client prints, or of manifests.
fn read_list(alloc: Global, bytes: &[u8], zones: &ZoneTable) -> Result<ReadList, ListFault>
    ensures read { IfOk result (λ r. IsServedList (zones_of zones.now) bytes.now r.list) }
    ensures refused { IfErr result (IsRefusedList bytes.now) }
{
    let list = read_cluster(alloc, bytes, zones)?;
    if is_read(list.notes.as_slice()) {
        return Ok(ReadList { list, passed: 0 });
    }
    let read = served_list(alloc, bytes, zones, list)?;
    Ok(read)
}

// What a manifest without a fault says; none where the bytes are no such manifest.
fn draft_of(
    alloc: Global,
    bytes: &[u8],
    zones: &ZoneTable,
) -> Result<Option<CronJobDraft>, ListFault>
    ensures read { IfOk result (λ draft. MatchOption draft
        (DraftsNone (zones_of zones.now) bytes.now) (Drafts (zones_of zones.now) bytes.now)) }
    ensures refused { IfErr result (λ e. e ≡ Memory) }
{
    match read_cronjob(alloc, bytes, zones) {
        Ok((draft, _warnings)) => Ok(Some(draft)),
        Err(Refusal::Syntax) => Ok(None),
        Err(Refusal::Invalid(_)) => Ok(None),
        Err(_) => Err(ListFault::Memory),
    }
}

/// What is read of a file: the manifest of a CronJob without a fault, else what a client prints.
pub(crate) fn read_file(
    alloc: Global,
    file: &CronFile<'_>,
    zones: &ZoneTable,
) -> Result<FileCrons, ListFault>
    ensures read { IfOk result (IsFile (zones_of zones.now) file.now) }
    ensures refused { IfErr result (IsRefusedList file.now.bytes.now) }
{
    let name = Text::new(alloc, file.name)?;
    match draft_of(alloc, file.bytes, zones)? {
        Some(draft) => {
            let read = drafted(alloc, name, draft)?;
            Ok(read)
        }
        None => {
            let found = read_list(alloc, file.bytes, zones)?;
            let read = listed(alloc, name, found)?;
            Ok(read)
        }
    }
}

fn push_read(found: &mut Vec<FileCrons>, read: FileCrons) -> Result<(), ListFault>
    ensures ok { OnOk result (found.new.items ≡ found.old.items ++ read ∷ []) }
    ensures err { IfErr result (λ e. e ≡ Memory) }
{
    found.push(read).map_err(|_| ListFault::Memory)
}

// What is read of one file more, at the end.
fn add_file(
    alloc: Global,
    found: &mut Vec<FileCrons>,
    file: &CronFile<'_>,
    zones: &ZoneTable,
) -> Result<(), ListFault>
    ensures read { OnOk result (AddsFile (zones_of zones.now) file.now found.old.items
        found.new.items) }
    ensures refused { IfErr result (IsRefusedList file.now.bytes.now) }
{
    let read = read_file(alloc, file, zones)?;
    push_read(found, read)?;
    Ok(())
}

/// What is read of each of the files, in their order, or the first that is refused.
pub(crate) fn read_files<'a>(
    alloc: Global,
    files: &[CronFile<'a>],
    zones: &ZoneTable,
) -> Result<Vec<FileCrons>, BadFile<'a>>
    ensures read { IfOk result (λ v. AreFiles (zones_of zones.now) files.now v.items) }
    ensures refused { IfErr result (λ b. Stops (zones_of zones.now) files.now b.file b.fault) }
{
    let mut found = Vec::new(alloc);
    for file in files {
        match add_file(alloc, &mut found, file, zones) {
            Ok(()) => {}
            Err(fault) => return Err(BadFile { file: *file, fault }),
        }
    }
    Ok(found)
}
