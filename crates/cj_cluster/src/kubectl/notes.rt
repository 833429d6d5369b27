ghost use Rattle.std.specs.Prelude.{◌≡◌, [], ◌∷◌, ◌++◌, IfErr, OnOk, OnErr};
ghost use Rattle.cj_base.specs.declared.refusal.Refusal.TheVariants.{OutOfMemory};
ghost use Rattle.cj_cluster.specs.kubectl.Named.{is_of_noted, is_of_refused};

use crate::kubectl::named::CronName;
use crate::kubectl::object::ObjectNamed;
use cj_types::{FieldFaults, Job, Refusal, Text};
use std::alloc::Global;
use std::marker::Model;

/// The kinds of object that are read.
#[derive(Clone, Copy, Debug, PartialEq, Eq)]
pub enum ListedKind {
    /// A CronJob.
    Cron,
    /// A Job.
    Run,
}

/// Why an item of a list is not among the objects that are read.
#[derive(Debug, Drop)]
pub enum Said {
    /// It is of this kind, which is neither a CronJob's nor a Job's.
    Kind(Text),
    /// It has these faults.
    Refused(FieldFaults),
    /// It is of this kind, and an earlier item of it has its name, which is this as NAMESPACE/NAME.
    Taken(ListedKind, Text),
}

/// What is said of an item of a list.
#[derive(Debug, Drop)]
pub struct ItemNote {
    /// The place of the item, from 1.
    pub place: u64,
    /// Which object it is, as far as its value says.
    pub object: Option<ObjectNamed>,
    /// The CronJob that it is of, as far as its value says.
    pub cron: Option<CronName>,
    pub said: Said,
}

fn is_of_noted(cron: &Option<CronName>, job: &Job) -> bool
    ensures { result ≡ is_of_noted cron.now job.now }
{
    match cron {
        Some(cron) => cron.controls(job),
        None => false,
    }
}

/// Whether the Job is of a CronJob whose item can't be used.
pub fn is_of_refused(notes: &[ItemNote], job: &Job) -> bool
    ensures { result ≡ is_of_refused notes.now job.now }
{
    notes.iter().any(|note| is_of_noted(&note.cron, job))
}

/// Notes in the order of their items, which contracts see as a list.
#[derive(Debug, Drop)]
pub struct ItemNotes {
    items: Vec<ItemNote>,
}

impl Model for ItemNotes {
    ghost use Rattle.std.specs.Prelude.{List};
    ghost use Rattle.cj_cluster.specs.declared.kubectl.notes.ItemNote.{ItemNote};

    ghost Value = { List ItemNote };

    ghost view = { λ t. t.items.items };
}

impl ItemNotes {
    /// No note.
    pub fn new(alloc: Global) -> ItemNotes
        ensures { result ≡ [] }
    {
        ItemNotes {
            items: Vec::new(alloc),
        }
    }

    /// The notes in their order.
    pub fn as_slice(&self) -> &[ItemNote]
        ensures { result.now ≡ self.now }
    {
        self.items.as_slice()
    }

    /// These notes.
    pub fn of(items: Vec<ItemNote>) -> ItemNotes
        ensures { result ≡ items.items }
    {
        ItemNotes { items }
    }

    /// The notes in a vector of their own.
    pub fn into_items(self) -> Vec<ItemNote>
        ensures { result.items ≡ self }
    {
        self.items
    }

    /// One note more, at the end; unchanged where there is no memory.
    pub fn push(&mut self, note: ItemNote) -> Result<(), Refusal>
        ensures ok { OnOk result (self.new ≡ self.old ++ note ∷ []) }
        ensures err { OnErr result (self.new ≡ self.old) }
        ensures memory { IfErr result (λ e. e ≡ OutOfMemory) }
    {
        self.items.push(note).map_err(|_| Refusal::OutOfMemory)
    }
}
