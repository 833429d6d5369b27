// The errand of a sync: what it is at, beside what the protocol knows of it.
use crate::machine::error_log::ErrorLog;
use cj_base::Text;
use cj_control::CronParts;
use cj_fence::{Job, Ref, Row};
use cj_types::{Key, Reason};

/// What a sync is at.
#[derive(Clone, Copy, Debug, PartialEq, Eq)]
pub(crate) enum Stage {
    /// The CronJob is read, and the Jobs of its status.
    Reading,
    /// All Jobs with the label of the CronJob are being listed.
    Listing,
    /// A held Job is being created.
    Creating,
    /// The name was taken: the Job that has it is being read.
    Asking,
    /// The held Job is being claimed, and then started.
    Starting,
    /// A Job that another sync claimed is being started.
    Helping,
    /// The status is being tidied, and then the Jobs.
    Tidying,
}

/// When a key is synced again.
#[derive(Drop)]
pub(crate) enum Again {
    /// When something of it changes.
    Never,
    /// In this second since 1970, if not before.
    At(u64),
    /// So many milliseconds later.
    After(u64),
    /// By the queue's delays.
    Failed,
    /// So many milliseconds later, and the CronJob is read by a GET.
    Live(u64),
}

/// What was read of a CronJob, beside what the protocol takes.
pub(crate) struct CronRead {
    /// The object, as JSON.
    pub text: String,
    /// Whether it carries `cronsim/run: "true"`.
    pub is_annotated: bool,
    /// Whether it has a deletionTimestamp.
    pub is_deleting: bool,
    /// `spec.timeZone`.
    pub zone: Option<Text>,
}

impl Drop for CronRead {
    fn drop(self) {
        let CronRead {
            text,
            is_annotated: _,
            is_deleting: _,
            zone,
        } = self;
        drop(text);
        drop(zone);
    }
}

/// What the decision asks of a sync.
pub(crate) struct Planned {
    /// The time that a Job is to be started for.
    pub time: Option<u64>,
    /// How many times before it, since the last schedule time, get no Job; 0 if more than 100.
    pub passed: u64,
    /// The names of the Jobs that the history limits let go.
    pub surplus: Vec<Text>,
    /// When a sync is due again.
    pub next: Option<u64>,
    /// Why no Job is started, or that many times were missed.
    pub reason: Option<Reason>,
}

impl Drop for Planned {
    fn drop(self) {
        let Planned {
            time: _,
            passed: _,
            surplus: _,
            next: _,
            reason: _,
        } = self;
    }
}

/// What a Job under a name that was taken says.
#[derive(Clone, Copy)]
pub(crate) struct FoundJob {
    pub is_deleting: bool,
    /// Whether it is the CronJob's, and of the time that was to be made.
    pub is_same: bool,
    pub is_held: bool,
    /// Whether it was made by the same template.
    pub has_mark: bool,
    /// Whether it isn't held in a way that this version doesn't know.
    pub has_known_hold: bool,
}

/// A sync under way.
pub(crate) struct Task {
    pub key: Key,
    /// NAMESPACE/NAME.
    pub name: Text,
    /// Its number in the ledger.
    pub number: u64,
    /// Whether the CronJob is read by a GET.
    pub is_live: bool,
    /// Whether the CronJob that was read lacks its jobTemplate.
    pub is_cut: bool,
    /// How many claims in a row were refused by a conflict.
    pub conflicts: u64,
    /// Whether the Job of the name is looked for before one is created.
    pub asks_first: bool,
    /// The last schedule time that was read.
    pub last: u64,
    /// The time that was planned; 0 for none.
    pub due: u64,
    /// Whether this sync claimed its time.
    pub has_claimed: bool,
    /// How many references of `status.active` name no Job.
    pub nameless: u64,
    /// The errors that the API server answered to calls of this sync and of earlier ones.
    pub errors: ErrorLog,
    pub stage: Stage,
    /// Whether the second name of a Job is tried.
    pub is_second: bool,
    /// The HTTP status of the last answer; 0 where none came.
    pub status: u64,
    /// The request that it waits for.
    pub id: Option<u64>,
    /// What its requests need.
    pub parts: CronParts,
    pub cron: Option<CronRead>,
    pub plan: Option<Planned>,
    pub found: Option<FoundJob>,
    /// The Jobs with the label of the CronJob, once they were listed.
    pub listed: Option<Vec<Row<Job>>>,
    /// Whether one of these runs, or may still be started, that the status doesn't name.
    pub is_held_back: bool,
    /// The Job that waits to be helped, and since when.
    pub waits: Option<(Text, u64)>,
    /// The uid of the Job that was read last of those that are held in a way that this version
    /// doesn't know.
    pub unknown_hold: Option<Text>,
    /// Such a Job that is left to a newer version.
    pub left_job: Option<Ref>,
    /// A zone that is wanted.
    pub wants: Option<Text>,
    /// Why the CronJob is left alone: the reason of an Event, and words.
    pub refused: Option<(&'static str, String)>,
    /// Since when it waits for an answer, in seconds since 1970.
    pub asked_at: u64,
}

impl Drop for Task {
    fn drop(self) {
        let Task {
            key,
            name,
            number: _,
            is_live: _,
            is_cut: _,
            conflicts: _,
            asks_first: _,
            last: _,
            due: _,
            has_claimed: _,
            nameless: _,
            errors,
            stage: _,
            is_second: _,
            status: _,
            id: _,
            parts,
            cron,
            plan,
            found: _,
            listed,
            is_held_back: _,
            waits: _,
            unknown_hold: _,
            left_job: _,
            wants: _,
            refused: _,
            asked_at: _,
        } = self;
        drop(key);
        drop(name);
        drop(errors);
        drop(parts);
        drop(cron);
        drop(plan);
        drop(listed);
    }
}
