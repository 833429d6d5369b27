// The calls that tests of the hub and of workers make.
use cj_calls::Call;
use cj_types::{
    CronJobDraft, CronKey, CronSpec, DraftMeta, HistoryLimit, JobDraft, JobTemplate, Key, Labels,
    Millis, OwnerRefs, Policy, Seconds, Shared, SpecText, Text,
};
use std::alloc::Global;
use std::process::Abort;

/// 2024-01-01T00:00:00Z, as seconds after 1970.
pub const START: u64 = 1_704_067_200;

/// A minute after it: the first at which a Job is due.
pub const FIRST: u64 = START + 60;

/// A minute after that.
pub const SECOND: u64 = START + 120;

fn empty_spec(rt: &impl Abort, alloc: Global) -> SpecText {
    let text = Text::new(alloc, "{}").expect(rt, "memory");
    SpecText::new(alloc, text).expect(rt, "memory")
}

fn spec(rt: &impl Abort, alloc: Global, policy: Policy) -> CronSpec {
    CronSpec {
        schedule: Text::new(alloc, "* * * * *").expect(rt, "memory"),
        time_zone: None,
        policy,
        suspend: false,
        starting_deadline_seconds: None,
        successful_limit: HistoryLimit::from(3),
        failed_limit: HistoryLimit::from(1),
        template: JobTemplate {
            labels: Labels::new(alloc),
            annotations: Labels::new(alloc),
            spec: empty_spec(rt, alloc),
        },
    }
}

fn meta(alloc: Global) -> DraftMeta {
    DraftMeta {
        uid: None,
        version: None,
        labels: Labels::new(alloc),
        annotations: Labels::new(alloc),
    }
}

fn cron(rt: &impl Abort, alloc: Global, name: &str, policy: Policy) -> Shared<CronJobDraft> {
    let draft = CronJobDraft {
        key: CronKey::new(alloc, "default", name).expect(rt, "a key"),
        meta: meta(alloc),
        spec: Shared::new(alloc, spec(rt, alloc, policy)).expect(rt, "memory"),
    };
    Shared::new(alloc, draft).expect(rt, "memory")
}

/// The call that creates a CronJob of every minute at the start.
pub fn create(rt: &impl Abort, alloc: Global, name: &str) -> Call {
    let now = Seconds::new(START).expect(rt, "a moment");
    Call::CreateCron(cron(rt, alloc, name, Policy::Allow), now)
}

/// The call that reads it.
pub fn read(rt: &impl Abort, alloc: Global, name: &str) -> Call {
    Call::GetCron(key(rt, alloc, name))
}

/// The call that changes its policy.
pub fn edit(rt: &impl Abort, alloc: Global, name: &str) -> Call {
    Call::UpdateCron(cron(rt, alloc, name, Policy::Replace))
}

/// The key of the name.
pub fn key(rt: &impl Abort, alloc: Global, name: &str) -> Key {
    Key::new(alloc, "default", name).expect(rt, "a key")
}

/// The call that creates a Job without an owner at the start.
pub fn create_job(rt: &impl Abort, alloc: Global, name: &str) -> Call {
    let draft = JobDraft {
        key: key(rt, alloc, name),
        meta: meta(alloc),
        owners: OwnerRefs::new(alloc),
        spec: empty_spec(rt, alloc),
    };
    let now = Seconds::new(START).expect(rt, "a moment");
    Call::CreateJob(Shared::new(alloc, draft).expect(rt, "memory"), now)
}

/// The call that adds a CronJob's key to the queue.
pub fn add(rt: &impl Abort, alloc: Global, name: &str) -> Call {
    Call::Add(key(rt, alloc, name))
}

/// The call that tells the queue the moment, in milliseconds after 1970.
pub fn tick(rt: &impl Abort, millis: u64) -> Call {
    Call::Tick(Millis::new(millis).expect(rt, "a moment"))
}
