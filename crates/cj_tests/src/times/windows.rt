use cj_base::{Seconds, Text, Version};
use cj_due::window;
use cj_types::{
    CronJob, CronKey, CronSpec, CronStatus, Deadline, HistoryLimit, JobTemplate, Labels, Meta,
    Names, Policy, Shared, SpecText, Uid,
};
use cj_zone::read_time;
use std::alloc::Global;
use std::test::Fail;

fn time(text: &str) -> Result<Seconds, Fail> {
    Ok(read_time(text).ok_or("not a time")?)
}

fn meta(alloc: Global, uid: Uid, created: Seconds) -> Meta {
    Meta {
        uid,
        version: Version::new(1),
        generation: 1,
        created,
        labels: Labels::new(alloc),
        annotations: Labels::new(alloc),
    }
}

fn spec(alloc: Global, schedule: Text, text: SpecText, deadline: Option<Deadline>) -> CronSpec {
    CronSpec {
        schedule,
        time_zone: None,
        policy: Policy::Allow,
        suspend: false,
        starting_deadline_seconds: deadline,
        successful_limit: HistoryLimit::from(3),
        failed_limit: HistoryLimit::from(1),
        template: JobTemplate {
            labels: Labels::new(alloc),
            annotations: Labels::new(alloc),
            spec: text,
        },
    }
}

fn status(alloc: Global, last: Option<Seconds>) -> CronStatus {
    CronStatus {
        active: Names::new(alloc),
        last_schedule_time: last,
        last_successful_time: None,
    }
}

// The lower end for a CronJob created at 08:00 that was last scheduled then and has that deadline.
fn lower(
    alloc: Global,
    last: Option<Seconds>,
    deadline: Option<Deadline>,
    now: Seconds,
) -> Result<Option<Seconds>, Fail> {
    let uid = Uid::new(1).ok_or("not a uid")?;
    let schedule = Text::new(alloc, "* * * * *")?;
    let text = SpecText::new(alloc, Text::new(alloc, "{}")?)?;
    let cron = CronJob {
        key: CronKey::new(alloc, "default", "hello")?,
        meta: meta(alloc, uid, time("2024-01-01T08:00:00Z")?),
        spec: Shared::new(alloc, spec(alloc, schedule, text, deadline))?,
        status: status(alloc, last),
    };
    Ok(window(&cron, now))
}

// rule: window
#[test]
fn window_of_a_cron_job(rt: HostRuntime) -> Result<(), Fail> {
    let alloc = rt.alloc();
    let created = time("2024-01-01T08:00:00Z")?;
    let last = time("2024-01-01T08:29:00Z")?;
    let now = time("2024-01-01T10:21:30Z")?;
    let in_time = time("2024-01-01T10:18:10Z")?;
    let deadline = Some(Deadline::from(200));
    assert_eq!(rt; lower(alloc, Some(last), deadline, now)?, Some(in_time));
    assert_eq!(rt; lower(alloc, Some(last), None, now)?, Some(last));
    assert_eq!(rt; lower(alloc, None, None, now)?, Some(created));
    assert_eq!(rt; lower(alloc, None, None, created)?, None);
    Ok(())
}
