use crate::{Cron, Job, Ref, Refs};
use cj_base::Text;

/// A claim: a merge patch of a CronJob's `/status` that gives a time and its Job, on condition of
/// uid and version.
#[derive(Drop)]
pub struct Claim {
    /// The CronJob's name.
    pub name: Text,
    /// `metadata.uid` as sent: any other is refused.
    pub uid: Text,
    /// `metadata.resourceVersion` as sent: any other is refused.
    pub version: Text,
    /// `status.lastScheduleTime` as sent.
    pub time: u64,
    /// The Job that gets this time.
    pub job: Ref,
    /// `status.active` as sent.
    pub active: Refs,
    /// `status.lastSuccessfulTime` as sent, if it is sent.
    pub success: Option<u64>,
}

/// A status without its dead: a merge patch of a CronJob's `/status` that leaves the last schedule
/// time.
#[derive(Drop)]
pub struct Tidy {
    /// The CronJob's name.
    pub name: Text,
    /// `metadata.uid` as sent: any other is refused.
    pub uid: Text,
    /// `metadata.resourceVersion` as sent: any other is refused.
    pub version: Text,
    /// `status.active` as sent.
    pub active: Refs,
    /// `status.lastSuccessfulTime` as sent, if it is sent.
    pub success: Option<u64>,
}

/// A call of a controller at the API server.
#[derive(Drop)]
pub enum Call {
    /// GET of the CronJob of the name.
    GetCron(Text),
    /// The CronJob of the name as a watch's cache has it: it stood there now or earlier.
    CacheCron(Text),
    /// GET of the Job of the name.
    GetJob(Text),
    /// The Job of the name as a watch's cache has it.
    CacheJob(Text),
    /// All Jobs, by a list or by a watch's cache.
    ListJobs,
    /// POST of a Job under a name. Its uid and version aren't read: the server gives them.
    Create(Text, Job),
    /// A claim of a time for a Job.
    Claim(Claim),
    /// The status without its dead.
    Tidy(Tidy),
    /// A JSON patch of a Job that tests its uid and that it is held, and takes the hold away.
    Start(Ref),
    /// DELETE of a Job, on condition of its uid.
    Delete(Ref),
    /// DELETE of a Job whose starting deadline has passed at the moment, on condition of its uid
    /// and of its version.
    Expire(Ref, Text, u64),
}

/// A write of somebody else: a user, the Job controller, the garbage collector.
#[derive(Drop)]
pub enum Write {
    /// A CronJob is created or replaced, in any part. Its uid and version aren't read: the server
    /// gives them.
    PutCron(Text, Cron),
    /// A CronJob goes.
    DropCron(Text),
    /// A Job is created or replaced, in any part. Its uid and version aren't read: the server gives
    /// them.
    PutJob(Text, Job),
    /// A Job goes.
    DropJob(Text),
}
