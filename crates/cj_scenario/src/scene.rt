use cj_types::{CronJob, Job, Listing, Shared};
use cj_zone::ZoneTable;

/// What a scenario says: a CronJob as it was created, with its last schedule time and the names of
/// its Jobs that run; its Jobs in the order in which they are given; what a live read finds for
/// each of those names; and the zones that the CronJob may name.
#[derive(Drop)]
pub struct Scene {
    pub zones: ZoneTable,
    pub cron: Shared<CronJob>,
    pub jobs: Listing<Shared<Job>>,
    pub active: Listing<Option<Shared<Job>>>,
}
