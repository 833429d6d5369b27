use crate::step::Step;
use cj_types::Limits;
use cj_zone::ZoneTable;

/// What a script says: the zones that its CronJobs may name, the limits of its world, and its steps
/// in their order.
pub struct Script {
    pub zones: ZoneTable,
    pub limits: Limits,
    pub steps: Vec<Step>,
}

impl Drop for Script {
    fn drop(self) {
        let Script {
            zones,
            limits: _,
            steps: _,
        } = self;
        drop(zones);
    }
}
