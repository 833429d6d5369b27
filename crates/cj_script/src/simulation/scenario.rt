use crate::operations::Operation;
use crate::simulation::runs::Runs;
use crate::simulation::span::Span;
use cj_types::{CronJobDraft, Seconds, Shared};
use cj_zone::ZoneTable;

/// What a user does at an instant of the clock.
pub struct Edit {
    pub at: Seconds,
    pub operation: Operation,
}

impl Drop for Edit {
    fn drop(self) {
        let Edit { at: _, operation } = self;
        drop(operation);
    }
}

/// What the scenario of a run says: the zones that its CronJobs may name, the instants of its
/// clock, the CronJobs that are there from the start, how their Jobs run, and what a user does, in
/// order.
pub struct Simulation {
    pub zones: ZoneTable,
    pub span: Span,
    pub crons: Vec<Shared<CronJobDraft>>,
    pub runs: Runs,
    pub edits: Vec<Edit>,
}

impl Drop for Simulation {
    fn drop(self) {
        let Simulation {
            zones,
            span: _,
            crons: _,
            runs,
            edits: _,
        } = self;
        drop(zones);
        drop(runs);
    }
}
