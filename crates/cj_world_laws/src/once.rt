// Whatever is called by whomever: no scheduled time of a CronJob gets two Jobs, a Job that is made
// under Forbid or Replace is made alone, and the time of each claim is the greatest one missed.
ghost use Rattle.cj_world_laws.specs.once.Once.{OnceAndAlone};
ghost use Rattle.cj_world_laws.specs.once.Times.{AlwaysTimely};

/// Every legal history has each time once, and each Job under Forbid or Replace alone.
pub fn once_law()
    ensures { OnceAndAlone }
{}

/// In every legal history the time of each accepted claim is the greatest one missed by the CronJob
/// that is current at the claim, in its window, at the plan's moment and in the plan's zone.
pub fn time_law()
    ensures { AlwaysTimely }
{}
