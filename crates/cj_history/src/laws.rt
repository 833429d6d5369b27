ghost use Rattle.cj_history.specs.Legal.{AlwaysExclusive, LegalLaw, OneAnswer};
ghost use Rattle.cj_history.specs.Once.{OnceAndAlone};
ghost use Rattle.cj_history.specs.Times.{AlwaysTimely};

/// A history is legal, with the state that its calls leave one after the other, just where each of
/// its answers is the one that looking back over the entries before it gives.
pub fn legal_law()
    ensures { LegalLaw }
{}

/// Looking back gives a call just one answer, which is the one that the state gives.
pub fn answer_law()
    ensures { OneAnswer }
{}

/// Between two Takes of a key its first taker has ended its sync.
pub fn exclusive_law()
    ensures { AlwaysExclusive }
{}

/// No two Jobs are made for one CronJob, by its uid, and one time; and where a Job is made whose
/// claim was accepted under Forbid or Replace, no other Job of its CronJob is unfinished.
pub fn once_law()
    ensures { OnceAndAlone }
{}

/// The time of each accepted claim is the greatest one missed by the CronJob that is current at the
/// claim at the key that its worker holds.
pub fn time_law()
    ensures { AlwaysTimely }
{}
