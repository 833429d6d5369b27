ghost use Rattle.cj_decide.specs.laws.Fits.{DecidedFits};
ghost use Rattle.cj_decide.specs.laws.Laws.{OnePlan, ClaimsLatest, ClaimsInTime, NoClaim, OldestFirst, AllRunning, CleansFinished, NamesAtEnd};

/// The laws of plans. The inputs (a CronJob or none, the listed Jobs, the live read, the moment and
/// the zone) have at most one plan. A plan that claims a time claims the latest one missed, which
/// is above the last scheduled one and not above the moment; it creates that time's Job, and leaves
/// only such Jobs running as the policy allows. A plan that claims no time creates no Job and
/// deletes none first. The running Jobs are those that the live read found unfinished, by creation
/// time, then name. No unfinished Job of the CronJob is cleaned up. The final status names just the
/// Jobs that were found unfinished and aren't deleted, and the Job that is created.
pub fn plan_laws()
    ensures one_plan { OnePlan }
    ensures claims_latest { ClaimsLatest }
    ensures claims_in_time { ClaimsInTime }
    ensures no_claim { NoClaim }
    ensures oldest_first { OldestFirst }
    ensures all_running { AllRunning }
    ensures cleans_finished { CleansFinished }
    ensures names_at_end { NamesAtEnd }
{}

/// The facts about each plan by which, in a history of syncs, no time of a CronJob gets two Jobs,
/// and no Job overlaps an unfinished one where the policy forbids it.
pub fn fits_law()
    ensures { DecidedFits }
{}
