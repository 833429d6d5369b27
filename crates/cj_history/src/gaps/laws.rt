ghost use Rattle.cj_history.specs.gaps.Whole.{ToldIsMade};

/// In a legal history a time of a CronJob, by its uid, got its Job by what is told just where it is
/// one of those for which a Job was made, as long as there are uids. So what `gaps_of` counts as
/// made is what `once_law` and `every_time_law` speak of.
pub fn made_or_told_law()
    ensures { ToldIsMade }
{}
