// What comes of what a run does.
ghost use Rattle.cj_run.specs.Simulations.{ReadEditsAreTimed};
ghost use Rattle.cj_run.specs.Syncs.{RunCreates, RunKeepsUp, RunMakesEach, RunMakesEachAllowed};
ghost use Rattle.cj_run.specs.Syncs.{RunMakesEachEnded, RunSyncs};

/// A CronJob that is there from the start is created at the moment of a run's first instant, and
/// one that an edit creates at the moment of the edit's: that of the instant that begins next. It
/// is so where each edit of the scenario creates at its own moment, as in each scenario that was
/// read.
pub fn run_times_law()
    ensures read { ReadEditsAreTimed }
    ensures created { RunCreates }
{}

/// From the creation of a CronJob on, at the start of a run or by an edit at any instant, a run
/// makes whole syncs of it, at moments that go on, which nobody disturbs, and nothing else writes
/// it; as long as there are uids, if the scenario's table has its zone and no operation that the
/// scenario has after the creation writes it, and if no entry troubles the CronJob: no call of a
/// worker that holds its key is refused, no sync of it is to be tried again, and each tells the
/// reasons of its plan; the name of its Job isn't taken; and no sync of another CronJob deletes a
/// Job of a name that is made for it.
pub fn run_syncs_law()
    ensures { RunSyncs }
{}

/// Suppose besides that the instants of a run are at most a minute apart, and that the CronJob is
/// created at most 3,000 days before the last. Then its syncs keep up with the clock: nothing is
/// due since the last one, and a minute before the moment of each one nothing was due since the one
/// before it. So where its deadline, if it has one, is a minute or more, the Jobs that are made for
/// it are exactly one for each due time from its creation up to the last instant, in their order:
/// under Allow and Replace; and under each policy where no sync of it told that a Job runs already,
/// or where each of its Jobs had ended whenever a sync looked what runs after a time had become
/// due.
pub fn run_due_times_law()
    ensures keep_up { RunKeepsUp }
    ensures each { RunMakesEach }
    ensures allowed { RunMakesEachAllowed }
    ensures ended { RunMakesEachEnded }
{}
