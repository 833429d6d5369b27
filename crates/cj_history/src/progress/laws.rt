ghost use Rattle.cj_history.specs.progress.Apart.{SyncsGoOn};
ghost use Rattle.cj_history.specs.progress.Every.{EachDueTime, EachEnded, EachMinute, EveryTime};
ghost use Rattle.cj_history.specs.progress.Every.{EveryTimeSince, ForbiddenHoldsBack, LetsAlways};
ghost use Rattle.cj_history.specs.progress.Kept.{NoKeyIsLost};
ghost use Rattle.cj_history.specs.progress.Prompt.{EachAllowed, EachEndedInTime, EachInTime, SyncsKeepUp};
ghost use Rattle.cj_history.specs.progress.Syncs.{MakesJob};

/// After any history a key that was added, and not taken since, stands in the line, or somebody
/// holds it and it goes there after the end of his sync. A CronJob whose sync ended well, with a
/// next time, stands in the line or waits for that time or an earlier one until it is taken, and
/// stands there once a moment at or past that time was told. So does one whose sync is to be tried
/// again, for the moment of its end and the delay of its failures before. Adds and delayed adds
/// after a shutdown are none.
pub fn no_key_is_lost_law()
    ensures { NoKeyIsLost }
{}

/// A worker that holds no key takes the first of the line, whose CronJob stands, and calls its
/// sync, while others call what they like, but write neither that CronJob nor, from the claim on,
/// the Job of the name that is to be made. Each of its calls is accepted by the answer that the
/// history determines, so where there is memory for it, and room in the history. Where a time was
/// missed, and neither the CronJob nor its policy keeps a Job from being started, the Job for the
/// latest one stands in the end, unfinished, and the CronJob's status names it; of all Jobs that
/// were made it is the only one for that CronJob, by its uid, and that time, as long as there are
/// uids; what the plan cleans up is gone, and under Replace what ran. Where the name of that Job is
/// taken, by one that isn't dropped first, the claim and the drops before the making are accepted
/// and the making refused. Where the CronJob is suspended, its zone isn't known, nothing was
/// missed, or Forbid keeps a Job from being started, nothing is claimed, no Job is made, the last
/// time that was scheduled stays, and the plan is worked off likewise. What a plan cleans up is
/// never an unfinished Job of the CronJob, whatever others call.
pub fn progress_law()
    ensures { MakesJob }
{}

/// A CronJob stands, isn't suspended and has a schedule; and the last time that was scheduled for
/// it, if there is one, has its Job. From then on a sync of it that nobody disturbs takes place at
/// each of some moments, none before the one before it, in one zone, and finds the name of its Job
/// free; and nothing else writes the CronJob. Then the Jobs that are made for it, by its uid, are
/// one for the greatest due time of each interval from one moment at which its policy let a Job
/// start to the next, where one is due in it, and no others. The first interval begins at the last
/// time that was scheduled, or at the creation where there was none; and none begins before the
/// starting deadline of its own moment.
///
/// Under Allow and Replace the policy lets a Job start at each moment. A sync at whose moment
/// Forbid forbids it makes none, and tells JobAlreadyActive where a time is due in its interval.
///
/// From its creation on these are all Jobs that are ever made for it. Where of no interval more
/// than one time is due, and none that the deadline cuts off, they are for just the times that are
/// due up to the last moment at which the policy let a Job start. So with a sync a minute from the
/// creation on, where the deadline, if there is one, is a minute or more: under Allow and Replace
/// they are for just the times due up to the last moment; and under each policy where each Job of
/// the CronJob had ended whenever a sync looked what runs after a time had become due.
pub fn every_time_law()
    ensures from_then { EveryTime }
    ensures let_always { LetsAlways }
    ensures held_back { ForbiddenHoldsBack }
    ensures since_creation { EveryTimeSince }
    ensures each { EachDueTime }
    ensures minutely { EachMinute }
    ensures ended { EachEnded }
{}

/// A CronJob stands and nobody holds its key. From then on no call of a worker that holds it is
/// refused, no sync of it is tried again, and each tells the reasons of its plan. Each plan that is
/// claimed for it is of the moment that a clock tells, which doesn't go back, and of one zone, and
/// finds the name of its Job free. Nobody else writes the CronJob, nor, while somebody holds its
/// key, a Job of a name that is made for it. Then, when nobody holds the key in the end, there were
/// whole syncs of it that nobody disturbed, at moments none of which is before the one before it or
/// after the clock's last, and nothing else wrote the CronJob.
pub fn syncs_law()
    ensures { SyncsGoOn }
{}

/// What syncs_law supposes of each entry holds, from within a minute of where the first interval
/// begins. A sync of the CronJob is awaited from there on until its key is taken, and then from the
/// next time of its last sync on. The clock goes on by at most a minute with each entry, and only
/// where nobody holds the key, and no sync is awaited from a time on that has come; in the end none
/// is, and the clock is less than 3,000 days on. Then nothing is due since the moment of the last
/// sync, and a minute before the moment of each one nothing was due since the one before it.
///
/// So, from the creation of the CronJob on, where the deadline, if there is one, is a minute or
/// more, the Jobs that are made for it are just those of the times that are due up to the clock's
/// last moment: under Allow and Replace; and under each policy where no sync of it told that a Job
/// runs already, or where each Job of the CronJob had ended whenever a sync looked what runs after
/// a time had become due.
pub fn keeping_up_law()
    ensures keep_up { SyncsKeepUp }
    ensures each { EachInTime }
    ensures allowed { EachAllowed }
    ensures ended { EachEndedInTime }
{}
