ghost use Rattle.cj_fence.specs.Fence.{FenceLaw};
ghost use Rattle.cj_fence.specs.Garbage.{NeverStarted, IsCleared};
ghost use Rattle.cj_fence.specs.Help.{HelpLaw, NeverStuck};
ghost use Rattle.cj_fence.specs.Lost.{NothingIsLost, RunningStays};
ghost use Rattle.cj_fence.specs.Success.{SuccessLaw};

/// For each CronJob, and every list of calls, whoever makes them in whatever order, where each
/// answer is the server's, each sync follows the protocol, and others keep to the premises for this
/// CronJob: no two Jobs of it and of one time are started; a Job that was claimed under Forbid or
/// Replace is started alone; what is started was claimed, once; claimed times rise. And no call of
/// a sync takes `status.lastSuccessfulTime` back.
pub fn fence_law()
    ensures fence { FenceLaw }
    ensures success { SuccessLaw }
{}

/// No call of a sync takes a claimed Job away before it is started, but one that is deleted since
/// its starting deadline has passed; and whoever claimed it and then stopped, the next sync that
/// nobody disturbs starts it. Such a sync isn't stuck before it is done. Others don't disturb it by
/// what leaves its CronJob and the held Jobs of it as they are, and takes no other Job of it away.
/// And no call takes a Job away that runs, but under Replace for one that was claimed later.
pub fn help_law()
    ensures lost { NothingIsLost }
    ensures help { HelpLaw }
    ensures goes_on { NeverStuck }
    ensures running { RunningStays }
{}

/// A held Job that isn't in `status.active` and whose time isn't after `status.lastScheduleTime` is
/// never started, whatever is called afterwards; and an undisturbed sync that has come to its end
/// has removed it.
pub fn no_garbage_law()
    ensures never { NeverStarted }
    ensures cleared { IsCleared }
{}
