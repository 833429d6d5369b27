ghost use Rattle.cj_control.specs.Created.{CreatedLaw};
ghost use Rattle.cj_control.specs.Requests.{HoldLaw, StartLaw};
ghost use Rattle.cj_control.specs.Sent.{SegmentLaw};
ghost use Rattle.cj_control.specs.Syncs.{FollowLaw};

/// Whatever a controller's syncs hear: each follows the protocol of the fenced start and asks one
/// thing at a time, and of a CronJob one at most is under way.
pub fn follow_law()
    ensures { FollowLaw }
{}

/// A created Job reads back as the one that was asked for, held.
pub fn created_law()
    ensures { CreatedLaw }
{}

/// Two holds have different texts, so a created Job is started by the start of its hold alone.
pub fn start_law()
    ensures texts { HoldLaw }
    ensures starts { StartLaw }
{}

/// A name of unreserved characters stays as it is in a path, and no name adds a segment.
pub fn segment_law()
    ensures { SegmentLaw }
{}
