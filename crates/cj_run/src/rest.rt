// The informer of a run, and how it waits until the work of an instant is done.
ghost use Rattle.std.specs.Prelude.{◌≡◌, OnOk};
ghost use Rattle.cj_run.specs.Follows.{Follows, StepsOn, StepsOrStays};

use crate::error::RunError;
use cj_hub::{AtRest, Hub, HubState, Pass};
use cj_informer::Informer;
use cj_types::{Millis, Refusal};
use std::sync::Wait;
use std::thread;

/// The informer, which follows the writes to the store, with the pass by which it calls.
#[derive(Drop)]
pub(crate) struct Follower {
    pub informer: Informer,
    pub pass: Pass,
}

impl Follower {
    // Makes one step of the informer, while the lock is held.
    #[tactic(auto, using(crate::proofs::Followed::steps_on))]
    fn step<R: Wait>(&mut self, rt: &R, hub: &Hub, now: Millis) -> Result<(), Refusal>
        ensures { OnOk result (StepsOn now self.old self.new) }
    {
        let mut desk = hub.hold(rt);
        self.informer.step(&mut desk, &mut self.pass, now)
    }

    // Waits until the hub is at rest or has something to look at. Where there are writes to follow,
    // the informer makes a step.
    fn step_or_rest<R: Wait>(
        &mut self,
        rt: &R,
        hub: &Hub,
        now: Millis,
    ) -> Result<Option<AtRest>, RunError>
        ensures { OnOk result (StepsOrStays now self.old self.new) }
    {
        match hub.rest_wait(rt, self.informer.seen()) {
            Ok(rest) => Ok(Some(rest)),
            Err(HubState::Broken) => Err(RunError::GivenUp),
            Err(HubState::Behind) => {
                self.step(rt, hub, now)?;
                Ok(None)
            }
            Err(HubState::Busy) => {
                thread::yield_now();
                Ok(None)
            }
            Err(HubState::Quiet) => unreachable!(),
        }
    }

    /// Makes steps of the informer at the moment until the hub is at rest.
    #[tactic(auto, using(crate::proofs::Followed::follows_first, crate::proofs::Followed::follows_more))]
    pub(crate) fn settle<R: Wait>(
        &mut self,
        rt: &R,
        hub: &Hub,
        now: Millis,
    ) -> Result<AtRest, RunError>
        ensures { OnOk result (Follows now self.old self.new) }
    {
        self.step(rt, hub, now)?;
        for _ in rt.forever() {
            if let Some(rest) = self.step_or_rest(rt, hub, now)? {
                return Ok(rest);
            }
        }
        unreachable!()
    }
}
