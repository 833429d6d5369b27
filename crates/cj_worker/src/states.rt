//! A key that was taken, at each stage of its sync. Each value has to be spent: by going on, or by
//! giving the key up.
ghost use Rattle.std.specs.Prelude.{◌≡◌, [], ◌∷◌, ◌++◌, map, IsTrue};
ghost use Rattle.cj_calls.specs.declared.call.Call.TheVariants as Of;
ghost use Rattle.cj_calls.specs.declared.end.End.TheVariants.{Well};
ghost use Rattle.cj_hub.specs.Runs.{Adds, FoundFull};
ghost use Rattle.cj_worker.specs.Ends.{EndsFull};
ghost use Rattle.cj_worker.specs.Outlines.{IsOutline, call_by};
ghost use Rattle.cj_worker.specs.Syncs.{IsEarly, IsRest, calls_of, is_key, key_in, reasons_by, reasons_with};
ghost use Rattle.cj_worker.specs.Errors.{FromChecked, FromHeld, FromListed, FromSeen, HasFailed, ErrorFull, reasons_at};

use crate::asking::{make, see_active, see_cron, see_jobs};
use crate::context::SyncContext;
use crate::ending::SyncEnd;
use crate::error::{SyncError, why_of};
use crate::gate::{Clock, Gate, Point, Turn};
use crate::outline::Outline;
use crate::planned::{Decided, decide_now};
use crate::steps::take_steps;
use cj_calls::{Call, End, Reply};
use cj_hub::{Desk, Pass, Receipt};
use cj_types::{CronJob, Job, Key, Listing, Reasons, Refusal, Shared};
use std::marker::Model;

/// A key in this worker's hands, with the receipt of its Take. Contracts see the key.
pub(crate) struct Held {
    took: Receipt,
}

impl Model for Held {
    ghost use Rattle.std.specs.Prelude.{IsTrue};
    ghost use Rattle.cj_types.specs.Keys.{Place};
    ghost use Rattle.cj_worker.specs.Syncs.{is_key, key_in};

    ghost Value = { Place };

    ghost view = { λ h. key_in h.took.entry.answer };

    ghost invariant = { λ h. IsTrue (is_key h.took.entry.answer) };
}

/// A key whose CronJob was seen.
pub(crate) struct Seen {
    held: Held,
    cron: Option<Shared<CronJob>>,
}

/// A key whose CronJob was seen, and whose Jobs were listed.
pub(crate) struct Listed {
    held: Held,
    cron: Option<Shared<CronJob>>,
    jobs: Listing<Shared<Job>>,
}

/// A key of which all that a plan rests on was seen: the CronJob, the listed Jobs, and what the
/// active ones are by now.
pub(crate) struct Checked {
    held: Held,
    cron: Option<Shared<CronJob>>,
    jobs: Listing<Shared<Job>>,
    active: Listing<Option<Shared<Job>>>,
}

/// A key with a claimed plan, of which the steps and the Finish remain.
pub(crate) struct Claimed {
    held: Held,
    outline: Outline,
}

impl Held {
    /// The key that a Take was answered with.
    pub(crate) fn new(took: Receipt) -> Held
        requires { IsTrue (is_key took.entry.answer) }
        ensures { result ≡ key_in took.entry.answer }
    {
        Held { took }
    }

    /// The key.
    pub(crate) fn key(&self) -> &Key
        ensures { result.now ≡ self.now }
    {
        match self.took.answer() {
            Ok(Reply::Key(key)) => key,
            _ => unreachable!(),
        }
    }

    /// Ends the sync with no further call. The key stays held.
    pub(crate) fn abandon(self, point: Point) -> SyncEnd
        ensures { result ≡ SyncEnd.Stopped point }
    {
        let Held { took: _ } = self;
        SyncEnd::Stopped(point)
    }

    /// Ends the sync by a Finish that asks for another try.
    fn retry<D: Desk, G: Gate, C: Clock>(
        self,
        context: SyncContext<'_, G, C>,
        desk: &mut D,
        pass: &mut Pass,
        why: Refusal,
        reasons: Reasons,
    ) -> SyncEnd
        ensures adds { Adds D.tells (D.history desk.old) (D.history desk.new) pass.old pass.new
            (λ es. IsEarly (C.gives context.entry.clock.now) reasons why es result) }
        ensures full { EndsFull result
            (FoundFull D.tells (D.history desk.new) (D.refused_full desk.new)) }
    {
        let Held { took: _ } = self;
        let reading = context.clock.now();
        match make(
            desk,
            pass,
            Call::Finish(End::Again(reading.millis), reasons),
        ) {
            Ok(()) => SyncEnd::Retried(why),
            Err(error) => SyncEnd::Broken(why_of(error)),
        }
    }

    /// Ends the sync after an error.
    fn fail<D: Desk, G: Gate, C: Clock>(
        self,
        context: SyncContext<'_, G, C>,
        desk: &mut D,
        pass: &mut Pass,
        error: SyncError,
        reasons: Reasons,
    ) -> SyncEnd
        requires { ErrorFull error
            (FoundFull D.tells (D.history desk.old) (D.refused_full desk.old)) }
        ensures adds { Adds D.tells (D.history desk.old) (D.history desk.new) pass.old pass.new
            (λ es. HasFailed (C.gives context.entry.clock.now) reasons error es result) }
        ensures full { EndsFull result
            (FoundFull D.tells (D.history desk.new) (D.refused_full desk.new)) }
    {
        match error {
            SyncError::Refused(why) => self.retry(context, desk, pass, why, reasons),
            SyncError::Starved => self.retry(context, desk, pass, Refusal::OutOfMemory, reasons),
            SyncError::Lost(why) => {
                let Held { took: _ } = self;
                SyncEnd::Broken(why)
            }
        }
    }

    /// Looks at the CronJob, and goes on from there.
    pub(crate) fn see_cron<D: Desk, G: Gate, C: Clock>(
        self,
        context: SyncContext<'_, G, C>,
        desk: &mut D,
        pass: &mut Pass,
    ) -> SyncEnd
        ensures adds { Adds D.tells (D.history desk.old) (D.history desk.new) pass.old pass.new
            (λ es. FromHeld (C.gives context.entry.clock.now) (G.may_stop context.entry.gate.now)
            context.entry.zones.now self es result) }
        ensures full { EndsFull result
            (FoundFull D.tells (D.history desk.new) (D.refused_full desk.new)) }
    {
        match see_cron(context.alloc, desk, pass) {
            Ok(cron) => match context.gate.at(Point::Seen, self.key()) {
                Turn::Go => Seen { held: self, cron }.list_jobs(context, desk, pass),
                Turn::Stop => self.abandon(Point::Seen),
            },
            Err(error) => self.fail(context, desk, pass, error, Reasons::new(context.alloc)),
        }
    }
}

impl Seen {
    /// Lists the Jobs, and goes on from there.
    fn list_jobs<D: Desk, G: Gate, C: Clock>(
        self,
        context: SyncContext<'_, G, C>,
        desk: &mut D,
        pass: &mut Pass,
    ) -> SyncEnd
        ensures adds { Adds D.tells (D.history desk.old) (D.history desk.new) pass.old pass.new
            (λ es. FromSeen (C.gives context.entry.clock.now) (G.may_stop context.entry.gate.now)
            context.entry.zones.now self.held self.cron es result) }
        ensures full { EndsFull result
            (FoundFull D.tells (D.history desk.new) (D.refused_full desk.new)) }
    {
        let Seen { held, cron } = self;
        match see_jobs(context.alloc, desk, pass) {
            Ok(jobs) => match context.gate.at(Point::Listed, held.key()) {
                Turn::Go => {
                    let listed = Listed { held, cron, jobs };
                    listed.check_active(context, desk, pass)
                }
                Turn::Stop => held.abandon(Point::Listed),
            },
            Err(error) => held.fail(context, desk, pass, error, Reasons::new(context.alloc)),
        }
    }
}

impl Listed {
    /// Asks what the active Jobs are by now, and goes on from there.
    fn check_active<D: Desk, G: Gate, C: Clock>(
        self,
        context: SyncContext<'_, G, C>,
        desk: &mut D,
        pass: &mut Pass,
    ) -> SyncEnd
        ensures adds { Adds D.tells (D.history desk.old) (D.history desk.new) pass.old pass.new
            (λ es. FromListed (C.gives context.entry.clock.now) (G.may_stop context.entry.gate.now)
            context.entry.zones.now self.held self.cron self.jobs es result) }
        ensures full { EndsFull result
            (FoundFull D.tells (D.history desk.new) (D.refused_full desk.new)) }
    {
        let Listed { held, cron, jobs } = self;
        match see_active(context.alloc, desk, pass) {
            Ok(active) => {
                let checked = Checked {
                    held,
                    cron,
                    jobs,
                    active,
                };
                checked.decide(context, desk, pass)
            }
            Err(error) => held.fail(context, desk, pass, error, Reasons::new(context.alloc)),
        }
    }
}

impl Checked {
    /// Decides, at one reading of the clock, and goes on with the plan.
    fn decide<D: Desk, G: Gate, C: Clock>(
        self,
        context: SyncContext<'_, G, C>,
        desk: &mut D,
        pass: &mut Pass,
    ) -> SyncEnd
        ensures adds { Adds D.tells (D.history desk.old) (D.history desk.new) pass.old pass.new
            (λ es. FromChecked (C.gives context.entry.clock.now) (G.may_stop context.entry.gate.now)
            context.entry.zones.now self.held self.cron self.jobs self.active es result) }
        ensures full { EndsFull result
            (FoundFull D.tells (D.history desk.new) (D.refused_full desk.new)) }
    {
        let Checked {
            held,
            cron,
            jobs,
            active,
        } = self;
        match decide_now(context, cron, jobs, active) {
            Ok(decided) => claim(context, desk, pass, held, decided),
            Err(why) => held.retry(context, desk, pass, why, Reasons::new(context.alloc)),
        }
    }
}

fn claim<D: Desk, G: Gate, C: Clock>(
    context: SyncContext<'_, G, C>,
    desk: &mut D,
    pass: &mut Pass,
    held: Held,
    decided: Decided,
) -> SyncEnd
    requires { IsOutline decided.plan decided.outline }
    ensures adds { Adds D.tells (D.history desk.old) (D.history desk.new) pass.old pass.new
        (λ es. IsRest (C.gives context.entry.clock.now)
        (λ point. G.may_stop context.entry.gate.now point held)
        (reasons_with decided.plan) (calls_of decided.plan) es result) }
    ensures full { EndsFull result
        (FoundFull D.tells (D.history desk.new) (D.refused_full desk.new)) }
{
    let Decided { plan, outline } = decided;
    match make(desk, pass, Call::Claim(plan)) {
        Ok(()) => match context.gate.at(Point::Claimed, held.key()) {
            Turn::Go => Claimed { held, outline }.run_plan(context, desk, pass),
            Turn::Stop => held.abandon(Point::Claimed),
        },
        Err(error) => fail_with(context, desk, pass, held, error, outline),
    }
}

impl Claimed {
    /// Makes the steps of the plan, and ends the sync.
    fn run_plan<D: Desk, G: Gate, C: Clock>(
        self,
        context: SyncContext<'_, G, C>,
        desk: &mut D,
        pass: &mut Pass,
    ) -> SyncEnd
        ensures adds { Adds D.tells (D.history desk.old) (D.history desk.new) pass.old pass.new
            (λ es. IsRest (C.gives context.entry.clock.now)
            (λ point. G.may_stop context.entry.gate.now point self.held)
            (reasons_by self.outline.retry self.outline.failed)
            (map call_by self.outline.steps.items ++ Of.Finish Well self.outline.done ∷ []) es
            result) }
        ensures full { EndsFull result
            (FoundFull D.tells (D.history desk.new) (D.refused_full desk.new)) }
    {
        let Claimed { held, outline } = self;
        match take_steps(
            desk,
            pass,
            context.gate,
            held.key(),
            outline.steps.as_slice(),
        ) {
            Ok(Turn::Go) => finish(context, desk, pass, held, outline),
            Ok(Turn::Stop) => held.abandon(Point::Made),
            Err(error) => fail_with(context, desk, pass, held, error, outline),
        }
    }
}

fn finish<D: Desk, G: Gate, C: Clock>(
    context: SyncContext<'_, G, C>,
    desk: &mut D,
    pass: &mut Pass,
    held: Held,
    outline: Outline,
) -> SyncEnd
    ensures adds { Adds D.tells (D.history desk.old) (D.history desk.new) pass.old pass.new
        (λ es. IsRest (C.gives context.entry.clock.now)
        (λ point. G.may_stop context.entry.gate.now point held)
        (reasons_by outline.retry outline.failed) (Of.Finish Well outline.done ∷ []) es result) }
    ensures full { EndsFull result
        (FoundFull D.tells (D.history desk.new) (D.refused_full desk.new)) }
{
    let Outline {
        steps: _,
        done,
        retry,
        failed,
    } = outline;
    match make(desk, pass, Call::Finish(End::Well, done)) {
        Ok(()) => {
            let Held { took: _ } = held;
            SyncEnd::Done
        }
        Err(error) => {
            let reasons = reasons_for(&error, retry, failed);
            held.fail(context, desk, pass, error, reasons)
        }
    }
}

/// Ends the sync after an error of a claimed plan, or of its claim.
fn fail_with<D: Desk, G: Gate, C: Clock>(
    context: SyncContext<'_, G, C>,
    desk: &mut D,
    pass: &mut Pass,
    held: Held,
    error: SyncError,
    outline: Outline,
) -> SyncEnd
    requires { ErrorFull error
        (FoundFull D.tells (D.history desk.old) (D.refused_full desk.old)) }
    ensures adds { Adds D.tells (D.history desk.old) (D.history desk.new) pass.old pass.new
        (λ es. HasFailed (C.gives context.entry.clock.now)
        (reasons_at outline.retry outline.failed error) error es result) }
    ensures full { EndsFull result
        (FoundFull D.tells (D.history desk.new) (D.refused_full desk.new)) }
{
    let Outline {
        steps: _,
        done: _,
        retry,
        failed,
    } = outline;
    let reasons = reasons_for(&error, retry, failed);
    held.fail(context, desk, pass, error, reasons)
}

/// The reasons of a Finish after an error.
fn reasons_for(error: &SyncError, retry: Reasons, failed: Reasons) -> Reasons
    ensures { result ≡ reasons_at retry failed error.now }
{
    match error {
        SyncError::Refused(Refusal::AlreadyExists) => failed,
        _ => retry,
    }
}
