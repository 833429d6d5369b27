// What a worker of a run did, by its receipts.
ghost use Rattle.std.specs.Prelude.{◌≡◌, ◌↔◌, IsTrue};
ghost use Rattle.cj_run.specs.Works.{after, after_all, after_retry, after_take, unless_refused};
ghost use Rattle.cj_run.specs.declared.work.Stage.TheVariants.{Idle, Over};

use cj_calls::{Answer, Call, End};
use cj_hub::Receipt;
use cj_types::Refusal;

/// Where a worker is in its syncs.
#[derive(Clone, Copy, Debug, PartialEq, Eq)]
pub(crate) enum Stage {
    /// It holds no key.
    Idle,
    /// It took a key.
    Taken,
    /// It saw the CronJob.
    SawCron,
    /// It saw the listed Jobs, too.
    SawJobs,
    /// It saw the active Jobs, too.
    SawActive,
    /// Its plan was claimed, and is carried out.
    Claimed,
    /// A call was refused.
    Hindered,
    /// It found the queue shut.
    Over,
    /// It made a call that a sync doesn't make there.
    Astray,
}

fn after_take(answer: &Answer) -> Stage
    ensures { result ≡ after_take answer.now }
{
    match answer {
        Ok(_) => Stage::Taken,
        Err(Refusal::ShutDown) => Stage::Over,
        Err(_) => Stage::Astray,
    }
}

fn unless_refused(stage: Stage, answer: &Answer) -> Stage
    ensures { result ≡ unless_refused stage answer.now }
{
    match answer {
        Ok(_) => stage,
        Err(_) => Stage::Hindered,
    }
}

fn after_retry(answer: &Answer) -> Stage
    ensures { result ≡ after_retry answer.now }
{
    match answer {
        Ok(_) => Stage::Idle,
        Err(_) => Stage::Astray,
    }
}

// Where a worker is after a call.
fn after(stage: Stage, call: &Call, answer: &Answer) -> Stage
    ensures { result ≡ after stage call.now answer.now }
{
    match (stage, call) {
        (Stage::Idle, Call::Take) => after_take(answer),
        (Stage::Taken, Call::SeeCron) => unless_refused(Stage::SawCron, answer),
        (Stage::SawCron, Call::SeeJobs) => unless_refused(Stage::SawJobs, answer),
        (Stage::SawJobs, Call::SeeActive) => unless_refused(Stage::SawActive, answer),
        (Stage::SawActive, Call::Claim(_)) => unless_refused(Stage::Claimed, answer),
        (Stage::Claimed, Call::DropNext) => unless_refused(Stage::Claimed, answer),
        (Stage::Claimed, Call::MakeNext) => unless_refused(Stage::Claimed, answer),
        (Stage::Claimed, Call::SetStatus) => unless_refused(Stage::Claimed, answer),
        (Stage::Claimed, Call::Finish(End::Well, _)) => unless_refused(Stage::Idle, answer),
        (Stage::Hindered, Call::Finish(End::Again(_), _)) => after_retry(answer),
        _ => Stage::Astray,
    }
}

fn after_all(receipts: &[Receipt]) -> Stage
    ensures { result ≡ after_all Idle receipts.now }
{
    let mut stage = Stage::Idle;
    for receipt in receipts {
        stage = after(stage, receipt.call(), receipt.answer());
    }
    stage
}

/// Whether the calls of the receipts are those of whole syncs, one after the other, and a last one
/// that found the queue shut.
pub(crate) fn is_over(receipts: &[Receipt]) -> bool
    ensures { IsTrue result ↔ (after_all Idle receipts.now ≡ Over) }
{
    matches!(after_all(receipts), Stage::Over)
}
