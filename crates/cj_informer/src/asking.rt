//! The calls of an informer, each with what is kept of its reply.
ghost use Rattle.std.specs.Prelude.{◌≡◌, true, IfErr, IsTrue};
ghost use Rattle.cj_base.specs.declared.refusal.Refusal.TheVariants.{Expired};
ghost use Rattle.cj_calls.specs.declared.call.Call.TheVariants as Of;
ghost use Rattle.cj_calls.specs.declared.reply.Reply.TheVariants as Is;
ghost use Rattle.cj_hub.specs.Runs.{Adds, FoundFull, IsFullHistory, IsTurnedAway, TellsFull};
ghost use Rattle.cj_informer.specs.Exchanges.{HasSaid, Says};
ghost use Rattle.cj_informer.specs.Outcomes.{is_plain, IsStepRefusal, IsWatchRefusal};

use cj_calls::{Call, Reply};
use cj_hub::{CallError, Desk, Pass, Receipt, ask};
use cj_types::{Key, Max, Millis, Refusal, Version};

// Makes a call that is refused for the caller's role alone.
pub(crate) fn say<D: Desk>(desk: &mut D, pass: &mut Pass, call: Call) -> Result<Receipt, Refusal>
    requires { is_plain call ≡ true }
    ensures adds { Adds D.tells (D.history desk.old) (D.history desk.new) pass.old pass.new
        (HasSaid call result) }
    ensures which { IfErr result IsStepRefusal }
    ensures full { TellsFull result
        (FoundFull D.tells (D.history desk.new) (D.refused_full desk.new)) }
    ensures no_room { IsTrue D.tells → IsFullHistory (D.history desk.old) →
        IsTurnedAway result }
{
    match ask(desk, pass, call) {
        Ok(receipt) => Ok(receipt),
        Err(CallError::Refused(_)) => Err(Refusal::NotPermitted),
        Err(CallError::Unentered(refusal)) => Err(refusal),
    }
}

pub(crate) fn tick<D: Desk>(desk: &mut D, pass: &mut Pass, now: Millis) -> Result<(), Refusal>
    ensures adds { Adds D.tells (D.history desk.old) (D.history desk.new) pass.old pass.new
        (Says (Of.Tick now) (λ _. Is.Done) result) }
    ensures which { IfErr result IsStepRefusal }
    ensures full { TellsFull result
        (FoundFull D.tells (D.history desk.new) (D.refused_full desk.new)) }
    ensures no_room { IsTrue D.tells → IsFullHistory (D.history desk.old) →
        IsTurnedAway result }
{
    let receipt = say(desk, pass, Call::Tick(now))?;
    match receipt.answer() {
        Ok(Reply::Done) => Ok(()),
        _ => unreachable!(),
    }
}

pub(crate) fn add<D: Desk>(desk: &mut D, pass: &mut Pass, key: Key) -> Result<(), Refusal>
    ensures adds { Adds D.tells (D.history desk.old) (D.history desk.new) pass.old pass.new
        (Says (Of.Add key) (λ _. Is.Done) result) }
    ensures which { IfErr result IsStepRefusal }
    ensures full { TellsFull result
        (FoundFull D.tells (D.history desk.new) (D.refused_full desk.new)) }
{
    let receipt = say(desk, pass, Call::Add(key))?;
    match receipt.answer() {
        Ok(Reply::Done) => Ok(()),
        _ => unreachable!(),
    }
}

// Feeds the listings. It answers with how many writes they know then.
pub(crate) fn feed<D: Desk>(desk: &mut D, pass: &mut Pass, max: Max) -> Result<Version, Refusal>
    ensures adds { Adds D.tells (D.history desk.old) (D.history desk.new) pass.old pass.new
        (Says (Of.Feed max) (λ v. Is.Version v) result) }
    ensures which { IfErr result IsStepRefusal }
    ensures full { TellsFull result
        (FoundFull D.tells (D.history desk.new) (D.refused_full desk.new)) }
{
    let receipt = say(desk, pass, Call::Feed(max))?;
    match receipt.answer() {
        Ok(Reply::Version(fed)) => Ok(*fed),
        _ => unreachable!(),
    }
}

// Watches; this call may also be refused since the events after the version have expired.
pub(crate) fn ask_events<D: Desk>(
    desk: &mut D,
    pass: &mut Pass,
    from: Version,
    max: Max,
) -> Result<Receipt, Refusal>
    ensures adds { Adds D.tells (D.history desk.old) (D.history desk.new) pass.old pass.new
        (HasSaid (Of.Watch from max) result) }
    ensures which { IfErr result IsWatchRefusal }
    ensures full { TellsFull result
        (FoundFull D.tells (D.history desk.new) (D.refused_full desk.new)) }
{
    match ask(desk, pass, Call::Watch(from, max)) {
        Ok(receipt) => Ok(receipt),
        Err(CallError::Refused(receipt)) => match receipt.answer() {
            Err(Refusal::Expired(oldest)) => Err(Refusal::Expired(*oldest)),
            _ => Err(Refusal::NotPermitted),
        },
        Err(CallError::Unentered(refusal)) => Err(refusal),
    }
}
