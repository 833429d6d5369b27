// One call on a world, where a request for memory may be refused.
//
// The steps before it are made on two worlds, then the call on the first, which gives its usual
// answer, and on the second. There it is answered so at once; or OutOfMemory, and then the second
// world is as it was before the call (its objects, its versions, its history, and whether it is at
// rest), and the call made again is answered as usual. Then the steps after it are made on both
// worlds, which must answer alike: what a world doesn't show, as its queue, its in-flight syncs and
// its window, shows in them. In the end both have the same objects and the same history.
use crate::asks::{Ask, asked_call};
use crate::twins::{Sight, Twins, are_same};
use crate::words::word_of;
use cj_calls::{Answer, Call, Caller, same_answer};
use cj_io::GivenZones;
use cj_script::{Script, Step, read_script};
use cj_types::Refusal;
use cj_world::World;
use cj_zone::ZoneTable;
use std::alloc::Global;
use std::mem;

// What came of the call on the second world.
#[derive(Clone, Copy, PartialEq, Eq)]
enum Outcome {
    Usual,
    Refused,
    Wrong,
}

impl Outcome {
    fn word(self) -> &'static str {
        match self {
            Outcome::Usual => "usual",
            Outcome::Refused => "refused",
            Outcome::Wrong => "wrong",
        }
    }
}

fn outcome_of(answer: &Answer, usual: &Answer) -> Outcome {
    if same_answer(answer, usual) {
        return Outcome::Usual;
    }
    match answer {
        Err(Refusal::OutOfMemory) => Outcome::Refused,
        _ => Outcome::Wrong,
    }
}

// Makes the call, and compares its answer with the usual one. Nothing else takes memory here.
fn make_call(world: &mut World, caller: &Caller, call: &Call, usual: &Answer) -> Outcome {
    let answer = world.apply(caller, call);
    let outcome = outcome_of(&answer, usual);
    mem::forget(answer);
    outcome
}

// Makes the call, and compares its answer with the usual one, between two writes to standard
// output.
fn told_outcome(
    rt: &HostRuntime,
    world: &mut World,
    caller: &Caller,
    call: &Call,
    usual: &Answer,
) -> Result<Outcome, Refusal> {
    println!(rt; "{}", word_of(usual)).map_err(|_| Refusal::Syntax)?;
    let outcome = make_call(world, caller, call, usual);
    println!(rt; "{}", outcome.word()).map_err(|_| Refusal::Syntax)?;
    Ok(outcome)
}

// Whether the call was answered as usual, or was refused for want of memory, which left all as it
// was, and is answered as usual when it is made again.
fn is_answered(
    rt: &HostRuntime,
    world: &mut World,
    caller: &Caller,
    call: &Call,
    usual: &Answer,
    before: &Sight,
    twin: &World,
    count: usize,
) -> Result<bool, Refusal> {
    match told_outcome(rt, world, caller, call, usual)? {
        Outcome::Usual => Ok(true),
        Outcome::Wrong => Ok(false),
        Outcome::Refused => {
            let is_seen = before.is_of(world)?;
            let is_history = match twin.history().get(..count) {
                Some(entries) => are_same(entries, world.history()),
                None => false,
            };
            let again = make_call(world, caller, call, usual);
            Ok(is_seen && is_history && again == Outcome::Usual)
        }
    }
}

// Makes the call on the first world and then on the second, and answers whether it was answered as
// it should be.
fn is_tried(
    rt: &HostRuntime,
    alloc: Global,
    twins: &mut Twins,
    caller: Caller,
    call: &Call,
) -> Result<bool, Refusal> {
    let count = twins.other.history().len();
    let before = Sight::of(&twins.other)?;
    let usual = twins.ask_one(alloc, caller, call)?;
    is_answered(
        rt,
        &mut twins.other,
        &caller,
        call,
        &usual,
        &before,
        &twins.one,
        count,
    )
}

// Makes the steps on both worlds, and answers whether these answer alike.
fn are_made(
    alloc: Global,
    twins: &mut Twins,
    zones: &ZoneTable,
    steps: &[Step],
) -> Result<bool, Refusal> {
    let mut are_alike = true;
    for step in steps {
        if !twins.make(alloc, zones, step)? {
            are_alike = false;
        }
    }
    Ok(are_alike)
}

// The steps before the place, the step there, and those after it. The first place is 1.
fn around(steps: &[Step], place: usize) -> Option<(&[Step], &Step, &[Step])> {
    let (before, rest) = steps.split_at_checked(place.checked_sub(1)?)?;
    let (step, after) = rest.split_first()?;
    Some((before, step, after))
}

fn is_right(
    rt: &HostRuntime,
    alloc: Global,
    twins: &mut Twins,
    script: &Script,
    place: usize,
    ask: &Ask<'_>,
) -> Result<bool, Refusal> {
    let Some((before, step, after)) = around(script.steps.as_slice(), place) else {
        return Err(Refusal::Syntax);
    };
    let are_made_before = are_made(alloc, twins, &script.zones, before)?;
    let call = asked_call(alloc, &script.zones, &twins.one, ask, step)?;
    let is_tried = is_tried(rt, alloc, twins, step.caller, &call)?;
    let are_made_after = are_made(alloc, twins, &script.zones, after)?;
    let are_alike = twins.are_alike()?;
    Ok(are_made_before && is_tried && are_made_after && are_alike)
}

fn script_in(alloc: Global, text: &[u8]) -> Result<Script, Refusal> {
    let given = GivenZones {
        rules: ZoneTable::new(alloc)?,
        files: &[],
    };
    read_script(alloc, given, text).map_err(|_| Refusal::Syntax)
}

/// Makes the call that is asked for at the place of a step of the script. The status is 0 where all
/// was as it should be, else 1.
pub fn try_call(
    rt: &HostRuntime,
    alloc: Global,
    text: &[u8],
    place: usize,
    ask: &Ask<'_>,
) -> Result<u8, Refusal> {
    let script = script_in(alloc, text)?;
    let mut twins = Twins::new(alloc, script.limits)?;
    let is_right = is_right(rt, alloc, &mut twins, &script, place, ask)?;
    mem::forget(twins);
    mem::forget(script);
    Ok(if is_right { 0 } else { 1 })
}
