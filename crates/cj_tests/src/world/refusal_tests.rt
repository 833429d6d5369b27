use crate::world::boxed::boxed;
use crate::world::calls::call_of;
use crate::world::script::{SCRIPT, WANTED};
use cj_calls::{Answer, Call, Entry, same_answer};
use cj_io::GivenZones;
use cj_report::step_line;
use cj_script::{Script, Step, read_script};
use cj_types::{Limits, Refusal, Same};
use cj_world::World;
use cj_zone::ZoneTable;
use std::alloc::Global;

type Entered = Result<(Entry, Entry), Refusal>;

// What the world tells: its versions, whether it is at rest, and how many objects there are.
fn told(world: &World) -> Result<[u64; 5], Refusal> {
    let rests = u64::from(world.at_rest());
    let (crons, jobs) = world.objects()?;
    let crons = crons.as_slice().len() as u64;
    let jobs = jobs.as_slice().len() as u64;
    Ok([world.version().get(), world.fed().get(), rests, crons, jobs])
}

// Whether the two entries are copies of the last one.
fn are_last(entries: &[Entry], kept: &Entry, given: &Entry) -> bool {
    match entries.last() {
        Some(last) => last.same(kept) && last.same(given),
        None => false,
    }
}

// Whether `enter` gave what `apply` answered, with two copies of the entry that `apply` added.
fn agrees(entries: &[Entry], answer: &Answer, entered: &Entered) -> bool {
    match entered {
        Ok((kept, given)) => are_last(entries, kept, given) && same_answer(kept.answer(), answer),
        Err(refusal) => is_refused(answer, refusal),
    }
}

fn is_refused(answer: &Answer, refusal: &Refusal) -> bool {
    match answer {
        Ok(_) => false,
        Err(other) => other.same(refusal),
    }
}

// Makes the call by `apply`.
fn applied(
    alloc: Global,
    world: &mut World,
    step: &Step,
    call: &Call,
) -> Result<Box<Answer, Global>, Refusal> {
    boxed(alloc, world.apply(&step.caller, call))
}

// Makes the call by `enter`. Whether that does the same as `apply` did to the other world.
fn is_entered(
    alloc: Global,
    one: &World,
    other: &mut World,
    step: &Step,
    call: &Call,
    answer: &Answer,
) -> Result<bool, Refusal> {
    let entered = boxed(alloc, other.enter(&step.caller, call))?;
    Ok(agrees(one.history(), answer, &entered) && told(one)? == told(other)?)
}

// Whether the line of a step, whose answer has the entry after so many, is the wanted one.
fn is_line(
    alloc: Global,
    world: &World,
    before: usize,
    step: &Step,
    answer: &Answer,
    wanted: &str,
) -> Result<bool, Refusal> {
    let after = world.history().len();
    let place = if after > before { Some(after) } else { None };
    let line = step_line(alloc, place, step.who.as_str(), step.verb, answer)?;
    Ok(line.as_str() == wanted)
}

// Makes the call on two worlds, by `apply` and by `enter`. Whether they do the same, and the line
// is the wanted one.
fn is_made(
    alloc: Global,
    one: &mut World,
    other: &mut World,
    step: &Step,
    call: &Call,
    wanted: &str,
) -> Result<bool, Refusal> {
    let before = one.history().len();
    let answer = applied(alloc, one, step, call)?;
    let is_same = is_entered(alloc, one, other, step, call, &answer)?;
    Ok(is_same && is_line(alloc, one, before, step, &answer, wanted)?)
}

fn is_right(
    alloc: Global,
    one: &mut World,
    other: &mut World,
    step: &Step,
    wanted: &(&'static str, [u64; 5]),
) -> Result<bool, Refusal> {
    let call = boxed(alloc, call_of(alloc, &step.operation)?)?;
    let is_made = is_made(alloc, one, other, step, &call, wanted.0)?;
    Ok(is_made && told(one)? == wanted.1)
}

fn new_world(alloc: Global, limits: Limits) -> Result<Box<World, Global>, Refusal> {
    boxed(alloc, World::new(alloc, limits)?)
}

// The number of the first step that isn't done so.
fn first_wrong(
    alloc: Global,
    one: &mut World,
    other: &mut World,
    steps: &[Step],
) -> Result<Option<usize>, Refusal> {
    for (number, step) in steps.iter().enumerate() {
        if !is_right(alloc, one, other, step, &WANTED[number % 26])? {
            return Ok(Some(number));
        }
    }
    Ok(None)
}

fn wrong_in(alloc: Global, script: &Script) -> Result<Option<usize>, Refusal> {
    if script.steps.len() != 26 {
        return Ok(Some(script.steps.len()));
    }
    let mut one = new_world(alloc, script.limits)?;
    let mut other = new_world(alloc, script.limits)?;
    first_wrong(alloc, &mut one, &mut other, script.steps.as_slice())
}

// UTC alone.
fn utc<'a>(alloc: Global) -> Result<GivenZones<'a>, Refusal> {
    Ok(GivenZones {
        rules: ZoneTable::new(alloc)?,
        files: &[],
    })
}

fn the_script(alloc: Global) -> Result<Box<Script, Global>, Refusal> {
    let given = utc(alloc)?;
    match read_script(alloc, given, SCRIPT.as_bytes()) {
        Ok(script) => boxed(alloc, script),
        Err(_) => Err(Refusal::Syntax),
    }
}

fn wrong(alloc: Global) -> Result<Option<usize>, Refusal> {
    let script = the_script(alloc)?;
    wrong_in(alloc, &script)
}

// rules: phases, entered, refusals
#[test]
fn refuses_in_each_way(rt: HostRuntime) {
    let wrong = wrong(rt.alloc()).unwrap_or(Some(0));
    assert_eq!(rt; wrong, None);
}
