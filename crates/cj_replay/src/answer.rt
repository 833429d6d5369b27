// How the world answers a step, and what that adds to its history.
ghost use Rattle.std.specs.Prelude.{◌≡◌, IfOk, IfErr, length, string_bytes, if◌then◌else◌, Some, None};
ghost use Rattle.cj_base.specs.declared.refusal.Refusal.TheVariants.{OutOfMemory};
ghost use Rattle.cj_report.specs.Lines as lines;
ghost use Rattle.cj_state.specs.Legal as legal;
ghost use Rattle.cj_replay.specs.Runs as said;

use cj_calls::{Answer, Call, Caller};
use cj_report::step_line;
use cj_script::Step;
use cj_types::{Heap, Refusal};
use cj_world::World;
use std::alloc::Global;

fn is_entered(answer: &Answer) -> bool
    ensures { result ≡ legal.is_entered answer.now }
{
    match answer {
        Err(Refusal::Empty) => false,
        Err(Refusal::HistoryFull) => false,
        Err(Refusal::OutOfMemory) => false,
        _ => true,
    }
}

/// Whether the history was found full.
pub(crate) fn is_full(answer: &Answer) -> bool
    ensures { result ≡ said.is_full answer.now }
{
    matches!(answer, Err(Refusal::HistoryFull))
}

fn wants_memory(answer: &Answer) -> bool
    ensures { result ≡ said.wants_memory answer.now }
{
    matches!(answer, Err(Refusal::OutOfMemory))
}

/// Makes the call, or fails for want of memory.
#[tactic(auto, using(crate::proofs::Answered::given, crate::proofs::Answered::left))]
pub(crate) fn answer_to(
    alloc: Global,
    world: &mut World,
    caller: &Caller,
    call: &Call,
) -> Result<Heap<Answer>, Refusal>
    ensures given { IfOk result (λ a. a ≡ said.answered world.old.limits world.old.history
        caller.now call.now) }
    ensures left { IfOk result (λ a. world.new.history
        ≡ said.after world.old.history caller.now call.now a) }
    ensures limits { world.new.limits ≡ world.old.limits }
    ensures err { IfErr result (λ e. e ≡ OutOfMemory) }
{
    let answer = world.apply(caller, call);
    if wants_memory(&answer) {
        Err(Refusal::OutOfMemory)
    } else {
        Heap::new(alloc, answer)
    }
}

// How many entries there are.
fn count(world: &World) -> usize
    ensures { result ≡ length world.now.history }
{
    world.history().len()
}

// The place of the last entry, if the answer was entered.
fn place_of(world: &World, answer: &Answer) -> Option<usize>
    ensures { result ≡ (if legal.is_entered answer.now then Some
        (length world.now.history) else None) }
{
    if is_entered(answer) {
        Some(count(world))
    } else {
        None
    }
}

/// The line of a step whose call has just been answered so.
pub(crate) fn line_of(
    alloc: Global,
    world: &World,
    step: &Step,
    answer: &Answer,
) -> Result<String, Refusal>
    ensures ok { IfOk result (λ s. string_bytes s
        ≡ lines.step_line (if legal.is_entered answer.now then Some
        (length world.now.history) else None) step.now.who step.now.verb answer.now) }
    ensures err { IfErr result (λ e. e ≡ OutOfMemory) }
{
    let place = place_of(world, answer);
    step_line(alloc, place, step.who.get().as_str(), step.verb, answer)
}
