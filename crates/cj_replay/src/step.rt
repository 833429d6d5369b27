// One step of a script, made on the world.
ghost use Rattle.std.specs.Prelude.{◌≡◌, IfOk, IfErr, string_bytes};
ghost use Rattle.cj_base.specs.declared.refusal.Refusal.TheVariants.{OutOfMemory};
ghost use Rattle.cj_replay.specs.Runs.{MakesStep};

use crate::answer::{answer_to, is_full, line_of};
use crate::call::step_call;
use cj_script::Step;
use cj_types::Refusal;
use cj_world::World;
use cj_zone::ZoneTable;
use std::alloc::Global;

/// The line of a step, and whether the history was found full.
#[derive(Drop)]
pub(crate) struct Stepped {
    pub line: String,
    pub is_full: bool,
}

/// Makes a step's call on the world. Where memory is wanting nothing is said of the world, and the
/// replay ends.
#[tactic(auto, using(crate::proofs::Stepped::makes))]
pub(crate) fn make_step(
    alloc: Global,
    zones: &ZoneTable,
    world: &mut World,
    step: &Step,
) -> Result<Stepped, Refusal>
    ensures makes { IfOk result (λ p. MakesStep zones.now world.old.limits world.old.history
        step.now (string_bytes p.line) p.is_full world.new.history) }
    ensures limits { world.new.limits ≡ world.old.limits }
    ensures err { IfErr result (λ e. e ≡ OutOfMemory) }
{
    let call = step_call(alloc, zones, world, step)?;
    let answer = answer_to(alloc, world, &step.caller, call.get())?;
    let line = line_of(alloc, world, step, answer.get())?;
    Ok(Stepped {
        line,
        is_full: is_full(answer.get()),
    })
}
