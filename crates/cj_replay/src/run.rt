// The replay of all steps, and the report.
ghost use Rattle.std.specs.Prelude.{◌≡◌, [], List, ℕ, IfOk, OnOk, OnErr};
ghost use Rattle.std.specs.Io.KnownBytes.{Appends};
ghost use Rattle.cj_io.specs.Writing.{AppendsSome};
ghost use Rattle.cj_world_laws.specs.Promise.{KeepsPromise};
ghost use Rattle.cj_replay.specs.Replays.{IsPartOf, IsReplayed};
ghost use Rattle.cj_replay.specs.Printing.{BreaksOff, CutsReport, HasPlayed, PrintsPart, PrintsReport, PrintsStep};

use crate::report::world_report;
use crate::step::make_step;
use cj_io::{Failure, Pending};
use cj_script::{Script, Step};
use cj_world::{Secret, World};
use cj_zone::ZoneTable;
use std::alloc::Global;
use std::io::Write;

// Makes a step, and prints its line. Answers whether the history was found full.
#[tactic(auto, using(crate::proofs::Printed::step_printed, crate::proofs::Printed::step_cut, crate::proofs::Printed::step_lacking))]
fn print_step<W: Write>(
    alloc: Global,
    zones: &ZoneTable,
    world: &mut World,
    pending: &mut Pending,
    out: &mut W,
    step: &Step,
) -> Result<bool, Failure>
    ensures ok { IfOk result (λ full. PrintsStep zones.now world.old.limits world.old.history
        step.now full world.new.history (W.contents out.old) pending.old (W.contents out.new)
        pending.new) }
    ensures limits { world.new.limits ≡ world.old.limits }
    ensures err { OnErr result (PrintsPart zones.now world.old.limits world.old.history step.now
        (W.contents out.old) pending.old (W.contents out.new)) }
{
    let stepped = make_step(alloc, zones, world, step)?;
    pending.print(out, stepped.line.as_str())?;
    Ok(stepped.is_full)
}

// Makes all steps, and prints their lines. Answers whether the history was found full.
fn print_all<W: Write>(
    alloc: Global,
    zones: &ZoneTable,
    steps: &[Step],
    world: &mut World,
    pending: &mut Pending,
    out: &mut W,
) -> Result<bool, Failure>
    requires { pending.old ≡ [] }
    ensures ok { IfOk result (λ full. HasPlayed zones.now world.old.limits world.old.history
        steps.now full world.new.history (W.contents out.old) (W.contents out.new) pending.new) }
    ensures limits { world.new.limits ≡ world.old.limits }
    ensures err { OnErr result (BreaksOff zones.now world.old.limits world.old.history steps.now
        (W.contents out.old) (W.contents out.new)) }
{
    let mut is_full = false;
    for step in steps {
        let found = print_step(alloc, zones, world, pending, out, step)?;
        is_full = is_full || found;
    }
    Ok(is_full)
}

// What the world's type promises of its history.
fn promised(world: &World)
    ensures { KeepsPromise world.now.limits.window world.now.history }
{
    world.history();
}

// Prints the report of the world after the lines that still wait.
#[tactic(auto, using(crate::proofs::Printed::report_printed, crate::proofs::Printed::report_cut, crate::proofs::Printed::report_begun, crate::proofs::Printed::report_lacking))]
fn print_report<W: Write>(
    alloc: Global,
    world: &World,
    mut pending: Pending,
    out: &mut W,
) -> Result<(), Failure>
    ensures ok { OnOk result (PrintsReport world.now.limits.window world.now.history
        (W.contents out.old) pending (W.contents out.new)) }
    ensures err { OnErr result (CutsReport world.now.limits.window world.now.history
        (W.contents out.old) pending (W.contents out.new)) }
{
    let report = world_report(alloc, world)?;
    pending.print(out, report.as_str())?;
    pending.finish(out)
}

// Makes the steps of a script on an empty world, and prints their lines and the report.
#[tactic(auto, using(crate::proofs::Printed::replayed, crate::proofs::Printed::broken_off, crate::proofs::Printed::cut_in_report))]
fn replay_on<W: Write>(
    alloc: Global,
    script: &Script,
    world: &mut World,
    out: &mut W,
) -> Result<bool, Failure>
    requires { world.old ≡ record { limits = script.now.limits; history = [] } }
    ensures whole { IfOk result (λ full. (text : List ℕ) × IsReplayed script.now text full
        × Appends (W.contents out.old) (W.contents out.new) text) }
    ensures begun { OnErr result ((text : List ℕ) × IsPartOf script.now text
        × AppendsSome (W.contents out.old) (W.contents out.new) text) }
{
    let mut pending = Pending::new(alloc);
    let is_full = print_all(
        alloc,
        &script.zones,
        script.steps.as_slice(),
        world,
        &mut pending,
        out,
    )?;
    promised(world);
    print_report(alloc, world, pending, out)?;
    Ok(is_full)
}

/// Makes the steps of a script on an empty world, one after the other. Prints the line of each as
/// the world answers it, and then the report: the objects and the reasons of the end. Answers
/// whether a step found the history full, which stops nothing.
///
/// Lines are written as the steps go, through a buffer of 64 KiB. Where memory or the writer fails
/// the replay ends, and a beginning of its output was printed. The secret is that of the hashes of
/// the world's queue.
#[tactic(auto, using(crate::proofs::Printed::nothing_done))]
pub fn replay<W: Write>(
    alloc: Global,
    script: &Script,
    secret: Secret,
    out: &mut W,
) -> Result<bool, Failure>
    ensures whole { IfOk result (λ full. (text : List ℕ) × IsReplayed script.now text full
        × Appends (W.contents out.old) (W.contents out.new) text) }
    ensures begun { OnErr result ((text : List ℕ) × IsPartOf script.now text
        × AppendsSome (W.contents out.old) (W.contents out.new) text) }
{
    let mut world = World::keyed(alloc, script.limits, secret)?;
    replay_on(alloc, script, &mut world, out)
}
