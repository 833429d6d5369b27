// Whether the entries of a closed history are of those who took part, and at their times.
ghost use Rattle.std.specs.Prelude.{◌≡◌, ◌+◌, ◌<◌, ◌≤◌, ◌^◌, [], ◌∷◌, ◌++◌, ◌&&◌, ◌↔◌, IfOk, IsTrue, List, OnOk, map};
ghost use mathlib.Core.List.{reverse};
ghost use Rattle.cj_calls.specs.Rows.{Told};
ghost use Rattle.cj_script.specs.simulation.Spans.{IsInstant, instant};
ghost use Rattle.cj_run.specs.Participants.{IsOwn};
ghost use Rattle.cj_run.specs.Validation.{Agrees, IsValid, Sees};
ghost use Rattle.cj_run.specs.Simulations.{edits_at};
ghost use Rattle.cj_run.specs.Turns.{AllInstants, is_timely, progress_after, turns_after, turns_below};

use crate::participants::is_own;
use crate::turns::Progress;
use cj_calls::{Caller, Entry};
use cj_script::{Edit, Simulation, Span};
use cj_types::{CronJobDraft, Seconds, Shared};
use std::alloc::{AllocError, Global};

// What was seen of a history so far: how far the run is, whether each entry is of one of the
// callers and at its time, and how many instants had begun before each of the user's entries.
#[derive(Drop)]
struct Seen {
    progress: Progress,
    own: bool,
    timely: bool,
    turns: Vec<u64>,
}

impl Seen {
    // Takes in another entry.
    fn step(
        &mut self,
        span: &Span,
        callers: &[Caller],
        user: u64,
        entry: &Entry,
    ) -> Result<(), AllocError>
        requires { self.old.progress.begun + 1 < 2 ^ 64 }
        ensures progress { OnOk result (self.new.progress
            ≡ progress_after span.now self.old.progress entry.now.caller.role entry.now.call) }
        ensures own { OnOk result (IsTrue self.new.own
            ↔ (IsOwn callers.now entry.now × IsTrue self.old.own)) }
        ensures timely { OnOk result (self.new.timely ≡ (self.old.timely
            && is_timely span.now self.old.progress entry.now.caller.role entry.now.call
            entry.now.answer)) }
        ensures turns { OnOk result (self.new.turns.items
            ≡ turns_after user self.old.progress.begun self.old.turns.items entry.now) }
        ensures short { OnOk result (self.new.progress.begun ≤ self.old.progress.begun + 1) }
    {
        let caller = entry.caller();
        let timely = self
            .progress
            .is_timely(span, caller.role, entry.call(), entry.answer());
        if caller.number == user {
            put(&mut self.turns, self.progress.begun)?;
        }
        self.own = is_own(callers, entry) && self.own;
        self.timely = self.timely && timely;
        self.progress = self.progress.after(span, caller.role, entry.call());
        Ok(())
    }

    // Takes in the entry that follows those that were seen.
    #[tactic(auto, using(crate::proofs::Validated::see_more))]
    fn see(
        &mut self,
        span: &Span,
        callers: &[Caller],
        user: u64,
        entry: &Entry,
    ) -> Result<(), AllocError>
        requires { self.old.progress.begun + 1 < 2 ^ 64 }
        ensures ok { OnOk result ((h : List Told) → Sees span.now callers.now user self.old h →
            Sees span.now callers.now user self.new (entry.now ∷ h)) }
        ensures short { OnOk result (self.new.progress.begun ≤ self.old.progress.begun + 1) }
    {
        self.step(span, callers, user, entry)
    }
}

// What is seen in a whole history.
fn seen_in(
    alloc: Global,
    span: &Span,
    callers: &[Caller],
    user: u64,
    entries: &[Entry],
) -> Result<Seen, AllocError>
    ensures { IfOk result (λ s. Sees span.now callers.now user s (reverse entries.now)) }
{
    let mut seen = Seen {
        progress: Progress::new(),
        own: true,
        timely: true,
        turns: Vec::new(alloc),
    };
    for entry in entries {
        seen.see(span, callers, user, entry)?;
    }
    Ok(seen)
}

// Adds the number of instants that had begun before a call.
fn put(turns: &mut Vec<u64>, turn: u64) -> Result<(), AllocError>
    ensures { OnOk result (turns.new.items ≡ turns.old.items ++ turn ∷ []) }
{
    turns.push(turn)?;
    Ok(())
}

// Adds what is wanted of the creations: no instant had begun before them.
fn put_creations(turns: &mut Vec<u64>, drafts: &[Shared<CronJobDraft>]) -> Result<(), AllocError>
    ensures { OnOk result (turns.new.items ≡ turns.old.items ++ map (λ _. 0) drafts.now) }
{
    for _draft in drafts {
        put(turns, 0)?;
    }
    Ok(())
}

// Adds what is wanted of the edit, if it is due at the instant: `n` instants had begun before it.
#[tactic(auto, unfolding(crate::specs::Simulations::edits_at))]
fn put_edit(turns: &mut Vec<u64>, edit: &Edit, at: Seconds, n: u64) -> Result<(), AllocError>
    ensures { OnOk result (turns.new.items
        ≡ turns.old.items ++ map (λ _. n) (edits_at (edit.now ∷ []) at)) }
{
    if edit.at == at { put(turns, n) } else { Ok(()) }
}

// Adds what is wanted of all edits that are due at the instant.
fn put_edits(turns: &mut Vec<u64>, edits: &[Edit], at: Seconds, n: u64) -> Result<(), AllocError>
    ensures { OnOk result (turns.new.items
        ≡ turns.old.items ++ map (λ _. n) (edits_at edits.now at)) }
{
    for edit in edits {
        put_edit(turns, edit, at, n)?;
    }
    Ok(())
}

// Adds what is wanted of all edits that are due at the instant of that number.
fn put_instant(turns: &mut Vec<u64>, simulation: &Simulation, n: u64) -> Result<(), AllocError>
    requires { IsInstant simulation.now.span n }
    ensures { OnOk result (turns.new.items
        ≡ turns.old.items ++ map (λ _. n) (edits_at simulation.now.edits.items
        (instant simulation.now.span n))) }
{
    let at = simulation.span.instant(n).unwrap();
    put_edits(turns, simulation.edits.as_slice(), at, n)
}

// How many instants should have begun before each of the user's calls, where the clock has `count`
// instants.
fn turns_wanted(alloc: Global, simulation: &Simulation, count: u64) -> Result<Vec<u64>, AllocError>
    requires { AllInstants simulation.now.span count }
    ensures { IfOk result (λ ns. ns.items ≡ turns_below simulation.now count) }
{
    let mut turns = Vec::new(alloc);
    put_creations(&mut turns, simulation.crons.as_slice())?;
    for n in 0..count {
        put_instant(&mut turns, simulation, n)?;
    }
    Ok(turns)
}

// Whether what was seen is what is wanted: all instants began and are over, and each entry is of
// one of the callers and at its time, those of the user too.
fn agrees(seen: &Seen, wanted: &[u64], count: u64) -> bool
    ensures { IsTrue result ↔ Agrees seen.now wanted.now count }
{
    let begun = seen.progress.begun == count;
    let over = !seen.progress.on;
    let same = seen.turns.as_slice() == wanted;
    begun && over && seen.own && seen.timely && same
}

/// Whether each entry of a history is of one of the callers, each instant of the clock begins in it
/// and is over before the next one does, and each call, those of the user too, is made at its time.
/// It reads each entry once.
#[tactic(auto, using(crate::proofs::Validated::is_valid))]
pub(crate) fn is_valid(
    alloc: Global,
    simulation: &Simulation,
    callers: &[Caller],
    user: u64,
    entries: &[Entry],
) -> Result<bool, AllocError>
    ensures { IfOk result (λ kept. IsTrue kept
        ↔ IsValid simulation.now callers.now user (reverse entries.now)) }
{
    let count = simulation.span.count();
    let wanted = turns_wanted(alloc, simulation, count)?;
    let seen = seen_in(alloc, &simulation.span, callers, user, entries)?;
    Ok(agrees(&seen, wanted.as_slice(), count))
}
