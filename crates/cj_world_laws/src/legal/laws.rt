ghost use Rattle.std.specs.Prelude.{◌≡◌, ◌≤◌, ◌↔◌, ℕ, List, Option, IsTrue, length};
ghost use Rattle.cj_types.specs.declared.cron.CronJob.{CronJob};
ghost use Rattle.cj_types.specs.declared.job.Job.{Job};
ghost use Rattle.cj_decide.specs.Decision.{Planned};
ghost use Rattle.cj_calls.specs.Rows.{Told};
ghost use Rattle.cj_state.specs.phases.Inputs.{rests_on, RestsOnThree};
ghost use Rattle.cj_state.specs.Sound.{IsSound};
ghost use Rattle.cj_state.specs.Legal.{state_of};
ghost use Rattle.cj_world_laws.specs.legal.Answers.{AnswersFit};
ghost use Rattle.cj_world_laws.specs.legal.Callers.{CallerLaw};
ghost use Rattle.cj_world_laws.specs.legal.InFlightSyncs.{SyncLaw, HeldLaw};
ghost use Rattle.cj_world_laws.specs.legal.Exclusive.{AlwaysExclusive};

/// The state that any history leaves is sound, has not more writes than the history entries, and
/// the window it began with.
pub fn sound_law()
    ensures sound { (window : ℕ) (h : List Told) → IsSound (state_of window h) }
    ensures few { (window : ℕ) (h : List Told) → (state_of window h).store.version ≤ length h }
    ensures window { (window : ℕ) (h : List Told) → (state_of window h).watch.window ≡ window }
{}

/// A claim is accepted only of a plan that rests on just the three answers that its worker got.
pub fn input_law()
    ensures { (p : Planned) (c : Option CronJob) (js : List Job) (ks : List (Option Job)) →
        IsTrue (rests_on p c js ks) ↔ RestsOnThree p c js ks }
{}

/// What a call is answered stands in its row, except that there is nothing to take.
pub fn answer_law()
    ensures { AnswersFit }
{}

/// What the world keeps of a worker is what the worker's own accepted calls since its last accepted
/// Take say: the key, the phase, and the answers that it got. No two workers hold one key.
pub fn sync_law()
    ensures syncs { SyncLaw }
    ensures held { HeldLaw }
{}

/// Callers are told apart by number and role, and for the calls of a sync the number is enough: who
/// is answered one that is accepted is a worker. A worker's sync and its claim by the entries of
/// its number and role are those by the entries of its number, and a caller of another role has
/// neither.
pub fn caller_law()
    ensures { CallerLaw }
{}

/// Between two Takes of a key its first taker has ended its sync.
pub fn exclusive_law()
    ensures { AlwaysExclusive }
{}
