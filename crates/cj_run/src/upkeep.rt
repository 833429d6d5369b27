// Whether a run kept up with its work, by its finished history.
ghost use Rattle.std.specs.Prelude.{◌≡◌, ◌+◌, ◌<◌, ◌≤◌, ◌^◌, ◌&&◌, ◌||◌, ℕ, [], ◌∷◌, true, false, None, IfOk, IsTrue, List, OnOk};
ghost use Rattle.std.specs.FinMap as map;
ghost use mathlib.Core.List.{reverse};
ghost use Rattle.cj_types.specs.Keys.{Place};
ghost use Rattle.cj_calls.specs.Rows.{Told};
ghost use Rattle.cj_queue.specs.Queue.{new_queue, taken};
ghost use Rattle.cj_state.specs.Legal.{IsLegal};
ghost use Rattle.cj_state.specs.WorkerCalls.{next_ms};
ghost use Rattle.cj_run.specs.Turns.{progress_after};
ghost use Rattle.cj_run.specs.Upkeep.{ComesToRest, Goes, IsClear, IsIdle, Looks, Sets, Turns, ended_by, hand_after, hand_by, is_over_with, queue_after, untaken_after, untaken_by, with_next};

use crate::turns::{Progress, begins, ends};
use cj_calls::{Call, End, Entry, Reply};
use cj_queue::{Queue, Secret};
use cj_script::Span;
use cj_table::Table;
use cj_types::{CronJobDraft, Key, Refusal, Seconds, Shared, TryCopy};
use std::alloc::Global;
use std::collections::BTreeMap;

/// What a worker holds: its key, and the next time of the plan that it claimed.
#[derive(Drop)]
pub(crate) struct Hand {
    pub key: Key,
    pub next: Option<Seconds>,
}

/// The work queue, and what workers hold, by their numbers.
#[derive(Drop)]
pub(crate) struct Work {
    pub queue: Queue,
    pub hands: BTreeMap<u64, Hand>,
}

/// What was seen of a history so far.
#[derive(Drop)]
pub(crate) struct Upkeep {
    pub progress: Progress,
    pub work: Work,
    /// The CronJobs that were created, and neither deleted nor their keys taken since.
    pub untaken: Table<Shared<CronJobDraft>>,
    /// Whether no work was left where an instant was over.
    pub kept: bool,
}

fn with_next(hand: Option<Hand>, next: Option<Seconds>) -> Option<Hand>
    ensures { result ≡ with_next hand next }
{
    match hand {
        Some(Hand { key, next: _ }) => Some(Hand { key, next }),
        None => None,
    }
}

// What its caller holds after an accepted call.
fn hand_after(
    alloc: Global,
    hand: Option<Hand>,
    call: &Call,
    reply: &Reply,
) -> Result<Option<Hand>, Refusal>
    ensures { IfOk result (λ g. g ≡ hand_after hand call.now reply.now) }
{
    match (call, reply) {
        (Call::Take, Reply::Key(key)) => Ok(Some(Hand {
            key: key.try_copy(alloc)?,
            next: None,
        })),
        (Call::SeeCron, Reply::SeenCron(_)) => Ok(with_next(hand, None)),
        (Call::Claim(plan), Reply::Claimed(_)) => { Ok(with_next(hand, plan.get().steps().next)) }
        (Call::Finish(_, _), Reply::Done) => Ok(None),
        _ => Ok(hand),
    }
}

fn next_ms(next: Option<Seconds>) -> Option<u64>
    ensures { result ≡ next_ms next }
{
    match next {
        Some(at) => Some(1000 * at.get()),
        None => None,
    }
}

fn take(queue: &mut Queue) -> Result<(), Refusal>
    ensures { OnOk result (queue.new ≡ taken queue.old) }
{
    queue.take()?;
    Ok(())
}

// Ends the sync of what its worker holds, if it holds anything.
fn finish(queue: &mut Queue, hand: &Option<Hand>, end: End) -> Result<(), Refusal>
    ensures { OnOk result (queue.new ≡ ended_by hand.now end queue.old) }
{
    let Some(hand) = hand else {
        return Ok(());
    };
    if !queue.is_processing(&hand.key) {
        return Err(Refusal::OutOfPhase);
    }
    match end {
        End::Well => queue.finish_ok(&hand.key, next_ms(hand.next)),
        End::Again(now) => queue.finish_retry(&hand.key, now),
    }
}

// Does to the queue what an accepted call did.
fn turn(queue: &mut Queue, hand: &Option<Hand>, call: &Call, reply: &Reply) -> Result<(), Refusal>
    ensures { OnOk result (queue.new ≡ queue_after hand.now call.now reply.now queue.old) }
{
    match (call, reply) {
        (Call::Add(key), Reply::Done) => queue.add(key),
        (Call::Tick(now), Reply::Done) => queue.tick(*now),
        (Call::Take, Reply::Key(_)) => take(queue),
        (Call::Finish(end, _), Reply::Done) => finish(queue, hand, *end),
        (Call::Shut, Reply::Done) => {
            queue.shut();
            Ok(())
        }
        _ => Ok(()),
    }
}

// Puts down what the worker holds.
fn set(hands: &mut BTreeMap<u64, Hand>, number: u64, hand: Option<Hand>) -> Result<(), Refusal>
    ensures { OnOk result (Sets number hand hands.old hands.new) }
{
    match hand {
        Some(hand) => match hands.insert(number, hand) {
            Ok(_) => Ok(()),
            Err(_) => Err(Refusal::OutOfMemory),
        },
        None => {
            hands.remove(&number);
            Ok(())
        }
    }
}

#[tactic(auto, using(crate::proofs::Kept::none_first))]
fn no_line(queue: &Queue) -> bool
    ensures { IsTrue result → queue.now.row.line ≡ [] }
{
    match queue.front() {
        Some(_) => false,
        None => true,
    }
}

fn is_open(queue: &Queue) -> bool
    ensures { IsTrue result → queue.now.shut ≡ false }
{
    !queue.is_shut()
}

#[tactic(auto, using(crate::proofs::Kept::none_held))]
fn no_hands(hands: &BTreeMap<u64, Hand>) -> bool
    ensures { IsTrue result → (n : ℕ) → hand_by hands.now n ≡ None }
{
    hands.is_empty()
}

impl Work {
    // Nobody has anything to do.
    #[tactic(auto, using(crate::proofs::Kept::none_held))]
    fn new(alloc: Global, secret: Secret) -> Work
        ensures queue { result.queue ≡ new_queue }
        ensures hands { (n : ℕ) → hand_by result.hands n ≡ None }
    {
        Work {
            queue: Queue::keyed(alloc, secret),
            hands: BTreeMap::new(alloc),
        }
    }

    // Takes in an accepted call.
    #[tactic(auto, using(crate::proofs::Kept::turns_it))]
    fn step(
        &mut self,
        alloc: Global,
        number: u64,
        call: &Call,
        reply: &Reply,
    ) -> Result<(), Refusal>
        ensures { OnOk result (Turns number call.now reply.now self.old self.new) }
    {
        let hand = self.hands.remove(&number);
        turn(&mut self.queue, &hand, call, reply)?;
        let hand = hand_after(alloc, hand, call, reply)?;
        set(&mut self.hands, number, hand)
    }

    // Takes in an entry. A refused call changes nothing.
    fn go(&mut self, alloc: Global, entry: &Entry) -> Result<(), Refusal>
        ensures { OnOk result (Goes entry.now.caller.number entry.now.call entry.now.answer
            self.old self.new) }
    {
        match entry.answer() {
            Ok(reply) => self.step(alloc, entry.caller().number, entry.call(), reply),
            Err(_) => Ok(()),
        }
    }

    // Whether no key is queued or held, and the queue isn't shut.
    fn is_idle(&self) -> bool
        ensures { IsTrue result → IsIdle self.now }
    {
        let no_line = no_line(&self.queue);
        let no_hands = no_hands(&self.hands);
        let runs = is_open(&self.queue);
        no_line && no_hands && runs
    }
}

// Takes in an accepted call.
fn note(
    alloc: Global,
    untaken: &mut Table<Shared<CronJobDraft>>,
    call: &Call,
    reply: &Reply,
) -> Result<(), Refusal>
    ensures { OnOk result (untaken.new ≡ untaken_after untaken.old call.now reply.now) }
{
    match (call, reply) {
        (Call::CreateCron(draft, _), _) => {
            let key = draft.get().key.key().try_copy(alloc)?;
            untaken.insert(key, draft.try_copy(alloc)?)
        }
        (Call::DeleteCron(key), _) => {
            untaken.remove(key);
            Ok(())
        }
        (Call::Take, Reply::Key(key)) => {
            untaken.remove(key);
            Ok(())
        }
        _ => Ok(()),
    }
}

// Takes in an entry. A refused call creates no CronJob, and takes no key.
fn note_entry(
    alloc: Global,
    untaken: &mut Table<Shared<CronJobDraft>>,
    entry: &Entry,
) -> Result<(), Refusal>
    ensures { OnOk result (untaken.new
        ≡ untaken_by untaken.old entry.now.call entry.now.answer) }
{
    match entry.answer() {
        Ok(reply) => note(alloc, untaken, entry.call(), reply),
        Err(_) => Ok(()),
    }
}

// Whether no CronJob waits to be taken.
#[tactic(auto, using(crate::proofs::Kept::none_at))]
fn none_untaken(alloc: Global, untaken: &Table<Shared<CronJobDraft>>) -> Result<bool, Refusal>
    ensures { IfOk result (λ none. IsTrue none → (k : Place) → map.get untaken.now k ≡ None) }
{
    let drafts = untaken.list(alloc)?;
    Ok(drafts.is_empty())
}

// Whether an instant goes on, and is over with the entry.
fn is_over_with(span: &Span, progress: Progress, entry: &Entry) -> bool
    ensures { result ≡ is_over_with span.now progress entry.now }
{
    let role = entry.caller().role;
    let over = begins(span, progress, role, entry.call()) || ends(role, entry.call());
    progress.on && over
}

// Whether nothing was left so far, nor is now.
fn is_kept(kept: bool, clear: bool) -> bool
    ensures { result ≡ (kept && clear) }
{
    kept && clear
}

impl Upkeep {
    // Whether nothing is left to do, where an instant is over.
    fn is_clear(&self, alloc: Global, over: bool) -> Result<bool, Refusal>
        ensures { IfOk result (λ clear. IsTrue clear → over ≡ true → IsClear self.now) }
    {
        if !over {
            return Ok(true);
        }
        let idle = self.work.is_idle();
        let none = none_untaken(alloc, &self.untaken)?;
        Ok(idle && none)
    }

    // Takes in the entry that follows those that were seen.
    fn see(&mut self, alloc: Global, span: &Span, entry: &Entry) -> Result<(), Refusal>
        requires { self.old.progress.begun + 1 < 2 ^ 64 }
        ensures ok { OnOk result ((h : List Told) → Looks span.now self.old h →
            Looks span.now self.new (entry.now ∷ h)) }
        ensures short { OnOk result (self.new.progress.begun ≤ self.old.progress.begun + 1) }
    {
        let over = is_over_with(span, self.progress, entry);
        let clear = self.is_clear(alloc, over)?;
        self.kept = is_kept(self.kept, clear);
        self.work.go(alloc, entry)?;
        note_entry(alloc, &mut self.untaken, entry)?;
        self.progress = self.progress.after(span, entry.caller().role, entry.call());
        Ok(())
    }
}

/// Whether no key was queued and none held where an instant was over, the queue wasn't shut, and
/// the key of each CronJob that was created had been taken. It reads each entry once.
pub(crate) fn comes_to_rest(
    alloc: Global,
    secret: Secret,
    span: &Span,
    entries: &[Entry],
) -> Result<bool, Refusal>
    ensures { IfOk result (λ kept. IsTrue kept → (window : ℕ) →
        IsLegal window (reverse entries.now) → ComesToRest window span.now (reverse entries.now)) }
{
    let mut upkeep = Upkeep {
        progress: Progress::new(),
        work: Work::new(alloc, secret),
        untaken: Table::new(alloc),
        kept: true,
    };
    for entry in entries {
        upkeep.see(alloc, span, entry)?;
    }
    Ok(upkeep.kept)
}
