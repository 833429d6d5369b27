ghost use Rattle.std.specs.Prelude.{◌≡◌, List, IfOk, IfErr, OnOk, OnErr, Ok};
ghost use Rattle.std.specs.FinMap as map;
ghost use Rattle.cj_base.specs.declared.refusal.Refusal.TheVariants.{OutOfMemory};
ghost use Rattle.cj_types.specs.declared.event.Event.{Event};
ghost use Rattle.cj_calls.specs.declared.reply.Reply.TheVariants.{Version};
ghost use Rattle.cj_watch.specs.Numbers.{IsNumbered};
ghost use Rattle.cj_watch.specs.Log.{since};
ghost use Rattle.cj_watch.specs.mirror.Lagging.{fed_with, reset_to};
ghost use Rattle.cj_watch.specs.mirror.Laws.{caught_up};
ghost use Rattle.cj_state.specs.Sound.{IsSound};
ghost use Rattle.cj_state.specs.WorkerCalls.{handled};
ghost use Rattle.cj_state.specs.Step.{add, tick, shut, feed};

use cj_base::both;
use cj_calls::{Answered, Reply};
use cj_state::State;
use cj_store::Store;
use cj_types::{Event, Job, Key, Listing, Max, Millis, Refusal, Shared};
use cj_watch::{Mirror, WatchLog};
use std::alloc::Global;

/// Adds a key to the queue.
pub fn add(alloc: Global, state: &mut State, key: &Key) -> Result<Answered, Refusal>
    ensures ok { IfOk result (λ t. add state.old key.now ≡ handled t state.new) }
    ensures err { OnErr result (state.new ≡ state.old) }
    ensures memory { IfErr result (λ e. e ≡ OutOfMemory) }
{
    let answer = Answered::new(alloc, Ok(Reply::Done))?;
    state.queue.add(key)?;
    Ok(answer)
}

/// Tells the queue the moment.
pub fn tick(alloc: Global, state: &mut State, now: Millis) -> Result<Answered, Refusal>
    ensures ok { IfOk result (λ t. tick state.old now ≡ handled t state.new) }
    ensures err { OnErr result (state.new ≡ state.old) }
    ensures memory { IfErr result (λ e. e ≡ OutOfMemory) }
{
    let answer = Answered::new(alloc, Ok(Reply::Done))?;
    state.queue.tick(now)?;
    Ok(answer)
}

/// Shuts the queue.
pub fn shut(alloc: Global, state: &mut State) -> Result<Answered, Refusal>
    ensures ok { IfOk result (λ t. shut state.old ≡ handled t state.new) }
    ensures err { OnErr result (state.new ≡ state.old) }
    ensures memory { IfErr result (λ e. e ≡ OutOfMemory) }
{
    let answer = Answered::new(alloc, Ok(Reply::Done))?;
    state.queue.shut();
    Ok(answer)
}

// The mirror learns these events. The answer, of how many writes it knows then, is made before.
fn feed_with(alloc: Global, mirror: &mut Mirror, events: &[Event]) -> Result<Answered, Refusal>
    requires next { IsNumbered mirror.old.fed events.now }
    ensures ok { OnOk result (mirror.new ≡ fed_with mirror.old events.now) }
    ensures answer { IfOk result (λ t. t ≡ Ok (Version mirror.new.fed)) }
    ensures err { OnErr result (mirror.new ≡ mirror.old) }
    ensures memory { IfErr result (λ e. e ≡ OutOfMemory) }
{
    let reply = Reply::Version(mirror.version_with(events));
    let answer = Answered::new(alloc, Ok(reply))?;
    mirror.feed(events)?;
    Ok(answer)
}

// The answer of the store's version, and all its Jobs.
fn current(alloc: Global, store: &Store) -> Result<(Answered, Listing<Shared<Job>>), Refusal>
    ensures answer { IfOk result (λ p. p.0 ≡ Ok (Version store.now.version)) }
    ensures jobs { IfOk result (λ p. p.1 ≡ map.values store.now.jobs) }
    ensures err { IfErr result (λ e. e ≡ OutOfMemory) }
{
    let reply = Reply::Version(store.version());
    both(Answered::new(alloc, Ok(reply)), store.list_jobs(alloc))
}

// The mirror learns all current Jobs. The answer, of how many writes it knows then, is made before.
fn reset(alloc: Global, mirror: &mut Mirror, store: &Store) -> Result<Answered, Refusal>
    ensures ok { OnOk result (mirror.new
        ≡ reset_to (map.values store.now.jobs) store.now.version) }
    ensures answer { IfOk result (λ t. t ≡ Ok (Version mirror.new.fed)) }
    ensures err { OnErr result (mirror.new ≡ mirror.old) }
    ensures memory { IfErr result (λ e. e ≡ OutOfMemory) }
{
    let (answer, jobs) = current(alloc, store)?;
    mirror.reset(jobs.as_slice(), store.version())?;
    Ok(answer)
}

// The mirror learns what the watch tells, or all current Jobs where events are gone. The answer, of
// how many writes it knows then, is made before.
fn catch_up(
    alloc: Global,
    mirror: &mut Mirror,
    watch: &WatchLog,
    store: &Store,
    max: Max,
) -> Result<Answered, Refusal>
    requires follows { (es : List Event) → since watch.now mirror.old.fed max ≡ Ok es →
        IsNumbered mirror.old.fed es }
    ensures ok { OnOk result (mirror.new ≡ caught_up mirror.old (since watch.now mirror.old.fed max)
        (map.values store.now.jobs) store.now.version) }
    ensures answer { IfOk result (λ t. t ≡ Ok (Version mirror.new.fed)) }
    ensures err { OnErr result (mirror.new ≡ mirror.old) }
    ensures memory { IfErr result (λ e. e ≡ OutOfMemory) }
{
    match watch.since(alloc, mirror.version(), max) {
        Ok(events) => feed_with(alloc, mirror, events.as_slice()),
        Err(Refusal::Expired(_)) => reset(alloc, mirror, store),
        Err(_) => Err(Refusal::OutOfMemory),
    }
}

/// The lists learn of so many writes more. Answers how many they know then.
pub fn feed(alloc: Global, state: &mut State, max: Max) -> Result<Answered, Refusal>
    requires sound { IsSound state.old }
    ensures ok { IfOk result (λ t. feed state.old max ≡ handled t state.new) }
    ensures err { OnErr result (state.new ≡ state.old) }
    ensures memory { IfErr result (λ e. e ≡ OutOfMemory) }
{
    catch_up(alloc, &mut state.mirror, &state.watch, &state.store, max)
}
