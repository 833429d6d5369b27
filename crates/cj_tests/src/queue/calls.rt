use cj_queue::Queue;
use cj_types::{Key, Millis, Refusal};
use std::alloc::Global;

// The calls that change the queue.
#[derive(Clone, Copy)]
pub enum Kind {
    Add,
    Take,
    Done,
    AddAfter,
    Tick,
    Shut,
    Failed,
    Forget,
    FinishOk,
    // With no further time.
    FinishLast,
    FinishRetry,
}

// A call, with the number of its key and its time in milliseconds.
#[derive(Clone, Copy)]
pub struct Call {
    pub kind: Kind,
    pub key: usize,
    pub at: u64,
}

pub const NAMES: [&str; 4] = ["k0", "k1", "k2", "k3"];

fn push_key(keys: &mut Vec<Key>, alloc: Global, number: usize) -> Result<(), Refusal> {
    let namespace = if number < 4 { "a" } else { "b" };
    keys.push(Key::new(alloc, namespace, NAMES[number % 4])?)
        .map_err(|_| Refusal::OutOfMemory)
}

// Eight keys of two namespaces, in their order.
pub fn eight_keys(alloc: Global) -> Result<Vec<Key>, Refusal> {
    let mut keys = Vec::new(alloc);
    for number in 0..8 {
        push_key(&mut keys, alloc, number)?;
    }
    Ok(keys)
}

// The number of the key.
pub fn number_of(keys: &[Key], key: &Key) -> Option<usize> {
    keys.iter().position(|other| other == key)
}

fn millis(at: u64) -> Result<Millis, Refusal> {
    Millis::new(at).ok_or(Refusal::Syntax)
}

pub fn tick(queue: &mut Queue, at: u64) -> Result<(), Refusal> {
    queue.tick(millis(at)?)
}

// The end of the work on a key, where it is worked on.
fn finish(queue: &mut Queue, key: &Key, kind: Kind, at: u64) -> Result<(), Refusal> {
    let now = millis(at)?;
    match kind {
        _ if !queue.is_processing(key) => Ok(()),
        Kind::FinishRetry => queue.finish_retry(key, now),
        Kind::FinishOk => queue.finish_ok(key, Some(at)),
        Kind::FinishLast => queue.finish_ok(key, None),
        _ => queue.done(key),
    }
}

// A call that answers nothing.
fn change(queue: &mut Queue, key: &Key, kind: Kind, at: u64) -> Result<(), Refusal> {
    match kind {
        Kind::Add => queue.add(key)?,
        Kind::AddAfter => queue.add_after(key, at)?,
        Kind::Tick => tick(queue, at)?,
        Kind::Failed => queue.failed(key)?,
        Kind::Shut => queue.shut(),
        Kind::Forget => queue.forget(key),
        _ => finish(queue, key, kind, at)?,
    }
    Ok(())
}

// The number of the key that is taken.
fn take(queue: &mut Queue, keys: &[Key]) -> Result<Option<usize>, Refusal> {
    match queue.take()? {
        Some(key) => Ok(number_of(keys, &key)),
        None => Ok(None),
    }
}

// One call, which answers the number of the key that it takes.
pub fn ask(queue: &mut Queue, keys: &[Key], call: Call) -> Result<Option<usize>, Refusal> {
    if let Kind::Take = call.kind {
        return take(queue, keys);
    }
    match keys.get(call.key) {
        Some(key) => change(queue, key, call.kind, call.at)?,
        None => return Err(Refusal::NotFound),
    }
    Ok(None)
}
