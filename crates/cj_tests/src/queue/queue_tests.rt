use crate::queue::boxed::boxed;
use crate::queue::calls::{Call, Kind, ask, eight_keys, tick};
use cj_queue::Queue;
use cj_types::{Key, Refusal};
use std::alloc::Global;

// The kind of call that the sign stands for.
fn kind_of(sign: u8) -> Kind {
    match sign {
        b'+' => Kind::Add,
        b'<' => Kind::Take,
        b'-' => Kind::Done,
        b'w' => Kind::AddAfter,
        b't' => Kind::Tick,
        b'n' => Kind::FinishOk,
        b'l' => Kind::FinishLast,
        b'r' => Kind::FinishRetry,
        _ => Kind::Shut,
    }
}

// The time of a word, which stands behind an @.
fn time_of(word: &str) -> u64 {
    let mut time = 0u64;
    let mut is_time = false;
    for byte in word.bytes() {
        if is_time {
            time = time.wrapping_mul(10).wrapping_add(u64::from(byte & 15));
        }
        is_time = is_time || byte == b'@';
    }
    time
}

// The call of a word: the sign of its kind, the digit of its key, and its time.
fn call_of(word: &str) -> Call {
    let bytes = word.as_bytes();
    let digit = bytes.get(1).copied().unwrap_or(0);
    Call {
        kind: kind_of(bytes.first().copied().unwrap_or(0)),
        key: usize::from(digit & 7),
        at: time_of(word),
    }
}

const DIGITS: [&str; 8] = ["0", "1", "2", "3", "4", "5", "6", "7"];

// Makes the word's call, and writes the key that it takes, if it is a take.
fn step(queue: &mut Queue, keys: &[Key], word: &str, text: &mut String) -> Result<(), Refusal> {
    match ask(queue, keys, call_of(word))? {
        Some(number) => text.push_str(DIGITS[number % 8])?,
        None if word == "<" => text.push('.')?,
        None => {}
    }
    Ok(())
}

// Makes the calls, and writes the keys that are taken.
fn make_all(
    queue: &mut Queue,
    keys: &[Key],
    calls: &str,
    text: &mut String,
) -> Result<(), Refusal> {
    for word in calls.split(' ') {
        step(queue, keys, word, text)?;
    }
    Ok(())
}

// Whether a new queue gives these keys in these calls.
fn gives_keys(alloc: Global, keys: &[Key], calls: &str, wanted: &str) -> Result<bool, Refusal> {
    let mut queue = boxed(alloc, Queue::new(alloc))?;
    let mut text = String::new(alloc);
    make_all(&mut queue, keys, calls, &mut text)?;
    Ok(text.as_str() == wanted)
}

// Calls, and the keys that are taken.
const TAKEN: [(&str, &str); 10] = [
    // Adds, takes and dones; key 0 is added again while it is worked on.
    ("+0 +1 +0 < +0 -0 < < < -0 <", "010.."),
    ("+0 +1 +0 < +0 < < -0 <", "01.0"),
    // Of three times the earliest counts.
    ("w2@100 w2@200 w2@50 t0@49 < t0@50 < -2 t0@300 <", ".2."),
    // A time that isn't above the greatest tick.
    ("t0@50 t0@40 w3@50 < -3 w3@51 < t0@50 < t0@51 <", "3..3"),
    ("+1 +0 t0@50 w2@40 < < <", "102"),
    // The end of a sync: with a further time, with a retry after 5, then after 10 ms, and with
    // none.
    ("+3 < n3@10 t0@9 < t0@10 <", "3.3"),
    ("+3 < r3@10 t0@14 < t0@15 < r3@15 t0@24 < t0@25 <", "3.3.3"),
    (
        "+3 < r3@10 t0@15 < l3 t0@15 +3 < r3@20 t0@24 < t0@25 <",
        "333.3",
    ),
    ("+3 < +3 l3 <", "33"),
    // After shut the line is drained, and a key that was added before comes again.
    ("+4 < +4 +5 w6@900 ! +7 w7@0 w7@900 t0@990 -4 < < <", "454."),
];

// The first row of calls in which other keys are taken.
fn first_wrong(alloc: Global) -> Result<&'static str, Refusal> {
    let keys = eight_keys(alloc)?;
    for (calls, wanted) in TAKEN {
        if !gives_keys(alloc, keys.as_slice(), calls, wanted)? {
            return Ok(calls);
        }
    }
    Ok("")
}

// rules: queue-add, queue-take, queue-done, add-while-held, queue-shut, queue-delay, queue-retry
#[test]
fn gives_the_keys_of_rows_of_calls(rt: HostRuntime) {
    let wrong = first_wrong(rt.alloc()).unwrap_or("no memory");
    assert_eq!(rt; wrong, "");
}

// The delay before a retry after so many failures, and the one after `forget`.
fn delays_of(queue: &mut Queue, key: &Key, failures: u64) -> Result<[u64; 2], Refusal> {
    for _ in 0..failures {
        queue.failed(key)?;
    }
    let delay = queue.retry_delay(key).get();
    queue.forget(key);
    Ok([delay, queue.retry_delay(key).get()])
}

// Numbers of failures, and the delays after them.
const DELAYS: [(u64, u64); 6] = [
    (0, 5),
    (1, 10),
    (2, 20),
    (17, 655_360),
    (18, 1_000_000),
    (40, 1_000_000),
];

// The first number of failures after which the delay is another, or after which `forget` leaves
// one.
fn first_other(queue: &mut Queue, key: &Key) -> Result<Option<u64>, Refusal> {
    for (failures, wanted) in DELAYS {
        if delays_of(queue, key, failures)? != [wanted, 5] {
            return Ok(Some(failures));
        }
    }
    Ok(None)
}

fn other_delay(alloc: Global) -> Result<Option<u64>, Refusal> {
    let key = Key::new(alloc, "default", "key")?;
    let mut queue = boxed(alloc, Queue::new(alloc))?;
    first_other(&mut queue, &key)
}

// rule: queue-retry
#[test]
fn delays_retries(rt: HostRuntime) {
    let other = other_delay(rt.alloc()).unwrap_or(Some(9_999));
    assert_eq!(rt; other, None);
}

fn numbered(alloc: Global, namespace: &str, number: u64) -> Result<Key, Refusal> {
    let name = format!(in alloc; "key-{number:04}")?;
    Key::new(alloc, namespace, name.as_str())
}

fn wait_at(queue: &mut Queue, alloc: Global, namespace: &str, at: u64) -> Result<(), Refusal> {
    let key = numbered(alloc, namespace, 1_000u64.saturating_sub(at))?;
    queue.add_after(&key, at)
}

// A thousand keys of each of two namespaces wait for the times 1 to 1,000 in falling order of key.
fn wait_all(queue: &mut Queue, alloc: Global) -> Result<(), Refusal> {
    for at in 1..=1_000 {
        wait_at(queue, alloc, "b", at)?;
    }
    for at in 1..=1_000 {
        wait_at(queue, alloc, "a", at)?;
    }
    Ok(())
}

// Whether the queue gives the key.
fn gives(queue: &mut Queue, alloc: Global, namespace: &str, number: u64) -> Result<bool, Refusal> {
    let key = numbered(alloc, namespace, number)?;
    match queue.take()? {
        Some(taken) => Ok(taken == key),
        None => Ok(false),
    }
}

// Whether the queue gives the keys of two namespaces by falling number, and no other.
fn gives_all(queue: &mut Queue, alloc: Global) -> Result<bool, Refusal> {
    for turn in 0..500 {
        let number = 999u64.saturating_sub(turn);
        if !gives(queue, alloc, "a", number)? || !gives(queue, alloc, "b", number)? {
            return Ok(false);
        }
    }
    Ok(queue.front().is_none())
}

fn ticks_in_order(alloc: Global) -> Result<bool, Refusal> {
    let mut queue = boxed(alloc, Queue::new(alloc))?;
    wait_all(&mut queue, alloc)?;
    tick(&mut queue, 500)?;
    gives_all(&mut queue, alloc)
}

// rule: queue-tick
#[test]
fn ticks_by_time_and_then_by_key(rt: HostRuntime) {
    let is_right = ticks_in_order(rt.alloc()).unwrap_or(false);
    assert!(rt; is_right);
}
