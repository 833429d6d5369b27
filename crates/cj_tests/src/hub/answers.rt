// What came of calls, in a word.
use cj_calls::{Call, Reply};
use cj_hub::{Hub, Pass, Receipt};
use cj_types::Refusal;
use std::mem;
use std::sync::Wait;

/// The refusal's word.
pub fn word_of(refusal: &Refusal) -> &'static str {
    match refusal {
        Refusal::Empty => "Empty",
        Refusal::Estranged => "Estranged",
        Refusal::Expired(_) => "Expired",
        Refusal::HistoryFull => "HistoryFull",
        Refusal::ShutDown => "ShutDown",
        _ => "another refusal",
    }
}

// What an entered call was answered.
fn word_in(receipt: &Receipt) -> &'static str {
    match receipt.answer() {
        Ok(Reply::Key(_)) => "Key",
        Ok(_) => "entered",
        Err(refusal) => word_of(refusal),
    }
}

/// What came of a call.
pub fn word(answered: Result<Receipt, Refusal>) -> &'static str {
    let word = match &answered {
        Ok(receipt) => word_in(receipt),
        Err(refusal) => word_of(refusal),
    };
    mem::forget(answered);
    word
}

/// Makes the call of the pass. Answers the word of its refusal, by the hub or by the world, `Key`
/// where it took one, else `entered`.
pub fn called(rt: &impl Wait, hub: &Hub, pass: &mut Pass, call: Call) -> &'static str {
    word(hub.call(rt, pass, call))
}

/// The same of a Take that waits.
pub fn waited(rt: &impl Wait, hub: &Hub, pass: &mut Pass) -> &'static str {
    word(hub.take_wait(rt, pass))
}
