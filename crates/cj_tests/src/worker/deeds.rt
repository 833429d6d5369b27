// What the entries of a closed history tell.
use cj_calls::{Answer, Call, End, Entry, Reply};
use cj_hub::{Closed, Hub, Pass};
use cj_types::{Reason, Reasons, Refusal};
use std::mem;
use std::process::Abort;

/// What an entry tells.
#[derive(Clone, Copy, PartialEq, Eq)]
pub enum Deed {
    /// A key was added to the queue.
    Added,
    /// A CronJob was edited.
    Edited,
    /// A key was taken.
    Took,
    /// A time was claimed.
    Claimed,
    /// The making of a Job was refused AlreadyExists.
    WasRefused,
    /// A sync ended well.
    Finished,
    /// A sync ended, asks for another try, and gives FailedCreate as its one reason.
    PutOff,
    /// Nothing of this.
    Other,
}

fn if_accepted(answer: &Answer, deed: Deed) -> Deed {
    if answer.is_ok() { deed } else { Deed::Other }
}

fn taking(answer: &Answer) -> Deed {
    match answer {
        Ok(Reply::Key(_)) => Deed::Took,
        _ => Deed::Other,
    }
}

fn claiming(answer: &Answer) -> Deed {
    match answer {
        Ok(Reply::Claimed(Some(_))) => Deed::Claimed,
        _ => Deed::Other,
    }
}

fn making(answer: &Answer) -> Deed {
    match answer {
        Err(Refusal::AlreadyExists) => Deed::WasRefused,
        _ => Deed::Other,
    }
}

fn finishing(end: End, reasons: &Reasons) -> Deed {
    match (end, reasons.as_slice()) {
        (End::Well, []) => Deed::Finished,
        (End::Again(_), [Reason::FailedCreate]) => Deed::PutOff,
        _ => Deed::Other,
    }
}

fn deed_of(entry: &Entry) -> Deed {
    let answer = entry.answer();
    match entry.call() {
        Call::Add(_) => if_accepted(answer, Deed::Added),
        Call::UpdateCron(_) => if_accepted(answer, Deed::Edited),
        Call::Take => taking(answer),
        Call::Claim(_) => claiming(answer),
        Call::MakeNext => making(answer),
        Call::Finish(end, reasons) => if_accepted(answer, finishing(*end, reasons)),
        _ => Deed::Other,
    }
}

fn has_made(entry: &Entry, name: &str) -> bool {
    match (entry.call(), entry.answer()) {
        (Call::MakeNext, Ok(Reply::Job(job))) => job.get().key.name() == name,
        _ => false,
    }
}

/// What is looked for in a history.
#[derive(Clone, Copy)]
pub enum Sought {
    /// An entry of the caller with the number that tells this.
    By(u64, Deed),
    /// The making of the Job of the name.
    Job(&'static str),
}

fn is_sought(entry: &Entry, sought: Sought) -> bool {
    match sought {
        Sought::By(number, deed) => entry.caller().number == number && deed_of(entry) == deed,
        Sought::Job(name) => has_made(entry, name),
    }
}

fn count(entries: &[Entry], sought: Sought) -> usize {
    let mut count = 0usize;
    for entry in entries {
        if is_sought(entry, sought) {
            count = count.saturating_add(1);
        }
    }
    count
}

/// What the hub, whose passes are these, has once it is closed.
pub fn closed(rt: &impl Abort, hub: Hub, passes: Vec<Pass>) -> Closed {
    match hub.close(passes) {
        Ok(closed) => closed,
        Err(refused) => {
            mem::forget(refused);
            panic!(rt; "the passes aren't those of the hub")
        }
    }
}

/// How often the closed history of the hub, whose passes are these, tells each of the four.
pub fn counts(rt: &impl Abort, hub: Hub, passes: Vec<Pass>, sought: [Sought; 4]) -> [usize; 4] {
    let closed = closed(rt, hub, passes);
    let entries = closed.history();
    let [one, two, three, four] = sought;
    let counts = [
        count(entries, one),
        count(entries, two),
        count(entries, three),
        count(entries, four),
    ];
    mem::forget(closed);
    counts
}
