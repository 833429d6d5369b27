use crate::hub::answers::{called, word_of};
use crate::hub::closings::{Counts, counts};
use crate::hub::users::{each_has, four_users};
use crate::hubs::{hub_of, pass_of};
use cj_calls::{Call, Role};
use cj_hub::{NotClosed, Pass, Receipt};
use std::alloc::Global;
use std::mem;
use std::process::Abort;
use std::sync::Wait;
use std::thread::Threads;

// A pass of another hub, with one receipt.
fn stranger(rt: &(impl Wait + Abort), alloc: Global) -> Pass {
    let hub = hub_of(rt, alloc, 100);
    let mut pass = pass_of(rt, &hub, Role::User);
    called(rt, &hub, &mut pass, Call::ListJobs);
    mem::forget(hub);
    pass
}

// What refused a closing, the receipts of the last pass that came back, whether each of the others
// has 200, and the counts of the book once it is closed without that pass.
type Refused = (&'static str, usize, bool, Counts);

fn close_again(rt: &impl Abort, refused: NotClosed, receipts: &[Receipt]) -> Refused {
    let NotClosed {
        book,
        mut passes,
        refusal,
    } = refused;
    let last = passes.pop().expect(rt, "five passes");
    let last_count = last.receipts().len();
    let is_counted = passes.len() == 4 && each_has(passes.as_slice(), 200);
    let counts = counts(book.close(passes), receipts);
    (word_of(&refusal), last_count, is_counted, counts)
}

// The answer of a hub to a pass of another, and the closing with that pass beside those of four
// users.
fn closing(rt: &(impl Threads + Wait + Abort + Sync), alloc: Global) -> (&'static str, Refused) {
    let hub = hub_of(rt, alloc, 10_000);
    let (mut passes, receipts) = four_users(rt, alloc, &hub);
    let mut strange = stranger(rt, alloc);
    let answer = called(rt, &hub, &mut strange, Call::ListJobs);
    passes.push(strange).expect(rt, "memory");
    let refused = hub.close(passes).err().expect(rt, "a refusal");
    (answer, close_again(rt, refused, receipts.as_slice()))
}

// A pass of another hub is answered Estranged. With it beside the four right ones the hub isn't
// closed, for the same reason, and book and passes come back with all receipts: the book closes
// without it, with all that was entered.
// rules: hub-call, closing, passes
#[test]
fn a_pass_of_another_hub(rt: HostRuntime) {
    let told = closing(&rt, rt.alloc());
    let wanted = ("Estranged", 1, true, [800, 800]);
    assert!(rt; told == ("Estranged", wanted));
}
