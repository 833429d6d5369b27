use crate::store::boxed::boxed;
use crate::store::calls::{Ask, NOW, is_answered};
use crate::store::told::Answer;
use cj_store::Store;
use cj_types::Refusal;
use std::alloc::Global;

fn done(uid: u64, version: u64, generation: u64) -> Answer {
    Answer::Done([uid, version, generation, NOW])
}

// Calls one after the other, each with its answer.
fn rows() -> [(Ask, Answer); 9] {
    [
        (Ask::Create("s0", None), done(1, 1, 1)),
        (Ask::Create("s0", None), Answer::Refused(5, 0)),
        (Ask::Update("s0", None), done(1, 2, 1)),
        (Ask::Update("s1", Some(1)), Answer::Refused(6, 2)),
        (Ask::Update("s1", Some(2)), done(1, 3, 2)),
        (Ask::Create("s0", Some(3)), Answer::Refused(2, 0)),
        (Ask::Delete, Answer::Gone(4)),
        (Ask::Delete, Answer::Refused(4, 0)),
        (Ask::Create("s0", None), done(2, 5, 1)),
    ]
}

// The first row of calls to a new store that isn't answered so.
fn first_wrong(alloc: Global, rows: &[(Ask, Answer)]) -> Result<Option<usize>, Refusal> {
    let mut store = boxed(alloc, Store::new(alloc))?;
    for (place, (ask, answer)) in rows.iter().enumerate() {
        if !is_answered(&mut store, alloc, *ask, *answer) {
            return Ok(Some(place));
        }
    }
    Ok(None)
}

// rules: versions, create, update, deletion, uid-never-returns
#[test]
fn answers_a_row_of_calls(rt: HostRuntime) {
    let wrong = first_wrong(rt.alloc(), &rows());
    assert_eq!(rt; wrong.unwrap_or(Some(99_999)), None);
}
