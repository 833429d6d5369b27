use crate::store::boxed::boxed;
use crate::store::drafts::{owned_draft, seconds};
use cj_store::{Store, make_both, update_both};
use cj_types::{Heap, JobDraft, Key, Refusal};
use std::alloc::Global;

// Whether a Job of that name has this uid and this version.
fn stands(store: &Store, alloc: Global, name: &str, uid: u64, version: u64) -> bool {
    match Key::new(alloc, "default", name) {
        Ok(key) => match store.get_job(&key) {
            Some(job) => job.meta.uid.get() == uid && job.meta.version.get() == version,
            None => false,
        },
        Err(_) => false,
    }
}

fn draft(alloc: Global, name: &str) -> Result<Heap<JobDraft>, Refusal> {
    Heap::new(alloc, owned_draft(alloc, name, "cron", "u")?)
}

fn make(store: &mut Store, alloc: Global) -> Result<(), Refusal> {
    let now = seconds(1_704_067_200)?;
    let one = draft(alloc, "a")?;
    let other = draft(alloc, "b")?;
    make_both(store, alloc, one, other, now)
}

fn update(store: &mut Store, alloc: Global) -> Result<(), Refusal> {
    let one = draft(alloc, "b")?;
    let other = draft(alloc, "b")?;
    update_both(store, alloc, one, other)
}

// Whether two Jobs stand once they were made, and the second once it was updated twice.
fn are_planned(alloc: Global) -> Result<bool, Refusal> {
    let mut store = boxed(alloc, Store::new(alloc))?;
    make(&mut store, alloc)?;
    let first = stands(&store, alloc, "a", 1, 1);
    let second = stands(&store, alloc, "b", 2, 2);
    update(&mut store, alloc)?;
    Ok(first && second && stands(&store, alloc, "b", 2, 4))
}

// rule: planned-change
#[test]
fn makes_plans_in_turn(rt: HostRuntime) {
    let planned = are_planned(rt.alloc()).unwrap_or(false);
    assert!(rt; planned);
}
