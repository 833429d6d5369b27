ghost use Rattle.std.specs.Prelude.{◌≡◌, ◌+◌, OnOk};
ghost use Rattle.cj_store.specs.Content.{HasRoom};

use crate::store::Store;
use cj_types::{Heap, JobDraft, Refusal, Seconds};
use std::alloc::Global;

// Creates a Job by a plan.
fn make(
    store: &mut Store,
    alloc: Global,
    draft: Heap<JobDraft>,
    now: Seconds,
) -> Result<(), Refusal>
    requires { HasRoom store.old }
    ensures { OnOk result (store.new.version ≡ store.old.version + 1) }
{
    let change = store.plan_make_job(alloc, draft.into_inner(), now)?;
    store.commit(alloc, change)
}

// Updates a Job by a plan.
fn update(store: &mut Store, alloc: Global, draft: Heap<JobDraft>) -> Result<(), Refusal>
    requires { HasRoom store.old }
    ensures { OnOk result (store.new.version ≡ store.old.version + 1) }
{
    let change = store.plan_update_job(alloc, draft.into_inner())?;
    store.commit(alloc, change)
}

/// Creates two Jobs, each by a plan. The second is planned after the first is created: a plan holds
/// only for the content that it was made on.
pub fn make_both(
    store: &mut Store,
    alloc: Global,
    one: Heap<JobDraft>,
    other: Heap<JobDraft>,
    now: Seconds,
) -> Result<(), Refusal>
    ensures { OnOk result (store.new.version ≡ store.old.version + 2) }
{
    if store.version().get() >= 1_099_511_627_775 {
        return Err(Refusal::HistoryFull);
    }
    make(store, alloc, one, now)?;
    make(store, alloc, other, now)
}

/// Makes two updates of Jobs, each by a plan.
pub fn update_both(
    store: &mut Store,
    alloc: Global,
    one: Heap<JobDraft>,
    other: Heap<JobDraft>,
) -> Result<(), Refusal>
    ensures { OnOk result (store.new.version ≡ store.old.version + 2) }
{
    if store.version().get() >= 1_099_511_627_775 {
        return Err(Refusal::HistoryFull);
    }
    update(store, alloc, one)?;
    update(store, alloc, other)
}
