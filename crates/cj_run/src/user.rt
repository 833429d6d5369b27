// What the user of a run does.
ghost use Rattle.std.specs.Prelude.{OnOk, [], ◌∷◌};
ghost use Rattle.cj_run.specs.Simulations.{creation, creations, edits_at};
ghost use Rattle.cj_run.specs.Actions.{Called, Does};

use cj_calls::Call;
use cj_hub::{Hub, Pass};
use cj_script::{Edit, Operation, unseen_call};
use cj_types::{CronJobDraft, Refusal, Seconds, Shared, TryCopy};
use cj_zone::ZoneTable;
use std::alloc::Global;
use std::sync::Wait;

// Makes one call. The pass keeps its receipt.
fn make<R: Wait>(rt: &R, hub: &Hub, user: &mut Pass, call: Call) -> Result<(), Refusal>
    ensures { OnOk result (Called call user.old user.new) }
{
    match hub.call(rt, user, call) {
        Ok(_) => Ok(()),
        Err(refusal) => Err(refusal),
    }
}

// Creates a CronJob.
#[tactic(auto, using(crate::proofs::Done::does_call))]
fn create<R: Wait>(
    rt: &R,
    alloc: Global,
    hub: &Hub,
    user: &mut Pass,
    zones: &ZoneTable,
    draft: &Shared<CronJobDraft>,
    at: Seconds,
) -> Result<(), Refusal>
    ensures { OnOk result (Does zones.now (creation at draft.now ∷ []) user.old user.new) }
{
    let draft = draft.try_copy(alloc)?;
    make(rt, hub, user, Call::CreateCron(draft, at))
}

/// Creates the CronJobs, one after the other.
pub(crate) fn create_all<R: Wait>(
    rt: &R,
    alloc: Global,
    hub: &Hub,
    user: &mut Pass,
    zones: &ZoneTable,
    drafts: &[Shared<CronJobDraft>],
    at: Seconds,
) -> Result<(), Refusal>
    ensures { OnOk result (Does zones.now (creations at drafts.now) user.old user.new) }
{
    for draft in drafts {
        create(rt, alloc, hub, user, zones, draft, at)?;
    }
    Ok(())
}

#[tactic(auto, using(crate::proofs::Done::does_call))]
fn operation<R: Wait>(
    rt: &R,
    alloc: Global,
    hub: &Hub,
    user: &mut Pass,
    zones: &ZoneTable,
    operation: &Operation,
) -> Result<(), Refusal>
    ensures { OnOk result (Does zones.now (operation.now ∷ []) user.old user.new) }
{
    let call = unseen_call(alloc, zones, operation)?;
    make(rt, hub, user, call)
}

// Makes an edit, if it is due at the moment.
#[tactic(auto, unfolding(crate::specs::Simulations::edits_at), using(crate::proofs::Done::does_nothing))]
fn edit<R: Wait>(
    rt: &R,
    alloc: Global,
    hub: &Hub,
    user: &mut Pass,
    zones: &ZoneTable,
    edit: &Edit,
    now: Seconds,
) -> Result<(), Refusal>
    ensures { OnOk result (Does zones.now (edits_at (edit.now ∷ []) now) user.old user.new) }
{
    if edit.at == now {
        operation(rt, alloc, hub, user, zones, &edit.operation)
    } else {
        Ok(())
    }
}

/// Makes the edits that are due at the moment, one after the other.
pub(crate) fn edit_all<R: Wait>(
    rt: &R,
    alloc: Global,
    hub: &Hub,
    user: &mut Pass,
    zones: &ZoneTable,
    edits: &[Edit],
    now: Seconds,
) -> Result<(), Refusal>
    ensures { OnOk result (Does zones.now (edits_at edits.now now) user.old user.new) }
{
    for one in edits {
        edit(rt, alloc, hub, user, zones, one, now)?;
    }
    Ok(())
}
