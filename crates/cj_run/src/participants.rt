// Who takes part in a run.
ghost use Rattle.std.specs.Prelude.{◌≡◌, ◌↔◌, All, IfOk, IsTrue, map};
ghost use Rattle.cj_hub.specs.Receipts.{caller_of};
ghost use Rattle.cj_run.specs.Participants.{AreNumbered, HasWorked, AreComplete, IsOwn, passes_of};

use crate::work::is_over;
use cj_calls::{Caller, Entry, Role};
use cj_hub::Pass;
use std::alloc::{AllocError, Global};

/// How many runners a run has.
pub(crate) const RUNNERS: u64 = 2;

/// The passes of all who take part in a run, by what they do in it.
#[derive(Drop)]
pub(crate) struct Participants {
    pub workers: Vec<Pass>,
    pub runners: Vec<Pass>,
    pub informer: Pass,
    pub user: Pass,
}

fn has_role(pass: &Pass, role: Role) -> bool
    ensures { IsTrue result ↔ (pass.now.role ≡ role) }
{
    pass.caller().role == role
}

fn has_worked(pass: &Pass) -> bool
    ensures { IsTrue result ↔ HasWorked pass.now }
{
    has_role(pass, Role::Worker) && is_over(pass.receipts())
}

fn have_role(passes: &[Pass], role: Role) -> bool
    ensures { IsTrue result ↔ All (λ p. p.role ≡ role) passes.now }
{
    passes.iter().all(|pass| has_role(pass, role))
}

fn have_worked(passes: &[Pass]) -> bool
    ensures { IsTrue result ↔ All HasWorked passes.now }
{
    passes.iter().all(|pass| has_worked(pass))
}

/// Whether these are an informer, two runners, a user, and that many workers, each of which made
/// whole syncs and found the queue shut in the end.
pub(crate) fn are_complete(participants: &Participants, workers: u64) -> bool
    ensures { IsTrue result ↔ AreComplete workers participants.now }
{
    let informer = has_role(&participants.informer, Role::Informer);
    let runners = have_role(participants.runners.as_slice(), Role::Runner);
    let two = participants.runners.as_slice().len() as u64 == RUNNERS;
    let worked = have_worked(participants.workers.as_slice());
    let wanted = participants.workers.as_slice().len() as u64 == workers;
    let user = has_role(&participants.user, Role::User);
    informer && runners && two && worked && wanted && user
}

/// All passes of a run, in the order of their numbers.
pub(crate) fn passes_of(alloc: Global, participants: Participants) -> Result<Vec<Pass>, AllocError>
    ensures { IfOk result (λ ps. ps.items ≡ passes_of participants) }
{
    let Participants {
        mut workers,
        mut runners,
        informer,
        user,
    } = participants;
    let mut passes = Vec::new(alloc);
    passes.append(&mut workers)?;
    passes.append(&mut runners)?;
    passes.push(informer)?;
    passes.push(user)?;
    Ok(passes)
}

/// The callers of these passes.
pub(crate) fn callers_of(alloc: Global, passes: &[Pass]) -> Result<Vec<Caller>, AllocError>
    ensures { IfOk result (λ cs. cs.items ≡ map caller_of passes.now) }
{
    let mut callers = Vec::new(alloc);
    for pass in passes {
        callers.push(pass.caller())?;
    }
    Ok(callers)
}

/// Whether the callers are numbered by their places, from 0 on.
pub(crate) fn are_numbered(callers: &[Caller]) -> bool
    ensures { IsTrue result ↔ AreNumbered 0 callers.now }
{
    let mut number = 0u64;
    for caller in callers {
        if caller.number != number {
            return false;
        }
        number += 1;
    }
    true
}

/// Whether the entry's caller is the one of these that has its number.
pub(crate) fn is_own(callers: &[Caller], entry: &Entry) -> bool
    ensures { IsTrue result ↔ IsOwn callers.now entry.now }
{
    let caller = entry.caller();
    match callers.get(caller.number as usize) {
        Some(found) => *found == caller,
        None => false,
    }
}
