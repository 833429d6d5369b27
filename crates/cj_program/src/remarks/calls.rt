// How a call is described to people.
ghost use Rattle.std.specs.Prelude.{◌≡◌, IfOk, option_copied, string_bytes};
ghost use Rattle.cj_program.specs.remarks.Calls as said;

use cj_calls::Call;
use cj_types::{Key, Refusal};
use std::alloc::{AllocError, Global};

// The object that a call names.
fn key_in(call: &Call) -> Option<&Key>
    ensures { option_copied result ≡ said.place_in call.now }
{
    match call {
        Call::CreateCron(draft, _) => Some(draft.get().key.key()),
        Call::UpdateCron(draft) => Some(draft.get().key.key()),
        Call::DeleteCron(key) => Some(key),
        Call::CreateJob(draft, _) => Some(&draft.get().key),
        Call::UpdateJob(draft) => Some(&draft.get().key),
        Call::DeleteJob(key) => Some(key),
        Call::EndJob(key, _, _, _) => Some(key),
        Call::Add(key) => Some(key),
        _ => None,
    }
}

/// The name of that object, behind a blank.
pub(crate) fn place_text(alloc: Global, call: &Call) -> Result<String, AllocError>
    ensures { IfOk result (λ s. string_bytes s ≡ said.place_text (said.place_in call.now)) }
{
    match key_in(call) {
        Some(key) => {
            let namespace = key.namespace();
            let name = key.name();
            format!(in alloc; " {namespace}/{name}")
        }
        None => Ok(String::new(alloc)),
    }
}

/// The name of a refusal, and what it means for a user.
#[tactic(auto, unfolding(crate::specs::remarks::Calls::refusal_words))]
pub(crate) fn refusal_words(refusal: &Refusal) -> &'static str
    ensures { result.now ≡ said.refusal_words refusal.now }
{
    match refusal {
        Refusal::Invalid(_) => "Invalid, since a new object may have no metadata.resourceVersion",
        Refusal::NotPermitted => "NotPermitted, since a user may not do that",
        Refusal::NotFound => "NotFound, since there is no such object",
        Refusal::AlreadyExists => "AlreadyExists, since there is an object of that name",
        Refusal::Conflict(_) => "Conflict, since the object has another uid or resourceVersion",
        Refusal::Expired(_) => "Expired, since events of so long ago aren't kept",
        Refusal::AlreadyFinished => "AlreadyFinished, since the Job has ended",
        Refusal::Syntax => "Syntax",
        Refusal::OutOfPhase => "OutOfPhase",
        Refusal::Stale => "Stale",
        Refusal::Empty => "Empty",
        Refusal::ShutDown => "ShutDown",
        Refusal::HistoryFull => "HistoryFull",
        Refusal::Estranged => "Estranged",
        Refusal::OutOfMemory => "OutOfMemory",
    }
}
