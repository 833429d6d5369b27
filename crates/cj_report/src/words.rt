// The words for verbs and refusals.
ghost use Rattle.std.specs.Prelude.{◌≡◌};
ghost use Rattle.cj_report.specs.Words as word;

use cj_script::{Plain, Verb, Write};
use cj_types::Refusal;

fn write_word(verb: Write) -> &'static str
    ensures { result.now ≡ word.write_word verb }
{
    match verb {
        Write::CreateCron => "createCron",
        Write::UpdateCron => "updateCron",
        Write::CreateJob => "createJob",
        Write::UpdateJob => "updateJob",
    }
}

fn plain_word(verb: Plain) -> &'static str
    ensures { result.now ≡ word.plain_word verb }
{
    match verb {
        Plain::DeleteCron => "deleteCron",
        Plain::DeleteJob => "deleteJob",
        Plain::EndJob => "endJob",
        Plain::Watch => "watch",
        Plain::Add => "add",
        Plain::Tick => "tick",
        Plain::Shut => "shut",
        Plain::Feed => "feed",
        Plain::Take => "take",
        Plain::SeeCron => "seeCron",
        Plain::SeeJobs => "seeJobs",
        Plain::SeeActive => "seeActive",
        Plain::Claim => "claim",
        Plain::Drops => "drop",
        Plain::Make => "make",
        Plain::SetStatus => "setStatus",
        Plain::Finish => "finish",
    }
}

/// The word of a verb.
#[tactic(auto, unfolding(crate::specs::Words::verb_word))]
pub(crate) fn verb_word(verb: Verb) -> &'static str
    ensures { result.now ≡ word.verb_word verb }
{
    match verb {
        Verb::Writes(write) => write_word(write),
        Verb::Does(plain) => plain_word(plain),
    }
}

/// The name of a refusal.
#[tactic(auto, unfolding(crate::specs::Words::refusal_name))]
pub fn refusal_name(refusal: &Refusal) -> &'static str
    ensures { result.now ≡ word.refusal_name refusal.now }
{
    match refusal {
        Refusal::Syntax => "Syntax",
        Refusal::Invalid(_) => "Invalid",
        Refusal::NotPermitted => "NotPermitted",
        Refusal::NotFound => "NotFound",
        Refusal::AlreadyExists => "AlreadyExists",
        Refusal::Conflict(_) => "Conflict",
        Refusal::Expired(_) => "Expired",
        Refusal::OutOfPhase => "OutOfPhase",
        Refusal::Stale => "Stale",
        Refusal::Empty => "Empty",
        Refusal::ShutDown => "ShutDown",
        Refusal::HistoryFull => "HistoryFull",
        Refusal::Estranged => "Estranged",
        Refusal::OutOfMemory => "OutOfMemory",
        Refusal::AlreadyFinished => "AlreadyFinished",
    }
}
