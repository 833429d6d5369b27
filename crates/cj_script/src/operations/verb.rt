// The words for what a step does.
ghost use Rattle.std.specs.Prelude.{◌≡◌};
ghost use Rattle.cj_script.specs.operations.Verbs as word;

/// A call that takes a manifest.
#[derive(Clone, Copy, Debug, PartialEq, Eq)]
pub enum Write {
    CreateCron,
    UpdateCron,
    CreateJob,
    UpdateJob,
}

/// A call that takes none.
#[derive(Clone, Copy, Debug, PartialEq, Eq)]
pub enum Plain {
    DeleteCron,
    DeleteJob,
    EndJob,
    Watch,
    Add,
    Tick,
    Shut,
    Feed,
    Take,
    SeeCron,
    SeeJobs,
    SeeActive,
    Claim,
    Drops,
    Make,
    SetStatus,
    Finish,
}

/// What a step does: a call by its kind.
#[derive(Clone, Copy, Debug, PartialEq, Eq)]
pub enum Verb {
    Writes(Write),
    Does(Plain),
}

fn worker_verb(text: &str) -> Option<Verb>
    ensures { result ≡ word.worker_verb text.now }
{
    match text {
        "take" => Some(Verb::Does(Plain::Take)),
        "seeCron" => Some(Verb::Does(Plain::SeeCron)),
        "seeJobs" => Some(Verb::Does(Plain::SeeJobs)),
        "seeActive" => Some(Verb::Does(Plain::SeeActive)),
        "claim" => Some(Verb::Does(Plain::Claim)),
        "drop" => Some(Verb::Does(Plain::Drops)),
        "make" => Some(Verb::Does(Plain::Make)),
        "setStatus" => Some(Verb::Does(Plain::SetStatus)),
        "finish" => Some(Verb::Does(Plain::Finish)),
        _ => None,
    }
}

#[tactic(auto, unfolding(crate::specs::operations::Verbs::informer_verb))]
fn informer_verb(text: &str) -> Option<Verb>
    ensures { result ≡ word.informer_verb text.now }
{
    match text {
        "watch" => Some(Verb::Does(Plain::Watch)),
        "add" => Some(Verb::Does(Plain::Add)),
        "tick" => Some(Verb::Does(Plain::Tick)),
        "shut" => Some(Verb::Does(Plain::Shut)),
        "feed" => Some(Verb::Does(Plain::Feed)),
        _ => worker_verb(text),
    }
}

/// The verb of a word, which is the name of a call with a small first letter.
#[tactic(auto, unfolding(crate::specs::operations::Verbs::verb_named))]
pub fn verb_named(text: &str) -> Option<Verb>
    ensures { result ≡ word.verb_named text.now }
{
    match text {
        "createCron" => Some(Verb::Writes(Write::CreateCron)),
        "updateCron" => Some(Verb::Writes(Write::UpdateCron)),
        "deleteCron" => Some(Verb::Does(Plain::DeleteCron)),
        "createJob" => Some(Verb::Writes(Write::CreateJob)),
        "updateJob" => Some(Verb::Writes(Write::UpdateJob)),
        "deleteJob" => Some(Verb::Does(Plain::DeleteJob)),
        "endJob" => Some(Verb::Does(Plain::EndJob)),
        _ => informer_verb(text),
    }
}
