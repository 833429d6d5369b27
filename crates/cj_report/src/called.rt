// The words for who called and for what, and which object a call is about.
ghost use Rattle.std.specs.Prelude.{◌≡◌, option_copied, option_map};
ghost use Rattle.cj_report.specs.Called as said;

use cj_calls::{Answer, Call, Reply, Role};
use cj_types::{CronJob, Key, Shared};

pub(crate) fn role_word(role: Role) -> &'static str
    ensures { result.now ≡ said.role_word role }
{
    match role {
        Role::User => "User",
        Role::Runner => "Runner",
        Role::Informer => "Informer",
        Role::Worker => "Worker",
    }
}

/// The name of a call with a small first letter, as scripts have it.
#[tactic(auto, unfolding(crate::specs::Called::call_word))]
pub fn call_word(call: &Call) -> &'static str
    ensures { result.now ≡ said.call_word call.now }
{
    match call {
        Call::CreateCron(_, _) => "createCron",
        Call::UpdateCron(_) => "updateCron",
        Call::DeleteCron(_) => "deleteCron",
        Call::GetCron(_) => "getCron",
        Call::GetJob(_) => "getJob",
        Call::ListCrons => "listCrons",
        Call::ListJobs => "listJobs",
        Call::CreateJob(_, _) => "createJob",
        Call::UpdateJob(_) => "updateJob",
        Call::DeleteJob(_) => "deleteJob",
        Call::EndJob(_, _, _, _) => "endJob",
        Call::Watch(_, _) => "watch",
        Call::Add(_) => "add",
        Call::Tick(_) => "tick",
        Call::Shut => "shut",
        Call::Feed(_) => "feed",
        Call::Take => "take",
        Call::SeeCron => "seeCron",
        Call::SeeJobs => "seeJobs",
        Call::SeeActive => "seeActive",
        Call::Claim(_) => "claim",
        Call::DropNext => "drop",
        Call::MakeNext => "make",
        Call::SetStatus => "setStatus",
        Call::Finish(_, _) => "finish",
    }
}

fn cron_place(cron: &Option<Shared<CronJob>>) -> Option<&Key>
    ensures { option_copied result ≡ option_map said.cron_place cron.now }
{
    match cron {
        Some(cron) => Some(cron.get().key.key()),
        None => None,
    }
}

// The object that an answer is.
fn place_in(reply: &Reply) -> Option<&Key>
    ensures { option_copied result ≡ said.place_in reply.now }
{
    match reply {
        Reply::Job(job) => Some(&job.get().key),
        Reply::Key(key) => Some(key),
        Reply::SeenCron(cron) => cron_place(cron),
        Reply::Dropped(Some((key, _))) => Some(key),
        _ => None,
    }
}

fn place_answered(answer: &Answer) -> Option<&Key>
    ensures { option_copied result ≡ said.place_answered answer.now }
{
    match answer {
        Ok(reply) => place_in(reply),
        Err(_) => None,
    }
}

/// The object that a call names, or else the one of its answer.
#[tactic(auto, unfolding(crate::specs::Called::about))]
pub(crate) fn about<'a>(call: &'a Call, answer: &'a Answer) -> Option<&'a Key>
    ensures { option_copied result ≡ said.about call.now answer.now }
{
    match call {
        Call::CreateCron(draft, _) => Some(draft.get().key.key()),
        Call::UpdateCron(draft) => Some(draft.get().key.key()),
        Call::DeleteCron(key) => Some(key),
        Call::GetCron(key) => Some(key),
        Call::GetJob(key) => Some(key),
        Call::CreateJob(draft, _) => Some(&draft.get().key),
        Call::UpdateJob(draft) => Some(&draft.get().key),
        Call::DeleteJob(key) => Some(key),
        Call::EndJob(key, _, _, _) => Some(key),
        Call::Add(key) => Some(key),
        Call::Claim(plan) => cron_place(plan.get().cron()),
        _ => place_answered(answer),
    }
}
