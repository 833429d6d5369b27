ghost use Rattle.std.specs.Prelude.{◌≡◌, ◌≢◌, MatchBool};

use crate::{Answer, Call, Entry, Reply};
use cj_types::{Key, Same, Version};

fn same_dropped(a: &Option<(Key, Version)>, b: &Option<(Key, Version)>) -> bool
    ensures { MatchBool result (a.now ≡ b.now) (a.now ≢ b.now) }
{
    match (a, b) {
        (Some((key, version)), Some((other, number))) => {
            let keys = key.same(other);
            keys && version == number
        }
        (None, None) => true,
        _ => false,
    }
}

impl Same for Reply {
    fn same(&self, other: &Reply) -> bool {
        match (self, other) {
            (Reply::Cron(a), Reply::Cron(b)) => a.same(b),
            (Reply::Job(a), Reply::Job(b)) => a.same(b),
            (Reply::Crons(a, v), Reply::Crons(b, w)) => v == w && a.same(b),
            (Reply::Jobs(a, v), Reply::Jobs(b, w)) => v == w && a.same(b),
            (Reply::Version(a), Reply::Version(b)) => a == b,
            (Reply::Events(a), Reply::Events(b)) => a.same(b),
            (Reply::Done, Reply::Done) => true,
            (Reply::Key(a), Reply::Key(b)) => a.same(b),
            (Reply::SeenCron(a), Reply::SeenCron(b)) => a.same(b),
            (Reply::SeenJobs(a), Reply::SeenJobs(b)) => a.same(b),
            (Reply::SeenActive(a), Reply::SeenActive(b)) => a.same(b),
            (Reply::Claimed(a), Reply::Claimed(b)) => a == b,
            (Reply::Dropped(a), Reply::Dropped(b)) => same_dropped(a, b),
            _ => false,
        }
    }
}

/// Whether two answers are equal in contracts.
pub fn same_answer(a: &Answer, b: &Answer) -> bool
    ensures { MatchBool result (a.now ≡ b.now) (a.now ≢ b.now) }
{
    match (a, b) {
        (Ok(a), Ok(b)) => a.same(b),
        (Err(a), Err(b)) => a.same(b),
        _ => false,
    }
}

impl Same for Call {
    fn same(&self, other: &Call) -> bool {
        match (self, other) {
            (Call::CreateCron(a, m), Call::CreateCron(b, n)) => m == n && a.same(b),
            (Call::UpdateCron(a), Call::UpdateCron(b)) => a.same(b),
            (Call::DeleteCron(a), Call::DeleteCron(b)) => a.same(b),
            (Call::GetCron(a), Call::GetCron(b)) => a.same(b),
            (Call::GetJob(a), Call::GetJob(b)) => a.same(b),
            (Call::ListCrons, Call::ListCrons) => true,
            (Call::ListJobs, Call::ListJobs) => true,
            (Call::CreateJob(a, m), Call::CreateJob(b, n)) => m == n && a.same(b),
            (Call::UpdateJob(a), Call::UpdateJob(b)) => a.same(b),
            (Call::DeleteJob(a), Call::DeleteJob(b)) => a.same(b),
            (Call::EndJob(a, u, x, m), Call::EndJob(b, v, y, n)) => {
                u == v && x == y && m == n && a.same(b)
            }
            (Call::Watch(v, m), Call::Watch(w, n)) => v == w && m == n,
            (Call::Add(a), Call::Add(b)) => a.same(b),
            (Call::Tick(a), Call::Tick(b)) => a == b,
            (Call::Shut, Call::Shut) => true,
            (Call::Feed(a), Call::Feed(b)) => a == b,
            (Call::Take, Call::Take) => true,
            (Call::SeeCron, Call::SeeCron) => true,
            (Call::SeeJobs, Call::SeeJobs) => true,
            (Call::SeeActive, Call::SeeActive) => true,
            (Call::Claim(a), Call::Claim(b)) => a.same(b),
            (Call::DropNext, Call::DropNext) => true,
            (Call::MakeNext, Call::MakeNext) => true,
            (Call::SetStatus, Call::SetStatus) => true,
            (Call::Finish(a, r), Call::Finish(b, q)) => a == b && r.same(q),
            _ => false,
        }
    }
}

impl Same for Entry {
    fn same(&self, other: &Entry) -> bool {
        let caller = self.caller().same(&other.caller());
        let call = self.call().same(other.call());
        let answer = same_answer(self.answer(), other.answer());
        caller && call && answer
    }
}
