ghost use Rattle.std.specs.Prelude.{◌≡◌};
ghost use Rattle.cj_runner.specs.Dues.{is_due, outcome_at, end_call};

use cj_calls::Call;
use cj_types::{Key, Outcome, Seconds, Uid};

/// How a Job ends.
#[derive(Clone, Copy, Debug, PartialEq, Eq)]
pub enum Ending {
    Complete,
    Failed,
}

/// A Job that runs: which one, when it was made, how many seconds it takes, and how it ends then.
#[derive(Drop)]
pub struct Running {
    pub key: Key,
    pub uid: Uid,
    pub made: Seconds,
    pub seconds: u64,
    pub outcome: Ending,
}

// A Job that is complete is so from now on.
fn outcome_of(ending: Ending, now: Seconds) -> Outcome
    ensures { result ≡ outcome_at now ending }
{
    match ending {
        Ending::Complete => Outcome::Complete(now),
        Ending::Failed => Outcome::Failed,
    }
}

impl Running {
    /// Whether it was made before now, and has run for its seconds.
    pub fn is_due(&self, now: Seconds) -> bool
        ensures { result ≡ is_due now self.now }
    {
        let made = self.made.get();
        let now = now.get();
        made < now && self.seconds <= now - made
    }

    // The call that ends it now.
    pub(crate) fn end_call(self, now: Seconds) -> Call
        ensures { result ≡ end_call now self }
    {
        Call::EndJob(self.key, self.uid, outcome_of(self.outcome, now), now)
    }
}
