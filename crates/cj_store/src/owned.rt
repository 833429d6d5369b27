ghost use Rattle.std.specs.Prelude.{◌≡◌, IfOk, IfErr};
ghost use Rattle.cj_base.specs.declared.refusal.Refusal.TheVariants.{OutOfMemory};
ghost use Rattle.cj_store.specs.Jobs.{jobs_of};

use crate::Store;
use cj_types::{Job, Key, Listing, Refusal, Shared};
use std::alloc::Global;

impl Store {
    /// The Jobs of the key's namespace whose controller reference names a CronJob of `batch/v1`
    /// with the key's name, whatever its uid, in order of name. No other Job is walked.
    pub fn jobs_of(&self, alloc: Global, key: &Key) -> Result<Listing<Shared<Job>>, Refusal>
        ensures ok { IfOk result (λ l. l ≡ jobs_of self.now key.now) }
        ensures err { IfErr result (λ e. e ≡ OutOfMemory) }
    {
        self.jobs.owned_by(alloc, key)
    }
}
