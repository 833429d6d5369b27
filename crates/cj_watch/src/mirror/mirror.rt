ghost use Rattle.std.specs.Prelude.{◌≡◌, ◌+◌, length, IfOk, IfErr, OnOk, OnErr};
ghost use Rattle.cj_base.specs.declared.refusal.Refusal.TheVariants.{OutOfMemory};
ghost use Rattle.cj_table.specs.jobs.Owners.{owned_by};
ghost use Rattle.cj_watch.specs.Numbers.{IsNumbered};
ghost use Rattle.cj_watch.specs.mirror.Lagging.{new_mirror, fed_with, reset_to};

use crate::mirror::telling::{list_jobs, tell_all};
use cj_table::Jobs;
use cj_types::{Event, Job, Key, Listing, Refusal, Shared, Version, copy_all};
use std::alloc::Global;
use std::marker::Model;

/// A listing of the Jobs that lags behind the store: the Jobs after the first `fed` writes. It is
/// the controller's informer cache.
///
/// Contracts see the Jobs by key, and the number of writes that it is fed with.
pub struct Mirror {
    alloc: Global,
    jobs: Jobs,
    // Events that were fed; `jobs` has the first `done` of them.
    events: Vec<Event>,
    done: usize,
    fed: Version,
}

impl Drop for Mirror {
    fn drop(self) {
        let Mirror {
            alloc: _,
            jobs,
            events: _,
            done: _,
            fed: _,
        } = self;
        drop(jobs);
    }
}

impl Model for Mirror {
    ghost use Rattle.std.specs.Prelude.{◌≤◌, drop, length};
    ghost use Rattle.cj_watch.specs.mirror.Lagging.{Mirror, mirror_code, mirror_of, told_all};

    ghost Value = { Mirror };

    ghost coded = { mirror_code };

    ghost view = { λ m. mirror_of (told_all m.jobs (drop m.done m.events.items)) m.fed };

    ghost invariant = { λ m. m.done ≤ length m.events.items };
}

// The version of the last event, or `before` where there is none.
fn last_version(before: Version, events: &[Event]) -> Version
    requires { IsNumbered before events.now }
    ensures { result ≡ before + length events.now }
{
    match events.last() {
        Some(event) => event.version(),
        None => before,
    }
}

impl Mirror {
    /// The mirror before the first write, with no Job. It takes its memory from `alloc`.
    pub fn new(alloc: Global) -> Mirror
        ensures { result ≡ new_mirror }
    {
        Mirror {
            alloc,
            jobs: Jobs::new(alloc),
            events: Vec::new(alloc),
            done: 0,
            fed: Version::new(0),
        }
    }

    /// The version of the last event that was fed, or of the list to which the mirror was reset.
    pub fn version(&self) -> Version
        ensures { result ≡ self.now.fed }
    {
        self.fed
    }

    /// The version after these events of the next writes, once they are fed.
    pub fn version_with(&self, events: &[Event]) -> Version
        requires next { IsNumbered self.now.fed events.now }
        ensures { result ≡ (fed_with self.now events.now).fed }
    {
        last_version(self.fed, events)
    }

    /// Feeds the events of the next writes, whose versions follow the present one. Unchanged where
    /// there is no memory.
    pub fn feed(&mut self, events: &[Event]) -> Result<(), Refusal>
        requires next { IsNumbered self.old.fed events.now }
        ensures ok { OnOk result (self.new ≡ fed_with self.old events.now) }
        ensures err { OnErr result (self.new ≡ self.old) }
        ensures memory { IfErr result (λ e. e ≡ OutOfMemory) }
    {
        let next = copy_all(self.alloc, events)?;
        tell_all(
            &mut self.jobs,
            self.alloc,
            self.events.as_slice(),
            &mut self.done,
        )?;
        self.fed = last_version(self.fed, events);
        self.events = next;
        self.done = 0;
        // Events for which there is no memory now are applied later.
        let _ = tell_all(
            &mut self.jobs,
            self.alloc,
            self.events.as_slice(),
            &mut self.done,
        );
        Ok(())
    }

    /// Resets the mirror to a list of the Jobs at the version. Unchanged where there is no memory.
    pub fn reset(&mut self, jobs: &[Shared<Job>], version: Version) -> Result<(), Refusal>
        ensures ok { OnOk result (self.new ≡ reset_to jobs.now version) }
        ensures err { OnErr result (self.new ≡ self.old) }
        ensures memory { IfErr result (λ e. e ≡ OutOfMemory) }
    {
        self.jobs = list_jobs(self.alloc, jobs)?;
        self.events.clear();
        self.done = 0;
        self.fed = version;
        Ok(())
    }

    /// The Jobs of the key's namespace whose controller reference names a CronJob of `batch/v1`
    /// with the key's name, whatever its uid, in order of name. Contracts see no change of the
    /// mirror: only events that were fed are applied.
    pub fn owned(&mut self, key: &Key) -> Result<Listing<Shared<Job>>, Refusal>
        ensures ok { IfOk result (λ l. l ≡ owned_by self.old.jobs key.now) }
        ensures same { self.new ≡ self.old }
        ensures memory { IfErr result (λ e. e ≡ OutOfMemory) }
    {
        tell_all(
            &mut self.jobs,
            self.alloc,
            self.events.as_slice(),
            &mut self.done,
        )?;
        self.jobs.owned_by(self.alloc, key)
    }
}
