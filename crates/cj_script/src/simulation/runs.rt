// Which run each Job takes.
ghost use Rattle.std.specs.Prelude.{◌≡◌, IfErr, OnOk};
ghost use Rattle.std.specs.FinMap as map;
ghost use Rattle.cj_base.specs.declared.refusal.Refusal.TheVariants.{OutOfMemory};
ghost use Rattle.cj_script.specs.simulation.Runs.{run_at, run_of};

use crate::simulation::run::Run;
use cj_table::Table;
use cj_types::{Key, Listing, Refusal};
use std::alloc::Global;
use std::marker::Model;

/// The runs of CronJobs' Jobs by the CronJob's key, in the order in which Jobs take them. Contracts
/// see the list of each key.
pub struct Runs {
    lists: Table<Listing<Run>>,
}

impl Drop for Runs {
    fn drop(self) {
        let Runs { lists } = self;
        drop(lists);
    }
}

impl Model for Runs {
    ghost use Rattle.std.specs.Prelude.{List};
    ghost use Rattle.std.specs.Coded.{coded_list};
    ghost use Rattle.std.specs.FinMap as map;
    ghost use Rattle.cj_types.specs.Keys.{place_cmp, coded_place};
    ghost use Rattle.cj_script.specs.declared.simulation.run.Run.{Run};
    ghost use Rattle.cj_script.specs.contracts.simulation.run.Run.{the_row as run};

    ghost Value = { map.FinMap place_cmp (List Run) };

    ghost coded = { map.code coded_place (coded_list run.coded) };

    ghost view = { λ r. r.lists };
}

// The run of that number, or the last one where there are fewer.
fn run_at(runs: &[Run], n: u64) -> Option<Run>
    ensures { result ≡ run_at runs.now n }
{
    let last = runs.len().saturating_sub(1);
    runs.get(last.min(n as usize)).copied()
}

impl Runs {
    /// No runs.
    pub(crate) fn new(alloc: Global) -> Runs
        ensures { result ≡ map.empty }
    {
        Runs {
            lists: Table::new(alloc),
        }
    }

    // The runs of a key.
    pub(crate) fn put(&mut self, key: Key, runs: Listing<Run>) -> Result<(), Refusal>
        ensures ok { OnOk result (self.new ≡ map.insert self.old key runs) }
        ensures err { IfErr result (λ e. e ≡ OutOfMemory) }
    {
        self.lists.insert(key, runs)
    }

    /// The run that a Job of the CronJob with this key takes, where `number` of its Jobs took one
    /// before: the run of that number in the key's list, or the last run after that. None where the
    /// key has no run.
    pub fn of(&self, key: &Key, n: u64) -> Option<Run>
        ensures { result ≡ run_of self.now key.now n }
    {
        run_at(self.lists.get(key)?.as_slice(), n)
    }
}
