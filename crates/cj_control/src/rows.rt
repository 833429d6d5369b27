ghost use Rattle.std.specs.Prelude.{◌≡◌, ◌↔◌, All, None, Some, IfOk, IfErr, IsTrue, ℕ, Option, OnOk, OnErr, option_copied};
ghost use Rattle.std.specs.BTreeMap as tree;
ghost use Rattle.std.specs.FinMap as map;
ghost use Rattle.std.specs.Ordering.{nat_cmp};
ghost use Rattle.cj_base.specs.declared.refusal.Refusal.TheVariants.{OutOfMemory};
ghost use Rattle.cj_fence.specs.declared.call.Call.{Call};
ghost use Rattle.cj_fence.specs.Protocol.{May, advanced};
ghost use Rattle.cj_control.specs.declared.rows.FencedSync.{FencedSync};
ghost use Rattle.cj_control.specs.Syncs.{IsFree, IsOf, RowAsks, RowEnds, RowHears, RowMayAsk, Waits};

use cj_base::{Refusal, Shared, Text};
use cj_fence::{Answer, Call, Sync};
use std::alloc::Global;
use std::collections::BTreeMap;
use std::marker::Model;

/// A sync under way.
pub struct FencedSync {
    /// NAMESPACE/NAME of its CronJob.
    pub name: Text,
    /// How far it has come.
    pub sync: Sync,
    /// What it asked, where it waits for an answer.
    pub asked: Option<Shared<Call>>,
    /// The number of the request by which it asked, where it asked the API server.
    pub id: Option<u64>,
}

impl Drop for FencedSync {
    fn drop(self) {
        let FencedSync {
            name,
            sync,
            asked,
            id: _,
        } = self;
        drop(name);
        drop(sync);
        drop(asked);
    }
}

// Whether a call that names a CronJob names this one.
fn is_of(name: &Text, call: &Call) -> bool
    ensures { IsTrue result ↔ IsOf name.now call.now }
{
    match call {
        Call::GetCron(asked) => asked == name,
        Call::CacheCron(asked) => asked == name,
        Call::Claim(claim) => claim.name == *name,
        Call::Tidy(tidy) => tidy.name == *name,
        _ => true,
    }
}

// Whether a sync is of another CronJob.
fn is_of_another(row: &FencedSync, name: &Text) -> bool
    ensures { IsTrue result ↔ (row.now.name ≡ name.now → ⊥) }
{
    row.name != *name
}

// Whether all syncs are of other CronJobs. The numbers of a map ascend.
fn are_others(rows: &BTreeMap<u64, FencedSync>, name: &Text) -> bool
    ensures each { IsTrue result ↔ All (λ f. f.name ≡ name.now → ⊥) (tree.values rows.now) }
    ensures ordered { tree.IsOrdered nat_cmp rows.now }
{
    rows.values().all(|row| is_of_another(row, name))
}

impl FencedSync {
    /// Whether the sync waits for no answer, and may ask this of its own CronJob.
    pub fn may_ask(&self, call: &Call) -> bool
        ensures { IsTrue result ↔ ((self.now.asked ≡ None) × May self.now.sync call.now
            × IsOf self.now.name call.now) }
    {
        let may = self.sync.may(call);
        self.asked.is_none() && may && is_of(&self.name, call)
    }

    /// The sync that waits for the answer to this call.
    pub fn asking(self, call: Shared<Call>, id: Option<u64>) -> FencedSync
        ensures { result ≡ record self { asked = Some call; id = id } }
    {
        let FencedSync {
            name,
            sync,
            asked: _,
            id: _,
        } = self;
        FencedSync {
            name,
            sync,
            asked: Some(call),
            id,
        }
    }

    /// The sync after the answer to what it asked.
    pub fn hearing(self, alloc: Global, answer: &Answer) -> Result<FencedSync, Refusal>
        ensures ok { IfOk result (λ f. (call : Call) → self.asked ≡ Some call
            → f ≡ record self {
              sync = advanced self.sync call answer.now;
              asked = None;
              id = None;
            }) }
        ensures memory { IfErr result (λ e. e ≡ OutOfMemory) }
    {
        let FencedSync {
            name,
            sync,
            asked,
            id: _,
        } = self;
        let next = match asked {
            Some(call) => sync.advance(alloc, call.get(), answer)?,
            None => sync,
        };
        Ok(FencedSync {
            name,
            sync: next,
            asked: None,
            id: None,
        })
    }
}

/// Syncs under way by their numbers. Contracts see a finite map.
pub struct SyncRows {
    rows: BTreeMap<u64, FencedSync>,
}

impl Drop for SyncRows {
    fn drop(self) {
        let SyncRows { rows: _ } = self;
    }
}

impl Model for SyncRows {
    ghost use Rattle.std.specs.FinMap as map;
    ghost use Rattle.std.specs.Ordering.{nat_cmp};
    ghost use Rattle.std.specs.Coded.{coded_ℕ};
    ghost use Rattle.cj_control.specs.declared.rows.FencedSync.{FencedSync};
    ghost use Rattle.cj_control.specs.contracts.rows.FencedSync.{the_row as fenced_sync};

    ghost Value = { map.FinMap nat_cmp FencedSync };

    ghost coded = { map.code coded_ℕ fenced_sync.coded };

    ghost view = { λ s. map.from_entries s.rows.entries };
}

impl SyncRows {
    /// No sync.
    pub fn new(alloc: Global) -> SyncRows
        ensures { result ≡ map.empty }
    {
        SyncRows {
            rows: BTreeMap::new(alloc),
        }
    }

    /// The sync of the number, if it is under way.
    #[tactic(auto, using(crate::proofs::RowLemmas::found_row))]
    pub fn get(&self, number: u64) -> Option<&FencedSync>
        ensures { option_copied result ≡ map.get self.now number }
    {
        self.rows.get(&number)
    }

    /// Whether no sync under way is of the CronJob.
    pub fn is_free(&self, name: &Text) -> bool
        ensures { IsTrue result ↔ IsFree name.now self.now }
    {
        are_others(&self.rows, name)
    }

    /// Puts a sync under the number, in place of what was there. Where memory is wanting, all stays
    /// as it was.
    #[tactic(auto, using(crate::proofs::RowLemmas::put_row))]
    pub fn insert(&mut self, number: u64, sync: FencedSync) -> Result<(), Refusal>
        ensures ok { OnOk result (self.new ≡ map.insert self.old number sync) }
        ensures err { OnErr result (self.new ≡ self.old) }
        ensures memory { IfErr result (λ e. e ≡ OutOfMemory) }
    {
        match self.rows.insert(number, sync) {
            Ok(_) => Ok(()),
            Err(_) => Err(Refusal::OutOfMemory),
        }
    }

    /// Takes the sync of the number out, if it is there.
    #[tactic(auto, using(crate::proofs::RowLemmas::found_row, crate::proofs::RowLemmas::gone_row))]
    pub fn take(&mut self, number: u64) -> Option<FencedSync>
        ensures was { result ≡ map.get self.old number }
        ensures gone { self.new ≡ map.remove self.old number }
    {
        self.rows.remove(&number)
    }

    /// Whether a sync waits for no answer, and may ask this.
    pub fn may_ask(&self, number: u64, call: &Call) -> bool
        ensures { IsTrue result ↔ RowMayAsk number call.now self.now }
    {
        match self.get(number) {
            Some(row) => row.may_ask(call),
            None => false,
        }
    }

    /// A sync asks what the protocol lets it ask, by a request of that number or of a cache. Where
    /// memory is wanting, the sync is given up.
    #[tactic(auto, using(crate::proofs::RowLemmas::put_back))]
    pub fn ask(&mut self, number: u64, call: Shared<Call>, id: Option<u64>) -> Result<(), Refusal>
        requires { RowMayAsk number call self.old }
        ensures ok { OnOk result (RowAsks number call id self.old self.new) }
        ensures err { OnErr result (RowEnds number self.old self.new) }
        ensures memory { IfErr result (λ e. e ≡ OutOfMemory) }
    {
        let Some(row) = self.take(number) else {
            unreachable!()
        };
        self.insert(number, row.asking(call, id))
    }

    /// A sync that asked hears the answer. Where memory is wanting, the sync is given up.
    #[tactic(auto, using(crate::proofs::RowLemmas::put_back))]
    pub fn hear(&mut self, alloc: Global, number: u64, answer: &Answer) -> Result<(), Refusal>
        requires { (id : Option ℕ) × Waits number id self.old }
        ensures ok { OnOk result (RowHears number answer.now self.old self.new) }
        ensures err { OnErr result (RowEnds number self.old self.new) }
        ensures memory { IfErr result (λ e. e ≡ OutOfMemory) }
    {
        let Some(row) = self.take(number) else {
            unreachable!()
        };
        let next = row.hearing(alloc, answer)?;
        self.insert(number, next)
    }

    /// A sync that is under way ends.
    pub fn end(&mut self, number: u64)
        requires { (sync : FencedSync) × (map.get self.old number ≡ Some sync) }
        ensures { RowEnds number self.old self.new }
    {
        let row = self.take(number);
        drop(row);
    }
}
