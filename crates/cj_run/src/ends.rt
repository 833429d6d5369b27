// The ends of Jobs that are due.
ghost use Rattle.std.specs.Prelude.{◌≡◌, [], ◌∷◌, ◌++◌, List, IfOk, OnOk, filter, not};
ghost use Rattle.cj_hub.specs.declared.receipt.Receipt.{Receipt};
ghost use Rattle.cj_runner.specs.Dues.{is_due};
ghost use Rattle.cj_runner.specs.Ends.{AreEnded};
ghost use Rattle.cj_run.specs.Drivers.{noted_in};
ghost use Rattle.cj_run.specs.Rounds.{without_due};

use crate::made::Made;
use cj_hub::{Hub, Pass};
use cj_runner::{Running, end_due};
use cj_types::{Refusal, Seconds};
use std::alloc::{AllocError, Global};
use std::mem;
use std::sync::Wait;
use std::thread::Threads;

// The Jobs that are due, and the others.
#[derive(Drop)]
struct Sorted {
    due: Vec<Running>,
    others: Vec<Running>,
}

impl Sorted {
    // Adds a Job where it belongs.
    fn put(&mut self, job: Running, now: Seconds) -> Result<(), AllocError>
        ensures due { OnOk result (self.new.due.items
            ≡ self.old.due.items ++ filter (is_due now) (job ∷ [])) }
        ensures others { OnOk result (self.new.others.items
            ≡ self.old.others.items ++ filter (λ r. not (is_due now r)) (job ∷ [])) }
    {
        if job.is_due(now) {
            self.due.push(job)?;
        } else {
            self.others.push(job)?;
        }
        Ok(())
    }
}

fn sort_out(alloc: Global, running: Vec<Running>, now: Seconds) -> Result<Sorted, AllocError>
    ensures due { IfOk result (λ s. s.due.items ≡ filter (is_due now) running.items) }
    ensures others { IfOk result (λ s. s.others.items
        ≡ filter (λ r. not (is_due now r)) running.items) }
{
    let mut sorted = Sorted {
        due: Vec::new(alloc),
        others: Vec::new(alloc),
    };
    for job in running {
        sorted.put(job, now)?;
    }
    Ok(sorted)
}

/// Ends the Jobs that are due, and forgets them.
#[tactic(auto, using(crate::proofs::Went::all_ended))]
pub(crate) fn end_jobs<R: Threads + Wait + Sync>(
    rt: &R,
    alloc: Global,
    hub: &Hub,
    runners: Vec<Pass>,
    made: &mut Made,
    now: Seconds,
) -> (Vec<Pass>, Result<(), Refusal>)
    ensures ended { OnOk result.1 ((receipts : List Receipt)
        × AreEnded now made.old.running.items runners.items result.0.items receipts) }
    ensures others { OnOk result.1 (noted_in made.new ≡ without_due now (noted_in made.old)) }
{
    let running = mem::replace(&mut made.running, Vec::new(alloc));
    let Ok(Sorted { due, others }) = sort_out(alloc, running, now) else {
        return (runners, Err(Refusal::OutOfMemory));
    };
    made.running = others;
    match end_due(rt, alloc, hub, runners, due, now) {
        (runners, Ok(_)) => (runners, Ok(())),
        (runners, Err(refusal)) => (runners, Err(refusal)),
    }
}
