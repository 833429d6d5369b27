// Two worlds on which the same calls are made.
use crate::asks::step_call;
use crate::boxed::boxed;
use cj_calls::{Answer, Call, Caller, Entry, same_answer};
use cj_script::Step;
use cj_types::{CronJob, Job, Limits, Listing, Refusal, Same, Shared};
use cj_world::World;
use cj_zone::ZoneTable;
use std::alloc::Global;

/// Two worlds.
#[derive(Drop)]
pub struct Twins {
    pub one: Box<World, Global>,
    pub other: Box<World, Global>,
}

fn world_of(alloc: Global, limits: Limits) -> Result<Box<World, Global>, Refusal> {
    boxed(alloc, World::new(alloc, limits)?)
}

fn answered(
    alloc: Global,
    world: &mut World,
    caller: &Caller,
    call: &Call,
) -> Result<Box<Answer, Global>, Refusal> {
    boxed(alloc, world.apply(caller, call))
}

impl Twins {
    pub fn new(alloc: Global, limits: Limits) -> Result<Twins, Refusal> {
        let one = world_of(alloc, limits)?;
        let other = world_of(alloc, limits)?;
        Ok(Twins { one, other })
    }

    /// Makes the call on the first world alone.
    pub fn ask_one(
        &mut self,
        alloc: Global,
        caller: Caller,
        call: &Call,
    ) -> Result<Box<Answer, Global>, Refusal> {
        answered(alloc, &mut self.one, &caller, call)
    }

    /// Makes the call of the step on both worlds, and answers whether their answers are the same.
    pub fn make(&mut self, alloc: Global, zones: &ZoneTable, step: &Step) -> Result<bool, Refusal> {
        let call = step_call(alloc, zones, &self.one, step)?;
        let answer = self.ask_one(alloc, step.caller, &call)?;
        let other = answered(alloc, &mut self.other, &step.caller, &call)?;
        Ok(same_answer(&answer, &other))
    }

    /// Whether both worlds show the same: their objects, versions and histories, and whether they
    /// are at rest.
    pub fn are_alike(&self) -> Result<bool, Refusal> {
        let sight = Sight::of(&self.one)?;
        let is_seen = sight.is_of(&self.other)?;
        Ok(is_seen && are_same(self.one.history(), self.other.history()))
    }
}

/// The objects of a world, and what else it shows in numbers.
#[derive(Drop)]
pub struct Sight {
    crons: Listing<Shared<CronJob>>,
    jobs: Listing<Shared<Job>>,
    numbers: [u64; 3],
}

fn numbers(world: &World) -> [u64; 3] {
    let rests = u64::from(world.at_rest());
    [world.version().get(), world.fed().get(), rests]
}

impl Sight {
    pub fn of(world: &World) -> Result<Sight, Refusal> {
        let (crons, jobs) = world.objects()?;
        Ok(Sight {
            crons,
            jobs,
            numbers: numbers(world),
        })
    }

    /// Whether the world shows that by now.
    pub fn is_of(&self, world: &World) -> Result<bool, Refusal> {
        let (crons, jobs) = world.objects()?;
        let are_crons = self.crons.same(&crons);
        let are_jobs = self.jobs.same(&jobs);
        Ok(are_crons && are_jobs && self.numbers == numbers(world))
    }
}

/// Whether the entries are the same, one after the other.
pub fn are_same(one: &[Entry], other: &[Entry]) -> bool {
    if one.len() != other.len() {
        return false;
    }
    for (entry, twin) in one.iter().zip(other) {
        if !entry.same(twin) {
            return false;
        }
    }
    true
}
