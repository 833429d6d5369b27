// How long the Jobs of a CronJob took, as a scenario says it.
use cj_cluster::{Cluster, ClusterCron};
use cj_json::push_value;
use cj_types::{Job, Outcome, Refusal, Seconds};
use serde_json::{Value, json};
use std::alloc::{AllocError, Global};

/// A Job that has ended.
#[derive(Clone, Copy, Debug)]
pub(crate) struct Length {
    /// The time that it was for; that of its creation where nothing says one.
    time: u64,
    /// From its creation to its end.
    seconds: u64,
    /// How it ended.
    outcome: &'static str,
}

fn outcome_name(outcome: &Outcome) -> &'static str {
    match outcome {
        Outcome::Complete(_) => "Complete",
        Outcome::Failed => "Failed",
    }
}

fn length_from(
    created: Seconds,
    time: Option<Seconds>,
    ended: Seconds,
    outcome: &Outcome,
) -> Length {
    Length {
        time: time.unwrap_or(created).get(),
        seconds: ended.get().saturating_sub(created.get()),
        outcome: outcome_name(outcome),
    }
}

// How long a Job took, if it has ended and nobody made it by hand.
fn length_of(cluster: &Cluster, job: &Job) -> Option<Length> {
    let times = cluster.times(&job.key)?;
    let times = times.get();
    if times.is_manual {
        return None;
    }
    let outcome = job.outcome.as_ref()?;
    Some(length_from(job.meta.created, times.scheduled, times.ended?, outcome))
}

// Where a length belongs, so that times rise.
fn place_of(lengths: &[Length], time: u64) -> usize {
    let mut place: usize = 0;
    for length in lengths {
        if length.time <= time {
            place = place.saturating_add(1);
        }
    }
    place
}

fn put(lengths: &mut Vec<Length>, length: Length) -> Result<(), Refusal> {
    let place = place_of(lengths.as_slice(), length.time).min(lengths.len());
    lengths
        .insert(place, length)
        .map_err(|_| Refusal::OutOfMemory)
}

/// How long each of a CronJob's Jobs took that have ended, in the order of their times.
pub(crate) fn lengths_of(
    alloc: Global,
    cluster: &Cluster,
    cron: &ClusterCron,
) -> Result<Vec<Length>, Refusal> {
    let jobs = cluster.jobs_naming(alloc, cron.cron.get().key.key())?;
    let mut lengths = Vec::new(alloc);
    for job in jobs.as_slice() {
        if cron.controls(job.get()) {
            if let Some(length) = length_of(cluster, job.get()) {
                put(&mut lengths, length)?;
            }
        }
    }
    Ok(lengths)
}

fn object(alloc: Global, seconds: u64, outcome: &str) -> Result<Value, AllocError> {
    json!(in alloc; {"outcome": outcome, "seconds": seconds})
}

/// The runs of a CronJob's Jobs: of 60 seconds where none has ended.
pub(crate) fn runs_value(alloc: Global, lengths: &[Length]) -> Result<Value, Refusal> {
    let mut values = Vec::new(alloc);
    for length in lengths {
        let value = object(alloc, length.seconds, length.outcome)?;
        push_value(&mut values, value)?;
    }
    if values.as_slice().is_empty() {
        push_value(&mut values, object(alloc, 60, "Complete")?)?;
    }
    Ok(Value::Array(values))
}
