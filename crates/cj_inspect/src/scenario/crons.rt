// The CronJobs of a scenario.
use cj_cluster::ClusterCron;
use cj_json::Written;
use cj_types::{Key, Refusal, Seconds, Shared};
use serde_json::{Value, json};
use std::alloc::{AllocError, Global};

/// Whether a CronJob was there at that moment.
pub(crate) fn was_there(cron: &ClusterCron, from: Seconds) -> bool {
    cron.cron.get().meta.created <= from
}

fn head(alloc: Global, key: &Key) -> Result<Value, AllocError> {
    json!(in alloc; {"name": key.name(), "namespace": key.namespace()})
}

fn object(alloc: Global, metadata: Value, spec: Value) -> Result<Value, AllocError> {
    json!(in alloc; {
        "apiVersion": "batch/v1",
        "kind": "CronJob",
        "metadata": metadata,
        "spec": spec
    })
}

/// The manifest of a CronJob: its name and its spec, without what a server adds.
pub(crate) fn manifest(alloc: Global, cron: &Shared<ClusterCron>) -> Result<Value, Refusal> {
    let cron = cron.get().cron.get();
    let mut value = cron.to_value(alloc)?;
    let spec = match value.get_mut("spec") {
        Some(spec) => spec.take(),
        None => Value::Null,
    };
    let metadata = head(alloc, cron.key.key())?;
    Ok(object(alloc, metadata, spec)?)
}
