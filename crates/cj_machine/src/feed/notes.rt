// Lines for people.
use crate::feed::scope::Scope;
use crate::remark::Remark;
use crate::source::Source;
use cj_base::{Refusal, TryCopy};
use cj_control::{ApiVersion, text_at};
use cj_manifest::present;
use cj_types::Key;
use serde_json::Value;
use std::alloc::{AllocError, Global};
use std::mem;

/// What a request was for.
#[derive(Clone, Copy)]
pub(crate) enum Asked {
    List,
    Watch,
}

// Of how many Jobs it is kept that people were told of them.
const MOST_ORPHANS: usize = 1_000;

/// Lines for people, in the order in which they came.
#[derive(Drop)]
pub(crate) struct Notes {
    lines: Vec<Remark>,
    // The held Jobs of no CronJob that people were told of.
    orphans: Vec<Key>,
}

fn act(asked: Asked) -> &'static str {
    match asked {
        Asked::List => "list",
        Asked::Watch => "watch",
    }
}

fn plural(source: Source) -> &'static str {
    match source {
        Source::Crons => "CronJobs",
        Source::Jobs => "Jobs",
    }
}

// The objects, by kind and namespace.
fn objects(alloc: Global, scope: &Scope, source: Source) -> Result<String, AllocError> {
    let plural = plural(source);
    match &scope.namespace {
        Some(namespace) => {
            let namespace = namespace.as_str();
            format!(in alloc; "{plural} in namespace {namespace}")
        }
        None => format!(in alloc; "{plural}"),
    }
}

// What a server says of a refusal, with a colon before it.
fn reason(alloc: Global, body: Option<&Value>) -> Result<String, AllocError> {
    let message = match body {
        Some(body) => text_at(body, "message"),
        None => None,
    };
    match message {
        Some(message) => format!(in alloc; ": {message}"),
        None => Ok(String::new(alloc)),
    }
}

// What came of a request: what the server answered, or why no answer came.
fn outcome(alloc: Global, status: Option<u64>, value: &Value) -> Result<String, AllocError> {
    if let Some(status) = status {
        let reason = reason(alloc, present(value, "body"))?;
        return format!(in alloc; "the API server answered {status}{reason}");
    }
    match text_at(value, "error") {
        Some(cause) => format!(in alloc; "no answer came: {cause}"),
        None => String::from_str(alloc, "no answer came"),
    }
}

/// A line that the server's version could not be read.
pub(crate) fn no_version(
    alloc: Global,
    status: Option<u64>,
    value: &Value,
) -> Result<String, AllocError> {
    let outcome = outcome(alloc, status, value)?;
    format!(in alloc; "can't read the API server's /version: {outcome}; trying again each second")
}

// What may help where a list is not found.
fn tip(scope: &Scope, source: Source, status: u64) -> &'static str {
    match (source, scope.api, status) {
        (Source::Crons, ApiVersion::BatchV1, 404) =>
            " (before Kubernetes 1.21 give --api-version batch/v1beta1)",
        _ => "",
    }
}

impl Notes {
    pub(crate) fn new(alloc: Global) -> Notes {
        Notes {
            lines: Vec::new(alloc),
            orphans: Vec::new(alloc),
        }
    }

    fn push(&mut self, line: String) -> Result<(), Refusal> {
        self.lines
            .push(Remark::warning(line))
            .map_err(|_| Refusal::OutOfMemory)
    }

    /// A line that a held Job is of no CronJob, the first time.
    pub(crate) fn orphan(&mut self, alloc: Global, key: &Key) -> Result<(), Refusal> {
        if self.orphans.len() >= MOST_ORPHANS || self.orphans.iter().any(|it| it == key) {
            return Ok(());
        }
        let copy = key.try_copy(alloc)?;
        self.orphans.push(copy).map_err(|_| Refusal::OutOfMemory)?;
        let (namespace, name) = (key.namespace(), key.name());
        self.push(format!(in alloc;
            "job {namespace}/{name}: held, and no CronJob controls it; it never runs: kubectl delete job -n {namespace} {name}"
        )?)
    }

    /// The lines, each once.
    pub(crate) fn take(&mut self, alloc: Global) -> Vec<Remark> {
        mem::replace(&mut self.lines, Vec::new(alloc))
    }

    /// A line that the server refused a list or a watch by this status.
    pub(crate) fn refused(
        &mut self,
        alloc: Global,
        scope: &Scope,
        source: Source,
        asked: Asked,
        status: u64,
        body: Option<&Value>,
    ) -> Result<(), Refusal> {
        let act = act(asked);
        let objects = objects(alloc, scope, source)?;
        let reason = reason(alloc, body)?;
        let tip = tip(scope, source, status);
        self.push(format!(in alloc;
            "can't {act} {objects}: the API server answered {status}{reason}{tip}; trying again in 32 s"
        )?)
    }

    /// A line that a list or a watch has failed again, and is tried again after so many seconds.
    pub(crate) fn failing(
        &mut self,
        alloc: Global,
        scope: &Scope,
        source: Source,
        asked: Asked,
        status: Option<u64>,
        value: &Value,
        seconds: u64,
    ) -> Result<(), Refusal> {
        let act = act(asked);
        let objects = objects(alloc, scope, source)?;
        let outcome = outcome(alloc, status, value)?;
        self.push(format!(in alloc;
            "can't {act} {objects}: {outcome}; trying again in {seconds} s"
        )?)
    }

    /// A line that a page of a list can't be read.
    pub(crate) fn unread_page(
        &mut self,
        alloc: Global,
        scope: &Scope,
        source: Source,
    ) -> Result<(), Refusal> {
        let objects = objects(alloc, scope, source)?;
        self.push(format!(in alloc; "can't read the API server's list of {objects}; asking again")?)
    }

    /// A line that so many objects of a list have no name.
    pub(crate) fn unnamed(
        &mut self,
        alloc: Global,
        scope: &Scope,
        source: Source,
        count: u64,
    ) -> Result<(), Refusal> {
        let objects = objects(alloc, scope, source)?;
        self.push(format!(in alloc;
            "left out {count} of the API server's list of {objects}: no namespace or no name"
        )?)
    }

    /// A line that an event can't be read.
    pub(crate) fn unread_event(
        &mut self,
        alloc: Global,
        scope: &Scope,
        source: Source,
    ) -> Result<(), Refusal> {
        let objects = objects(alloc, scope, source)?;
        self.push(format!(in alloc;
            "can't read an event of the watch of {objects}; it is left out"
        )?)
    }
}
