// What a JSON text is.
ghost use Rattle.std.specs.Prelude.{◌≡◌, option_map};
ghost use Rattle.serde_json.specs.View.{view};
ghost use Rattle.cj_scenario.specs.detection.Forms.{form_by_kind, form_by_member, form_of, form_words, is_list, is_object, kind_in, knows, wanted_words};

use serde_json::Value;

/// What a JSON text is, by what only such a text has.
#[derive(Clone, Copy, Debug, PartialEq, Eq)]
pub enum Form {
    /// Several objects, as `kubectl get` prints them.
    List,
    /// A CronJob or a Job, which `check` takes.
    Manifest,
    /// A CronJob with its Jobs, which `plan` takes.
    Scenario,
    /// Steps of callers, which `replay` takes.
    Script,
    /// CronJobs between two instants, which `run` takes.
    Simulation,
    /// None of these.
    Other,
}

fn is_list(kind: &str) -> bool
    ensures { result ≡ is_list kind.now }
{
    match kind {
        "List" | "CronJobList" | "JobList" => true,
        _ => false,
    }
}

fn is_object(kind: &str) -> bool
    ensures { result ≡ is_object kind.now }
{
    match kind {
        "CronJob" | "Job" => true,
        _ => false,
    }
}

fn form_by_kind(kind: &str) -> Form
    ensures { result ≡ form_by_kind kind.now }
{
    if is_list(kind) {
        Form::List
    } else if is_object(kind) {
        Form::Manifest
    } else {
        Form::Other
    }
}

fn form_by_member(value: &Value) -> Form
    ensures { result ≡ form_by_member (view value.now) }
{
    if value.get("steps").is_some() {
        Form::Script
    } else if value.get("cronJobs").is_some() {
        Form::Simulation
    } else if value.get("manifest").is_some() {
        Form::Scenario
    } else {
        Form::Other
    }
}

fn kind_in(value: &Value) -> Option<&str>
    ensures { option_map (λ s. s.now) result ≡ kind_in (view value.now) }
{
    value.get("kind")?.as_str()
}

impl Form {
    /// What a value is: by its `kind` where that is a text, else by its members.
    pub fn of(value: &Value) -> Form
        ensures { result ≡ form_of (view value.now) }
    {
        match kind_in(value) {
            Some(kind) => form_by_kind(kind),
            None => form_by_member(value),
        }
    }

    /// A line that says what such a text is for.
    pub(crate) fn words(self) -> &'static str
        ensures { result.now ≡ form_words self }
    {
        match self {
            Form::List => {
                "FILE: a list, whose items cronsim check, why, upcoming and audit take; cronsim scenario makes a scenario of it\n"
            }
            Form::Manifest =>
                "FILE: a manifest, which cronsim check and upcoming take; cronsim scenario makes a scenario of it\n",
            Form::Scenario => "FILE: a scenario, which cronsim plan takes\n",
            Form::Script => "FILE: a script, which cronsim replay takes\n",
            Form::Simulation => "FILE: a scenario of a run, which cronsim run takes\n",
            Form::Other => "",
        }
    }

    /// A line that says of what form such a text has to be, where a command wants one.
    pub fn wanted(self) -> &'static str
        ensures { result.now ≡ wanted_words self }
    {
        match self {
            Form::Scenario => {
                "FILE: want an object with manifest and created, and perhaps last, jobs and zones, as docs/examples/replace.json\n"
            }
            Form::Script => {
                "FILE: want an object with callers and steps, and perhaps zones, history and window, as docs/examples/made-anew.json\n"
            }
            Form::Simulation => {
                "FILE: want an object with start, end and cronJobs, and perhaps stepSeconds, runs, edits and zones, as docs/examples/forbid.json\n"
            }
            _ => "",
        }
    }

    /// Whether what takes such a text reads its member of that name; of what is no scenario and no
    /// script, all count as read.
    pub(crate) fn knows(self, key: &str) -> bool
        ensures { result ≡ knows self key.now }
    {
        match self {
            Form::Scenario => match key {
                "manifest" | "created" | "last" | "jobs" | "zones" => true,
                _ => false,
            },
            Form::Script => match key {
                "callers" | "steps" | "zones" | "history" | "window" => true,
                _ => false,
            },
            Form::Simulation => match key {
                "start" | "end" | "stepSeconds" | "cronJobs" | "runs" | "edits" | "zones" => true,
                _ => false,
            },
            _ => true,
        }
    }
}
