// The CronJob of a line of a crontab.
use crate::crontab::environment::Environment;
use crate::crontab::line::Job;
use crate::crontab::notes::is_variable;
use crate::crontab::setting::Setting;
use crate::crontab::shell::{command_words, unexpanded};
use cj_json::push_value;
use cj_types::Refusal;
use serde_json::{Value, json};
use std::alloc::{AllocError, Global};

/// What the CronJobs of a crontab have in common.
#[derive(Clone, Copy)]
pub(crate) struct Common<'a> {
    pub image: &'a str,
    pub shell: Option<&'a str>,
    pub namespace: Option<&'a str>,
}

// Puts a member with a text into an object.
fn put(alloc: Global, object: &mut Value, name: &str, value: Value) -> Result<(), AllocError> {
    if let Value::Object(members) = object {
        let key = String::from_str(alloc, name)?;
        match members.insert(key, value) {
            Ok(_) => {}
            Err(_) => return Err(AllocError),
        }
    }
    Ok(())
}

fn put_text(
    alloc: Global,
    object: &mut Value,
    name: &str,
    text: Option<&str>,
) -> Result<(), AllocError> {
    match text {
        Some(text) => {
            let value = Value::try_from_str(alloc, text)?;
            put(alloc, object, name, value)
        }
        None => Ok(()),
    }
}

// Whether a variable is for the commands, and not for cron alone.
fn is_for_commands(setting: &Setting<'_>) -> bool {
    let is_for_cron = matches!(
        setting.name,
        "CRON_TZ" | "MAILTO" | "MAILFROM" | "RANDOM_DELAY"
    );
    !is_for_cron && is_variable(setting.name)
}

fn variable(alloc: Global, setting: &Setting<'_>) -> Result<Value, AllocError> {
    let name = setting.name;
    let value = unexpanded(alloc, setting.value)?;
    let value = value.as_str();
    json!(in alloc; {"name": name, "value": value})
}

fn variables(alloc: Global, environment: &Environment<'_>) -> Result<Vec<Value>, Refusal> {
    let mut values = Vec::new(alloc);
    for setting in environment.settings() {
        if is_for_commands(setting) {
            let value = variable(alloc, setting)?;
            push_value(&mut values, value)?;
        }
    }
    Ok(values)
}

// The shell and its options.
fn shell_of(
    alloc: Global,
    common: Common<'_>,
    environment: &Environment<'_>,
) -> Result<String, AllocError> {
    if let Some(shell) = common.shell {
        return String::from_str(alloc, shell);
    }
    let shell = environment.value("SHELL").unwrap_or("/bin/sh");
    format!(in alloc; "{shell} -c")
}

fn container(
    alloc: Global,
    name: &str,
    common: Common<'_>,
    environment: &Environment<'_>,
    job: &Job<'_>,
) -> Result<Value, Refusal> {
    let shell = shell_of(alloc, common, environment)?;
    let words = command_words(alloc, shell.as_str(), &job.command)?;
    let words = Value::Array(words);
    let image = common.image;
    let mut container = json!(in alloc; {"command": words, "image": image, "name": name})?;
    let variables = variables(alloc, environment)?;
    if !variables.is_empty() {
        put(alloc, &mut container, "env", Value::Array(variables))?;
    }
    put_text(
        alloc,
        &mut container,
        "workingDir",
        environment.value("HOME"),
    )?;
    Ok(container)
}

// A Job that is tried once, as cron starts a command once.
fn job_template(alloc: Global, container: Value) -> Result<Value, AllocError> {
    json!(in alloc; {
        "spec": {
            "backoffLimit": 0,
            "template": {"spec": {"containers": [container], "restartPolicy": "Never"}}
        }
    })
}

// It starts whether or not an earlier Job runs, as cron does.
fn spec_of(
    alloc: Global,
    job: &Job<'_>,
    zone: Option<&str>,
    template: Value,
) -> Result<Value, AllocError> {
    let schedule = job.text.as_str();
    let mut spec = json!(in alloc; {
        "concurrencyPolicy": "Allow",
        "jobTemplate": template,
        "schedule": schedule
    })?;
    put_text(alloc, &mut spec, "timeZone", zone)?;
    Ok(spec)
}

fn cron_job(
    alloc: Global,
    name: &str,
    namespace: Option<&str>,
    spec: Value,
) -> Result<Value, AllocError> {
    let mut metadata = json!(in alloc; {"name": name})?;
    put_text(alloc, &mut metadata, "namespace", namespace)?;
    json!(in alloc; {
        "apiVersion": "batch/v1",
        "kind": "CronJob",
        "metadata": metadata,
        "spec": spec
    })
}

/// The manifest of the CronJob of that name for a line with these variables.
pub(crate) fn cron_value(
    alloc: Global,
    name: &str,
    common: Common<'_>,
    environment: &Environment<'_>,
    job: &Job<'_>,
    zone: Option<&str>,
) -> Result<Value, Refusal> {
    let container = container(alloc, name, common, environment, job)?;
    let template = job_template(alloc, container)?;
    let spec = spec_of(alloc, job, zone, template)?;
    Ok(cron_job(alloc, name, common.namespace, spec)?)
}
