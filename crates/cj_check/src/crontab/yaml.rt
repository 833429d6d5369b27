// The manifests of a crontab's CronJobs, in YAML.
use crate::crontab::clock::Clocks;
use crate::crontab::entries::Entry;
use crate::crontab::environment::Environment;
use crate::crontab::line::{Job, Line};
use crate::crontab::lines::fault_words;
use crate::crontab::manifest::{Common, cron_value};
use crate::crontab::names::Names;
use crate::crontab::notes::notes_of;
use cj_answers::yaml_text;
use cj_io::{Failure, MOST_BYTES};
use std::alloc::{AllocError, Global};

/// The manifests, and what is said of lines that have none.
#[derive(Drop)]
pub(crate) struct Manifests {
    pub text: String,
    pub said: String,
    /// Whether the manifests are more than `check` reads, and so were cut off.
    pub is_long: bool,
}

/// Manifests that are being written.
#[derive(Drop)]
struct Writing<'a> {
    manifests: Manifests,
    environment: Environment<'a>,
    names: Names,
}

// A line of YAML for people. What isn't plain is shown as ?, so that no reader ends it early.
fn push_comment(text: &mut String, words: &str) -> Result<(), AllocError> {
    text.push_str("# ")?;
    for character in words.chars() {
        let is_plain = character == ' ' || character.is_ascii_graphic();
        text.push(if is_plain { character } else { '?' })?;
    }
    text.push_str("\n")
}

// Where a CronJob comes from, and where it would do otherwise.
fn push_comments(
    alloc: Global,
    text: &mut String,
    clocks: &Clocks<'_>,
    entry: &Entry<'_>,
    job: &Job<'_>,
) -> Result<(), Failure> {
    let number = entry.number;
    let given = job.when.given(alloc)?;
    let given = given.as_str();
    let head = format!(in alloc; "line {number}: {given}")?;
    push_comment(text, head.as_str())?;
    let notes = notes_of(alloc, clocks, entry)?;
    for note in &notes {
        push_comment(text, note.as_str())?;
    }
    Ok(())
}

impl<'a> Writing<'a> {
    // Adds the CronJob of a line.
    fn push_job(
        &mut self,
        alloc: Global,
        common: Common<'_>,
        clocks: &Clocks<'_>,
        entry: &Entry<'a>,
        job: &Job<'a>,
    ) -> Result<(), Failure> {
        let name = self.names.name_for(alloc, job.command.text.as_str())?;
        let environment = &self.environment;
        let value = cron_value(alloc, name.as_str(), common, environment, job, entry.zone)?;
        let yaml = yaml_text(alloc, &value)?;
        let text = &mut self.manifests.text;
        if !text.is_empty() {
            text.push_str("---\n")?;
        }
        push_comments(alloc, text, clocks, entry, job)?;
        text.push_str(yaml.as_str())?;
        Ok(())
    }

    // Says why a line has no CronJob.
    fn say(&mut self, alloc: Global, number: usize, words: &str) -> Result<(), AllocError> {
        let line = format!(in alloc; "line {number}: {words}\n")?;
        self.manifests.said.push_str(line.as_str())
    }

    // Adds what a line says.
    fn push(
        &mut self,
        alloc: Global,
        common: Common<'_>,
        clocks: &Clocks<'_>,
        entry: &Entry<'a>,
    ) -> Result<(), Failure> {
        match &entry.line {
            Line::Setting(setting) => {
                let _ = self.environment.set(*setting)?;
            }
            Line::Job(job) => self.push_job(alloc, common, clocks, entry, job)?,
            Line::Reboot(_) => self.say(
                alloc,
                entry.number,
                "@reboot is left out: no schedule is due when a machine starts",
            )?,
            Line::Refused(fault) => {
                let words = fault_words(alloc, fault)?;
                let words = format!(in alloc; "refused: {words}")?;
                self.say(alloc, entry.number, words.as_str())?;
            }
        }
        Ok(())
    }

    fn is_long(&self) -> bool {
        self.manifests.text.len() > MOST_BYTES
    }
}

/// A manifest for each line that starts a command by a schedule, up to the most bytes that `check`
/// reads.
pub(crate) fn manifests_of<'a>(
    alloc: Global,
    common: Common<'_>,
    clocks: &Clocks<'_>,
    entries: &[Entry<'a>],
) -> Result<Manifests, Failure> {
    let mut writing = Writing {
        manifests: Manifests {
            text: String::new(alloc),
            said: String::new(alloc),
            is_long: false,
        },
        environment: Environment::new(alloc),
        names: Names::new(alloc),
    };
    for entry in entries {
        writing.push(alloc, common, clocks, entry)?;
        if writing.is_long() {
            writing.manifests.is_long = true;
            break;
        }
    }
    let Writing { manifests, .. } = writing;
    Ok(manifests)
}
