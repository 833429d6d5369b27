// What members have to be.
ghost use Rattle.std.specs.Prelude.{◌≡◌, IfOk, IfErr};
ghost use Rattle.serde_json.specs.View.{view};
ghost use Rattle.cj_base.specs.declared.refusal.Refusal.TheVariants.{OutOfMemory};
ghost use Rattle.cj_explain.specs.members.Wants as want;

use cj_script::{instant_of, key_of, verb_named};
use cj_types::Refusal;
use serde_json::Value;
use std::alloc::Global;

/// The whole numbers that a member may be.
#[derive(Clone, Copy, Debug, PartialEq, Eq)]
pub(crate) enum Range {
    Any,
    /// The entries of a history.
    History,
    /// The events of a window.
    Window,
    /// The seconds from one instant of a clock to the next.
    Step,
    /// The events that a watch answers.
    Max,
}

/// The texts that a member may be.
#[derive(Clone, Copy, Debug, PartialEq, Eq)]
pub(crate) enum Word {
    /// The rule of a zone.
    Rule,
    Time,
    /// The state of a Job.
    State,
    /// How a Job ends.
    End,
    Role,
    Verb,
    Key,
}

/// What a member has to be.
#[derive(Clone, Copy, Debug, PartialEq, Eq)]
pub(crate) enum Want {
    /// Any value: what is wrong in a manifest is told of its fields.
    Manifest,
    Object,
    List,
    Truth,
    Reasons,
    Number(Range),
    Text(Word),
}

fn is_within(most: u64, number: u64) -> bool
    ensures { result ≡ want.is_within most number }
{
    number >= 1 && number <= most
}

impl Range {
    fn has(self, number: u64) -> bool
        ensures { result ≡ want.in_range self number }
    {
        match self {
            Range::Any => true,
            Range::History => is_within(16_777_216, number),
            Range::Window => is_within(100_000, number),
            Range::Step => is_within(3_600, number),
            Range::Max => is_within(500, number),
        }
    }

    fn words(self) -> &'static str
        ensures { result.now ≡ want.range_words self }
    {
        match self {
            Range::Any => "a whole number",
            Range::History => "a whole number from 1 to 16777216",
            Range::Window => "a whole number from 1 to 100000",
            Range::Step => "a whole number from 1 to 3600",
            Range::Max => "a whole number from 1 to 500",
        }
    }
}

fn is_end(text: &str) -> bool
    ensures { result ≡ want.is_end text.now }
{
    match text {
        "Complete" | "Failed" => true,
        _ => false,
    }
}

fn is_state(text: &str) -> bool
    ensures { result ≡ want.is_state text.now }
{
    match text {
        "Running" => true,
        _ => is_end(text),
    }
}

fn is_role(text: &str) -> bool
    ensures { result ≡ want.is_role text.now }
{
    match text {
        "User" | "Runner" | "Informer" | "Worker" => true,
        _ => false,
    }
}

/// Whether the text is a key, NAMESPACE/NAME.
pub(crate) fn is_key(alloc: Global, text: &str) -> Result<bool, Refusal>
    ensures ok { IfOk result (λ b. b ≡ want.is_key text.now) }
    ensures err { IfErr result (λ e. e ≡ OutOfMemory) }
{
    Ok(key_of(alloc, text)?.is_some())
}

impl Word {
    fn fits(self, alloc: Global, text: &str) -> Result<bool, Refusal>
        ensures ok { IfOk result (λ b. b ≡ want.is_word self text.now) }
        ensures err { IfErr result (λ e. e ≡ OutOfMemory) }
    {
        match self {
            Word::Rule => Ok(true),
            Word::Time => Ok(instant_of(text).is_some()),
            Word::State => Ok(is_state(text)),
            Word::End => Ok(is_end(text)),
            Word::Role => Ok(is_role(text)),
            Word::Verb => Ok(verb_named(text).is_some()),
            Word::Key => is_key(alloc, text),
        }
    }

    fn words(self) -> &'static str
        ensures { result.now ≡ want.word_words self }
    {
        match self {
            Word::Rule => "a POSIX rule like CET-1CEST,M3.5.0,M10.5.0/3",
            Word::Time => "a UTC time like 2024-01-01T00:00:00Z",
            Word::State => "Running, Complete or Failed",
            Word::End => "Complete or Failed",
            Word::Role => "User, Runner, Informer or Worker",
            Word::Verb => {
                "createCron, updateCron, deleteCron, createJob, updateJob, deleteJob, endJob, watch, add, tick, shut, feed, take, seeCron, seeJobs, seeActive, claim, drop, make, setStatus or finish"
            }
            Word::Key => "a key, NAMESPACE/NAME",
        }
    }
}

fn is_reason(item: &Value) -> bool
    ensures { result ≡ want.is_reason (view item.now) }
{
    match item.as_str() {
        None => false,
        Some(text) => match text {
            "UnknownTimeZone" | "TooManyMissedTimes" | "JobAlreadyActive" | "FailedCreate" => true,
            _ => false,
        },
    }
}

fn are_reasons(value: &Value) -> bool
    ensures { result ≡ want.are_reasons (view value.now) }
{
    let Some(items) = value.as_array() else {
        return false;
    };
    for item in items {
        if !is_reason(item) {
            return false;
        }
    }
    true
}

fn is_number(range: Range, value: &Value) -> bool
    ensures { result ≡ want.is_number range (view value.now) }
{
    match value.as_u64() {
        Some(number) => range.has(number),
        None => false,
    }
}

fn is_text(alloc: Global, word: Word, value: &Value) -> Result<bool, Refusal>
    ensures ok { IfOk result (λ b. b ≡ want.is_text word (view value.now)) }
    ensures err { IfErr result (λ e. e ≡ OutOfMemory) }
{
    match value.as_str() {
        Some(text) => word.fits(alloc, text),
        None => Ok(false),
    }
}

impl Want {
    /// Whether the value is what is wanted.
    pub fn fits(self, alloc: Global, value: &Value) -> Result<bool, Refusal>
        ensures ok { IfOk result (λ b. b ≡ want.fits self (view value.now)) }
        ensures err { IfErr result (λ e. e ≡ OutOfMemory) }
    {
        match self {
            Want::Manifest => Ok(true),
            Want::Object => Ok(value.as_object().is_some()),
            Want::List => Ok(value.as_array().is_some()),
            Want::Truth => Ok(value.as_bool().is_some()),
            Want::Reasons => Ok(are_reasons(value)),
            Want::Number(range) => Ok(is_number(range, value)),
            Want::Text(word) => is_text(alloc, word, value),
        }
    }

    /// What is wanted, in words.
    pub fn words(self) -> &'static str
        ensures { result.now ≡ want.words self }
    {
        match self {
            Want::Manifest => "a manifest",
            Want::Object => "an object",
            Want::List => "a list",
            Want::Truth => "true or false",
            Want::Reasons => {
                "a list of UnknownTimeZone, TooManyMissedTimes, JobAlreadyActive and FailedCreate"
            }
            Want::Number(range) => range.words(),
            Want::Text(word) => word.words(),
        }
    }
}
