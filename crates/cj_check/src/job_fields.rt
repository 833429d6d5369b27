// What the known fields of a Job's spec hold (Kubernetes API reference, batch/v1 JobSpec).
ghost use Rattle.std.specs.Prelude.{◌≡◌, ◌++◌, ◌⊎◌, IfOk, [], map, option_map, string_bytes};
ghost use Rattle.serde_json.specs.View.{view};
ghost use Rattle.cj_manifest.specs.Either.{spec_of};
ghost use Rattle.cj_manifest.specs.Reading.{IsNoValue};
ghost use Rattle.cj_check.specs.JobFields.{IsUnfit, ReadsUnfit, is_fit, is_unfit, known_fields, prefix_of, row_of, unfit_among, unfit_line, unfit_lines, wanted};

use cj_io::Failure;
use cj_manifest::{Manifest, present};
use cj_scenario::{SceneFault, value_of};
use serde_json::Value;
use std::alloc::{AllocError, Global};

/// What a field holds.
#[derive(Clone, Copy)]
pub(crate) enum Holds {
    /// A whole number of at least 0.
    Count,
    Flag,
    Text,
    Object,
}

/// A field of a Job's spec: its name, and what it holds.
type JobField = (&'static str, Holds);

// The fields that are known.
const KNOWN_FIELDS: [JobField; 16] = [
    ("parallelism", Holds::Count),
    ("completions", Holds::Count),
    ("activeDeadlineSeconds", Holds::Count),
    ("backoffLimit", Holds::Count),
    ("backoffLimitPerIndex", Holds::Count),
    ("maxFailedIndexes", Holds::Count),
    ("ttlSecondsAfterFinished", Holds::Count),
    ("manualSelector", Holds::Flag),
    ("suspend", Holds::Flag),
    ("completionMode", Holds::Text),
    ("podReplacementPolicy", Holds::Text),
    ("managedBy", Holds::Text),
    ("selector", Holds::Object),
    ("podFailurePolicy", Holds::Object),
    ("successPolicy", Holds::Object),
    ("template", Holds::Object),
];

fn known_fields() -> [JobField; 16]
    ensures { map row_of result ≡ known_fields }
{
    KNOWN_FIELDS
}

fn is_fit(holds: Holds, value: &Value) -> bool
    ensures { result ≡ is_fit holds (view value.now) }
{
    match holds {
        Holds::Count => value.is_u64(),
        Holds::Flag => value.is_boolean(),
        Holds::Text => value.is_string(),
        Holds::Object => value.is_object(),
    }
}

// Whether a field is there and holds something else.
fn is_unfit(holds: Holds, value: Option<&Value>) -> bool
    ensures { result ≡ is_unfit holds (option_map (λ v. view v.now) value.entry) }
{
    match value {
        Some(value) => !is_fit(holds, value),
        None => false,
    }
}

fn wanted(holds: Holds) -> &'static str
    ensures { result.now ≡ wanted holds }
{
    match holds {
        Holds::Count => "a whole number of at least 0",
        Holds::Flag => "true or false",
        Holds::Text => "a text",
        Holds::Object => "an object",
    }
}

fn unfit_line(alloc: Global, prefix: &str, name: &str, holds: Holds) -> Result<String, AllocError>
    ensures { IfOk result (λ s. string_bytes s ≡ unfit_line prefix.now name.now holds) }
{
    let wanted = wanted(holds);
    format!(in alloc; "{prefix}{name}: want {wanted}; the API server refuses another value\n")
}

fn unfit_among(
    alloc: Global,
    prefix: &str,
    value: &Value,
    fields: &[JobField],
) -> Result<String, AllocError>
    ensures { IfOk result (λ s. string_bytes s
        ≡ unfit_among prefix.now (view value.now) (map row_of fields.now)) }
{
    let mut text = String::new(alloc);
    for (name, holds) in fields {
        if is_unfit(*holds, present(value, name)) {
            let line = unfit_line(alloc, prefix, name, *holds)?;
            text.push_str(line.as_str())?;
        }
    }
    Ok(text)
}

fn unfit_lines(alloc: Global, prefix: &str, value: &Value) -> Result<String, AllocError>
    ensures { IfOk result (λ s. string_bytes s ≡ unfit_lines prefix.now (view value.now)) }
{
    let fields = known_fields();
    unfit_among(alloc, prefix, value, fields.as_slice())
}

fn prefix_of(manifest: &Manifest) -> &'static str
    ensures { result.now ≡ prefix_of manifest.now }
{
    match manifest {
        Manifest::CronJob(_) => "spec.jobTemplate.spec.",
        Manifest::Job(_) => "spec.",
    }
}

// The text of the Job's spec.
fn spec_of(manifest: &Manifest) -> &str
    ensures { result.now ≡ spec_of manifest.now }
{
    match manifest {
        Manifest::CronJob(draft) => draft.spec.template.spec.as_str(),
        Manifest::Job(draft) => draft.spec.as_str(),
    }
}

fn unfit_in(alloc: Global, prefix: &str, spec: &str) -> Result<String, Failure>
    ensures { IfOk result (λ s. ReadsUnfit prefix.now spec.now (string_bytes s)
        ⊎ (IsNoValue spec.now × (string_bytes s ≡ []))) }
{
    match value_of(alloc, spec.as_bytes()) {
        Ok(value) => Ok(unfit_lines(alloc, prefix, &value)?),
        Err(SceneFault::Memory) => Err(Failure::Memory),
        Err(_) => Ok(String::new(alloc)),
    }
}

/// A line for each known field of the Job's spec in a manifest that holds what the API server
/// refuses.
pub(crate) fn unfit_words(alloc: Global, manifest: &Manifest) -> Result<String, Failure>
    ensures { IfOk result (λ s. IsUnfit manifest.now (string_bytes s)) }
{
    unfit_in(alloc, prefix_of(manifest), spec_of(manifest))
}
