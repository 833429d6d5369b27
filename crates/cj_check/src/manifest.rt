// What `check` answers of one manifest, in lines.
ghost use Rattle.std.specs.Prelude.{◌≡◌, ◌++◌, ℕ, List, IfOk, codes, string_bytes, not};
ghost use Rattle.std.specs.List.{list_any};
ghost use Rattle.cj_base.specs.declared.refusal.Refusal.TheVariants.{Invalid};
ghost use Rattle.cj_manifest.specs.Either.{key_of, kind_of, manifest_draft, manifest_faults, manifest_warnings};
ghost use Rattle.cj_manifest.specs.Reading.{IsReading, IsRefused};
ghost use Rattle.cj_manifest.specs.declared.manifest.Manifest.{Manifest as Said};
ghost use Rattle.cj_zone.specs.Table.{zones_of};
ghost use Rattle.cj_answers.specs.Advice.{dropped_words_all};
ghost use Rattle.cj_answers.specs.Lines.{fault_lines, ok_line, warning_lines};
ghost use Rattle.cj_answers.specs.Outcome.{explained, outcome_of};
ghost use Rattle.cj_check.specs.Check.{IsChecked, IsComingWords, IsNoJson, ended, faulty, fine_ending, is_alone, is_harmless, is_no_text, pod_words, strict_words};

use crate::fault_words::fault_words;
use crate::job_fields::unfit_words;
use cj_answers::{
    Answer, Ending, all_dropped_words, asked_moment, json_words, manifest_advice, print_faults,
    print_ok, print_warnings, schedule_advice,
};
use cj_args::CheckRequest;
use cj_base::{FieldFault, Refusal};
use cj_io::Failure;
use cj_manifest::{Manifest, Warning};
use cj_scenario::{Form, detect};
use cj_zone::ZoneTable;
use std::alloc::{AllocError, Global};

// The lines of a manifest without a fault.
fn fine_lines(
    alloc: Global,
    manifest: &Manifest,
    warnings: &[Warning],
) -> Result<String, AllocError>
    ensures { IfOk result (λ s. string_bytes s
        ≡ ok_line (kind_of manifest.now) (key_of manifest.now) ++ warning_lines warnings.now) }
{
    let mut printed = print_ok(alloc, manifest.kind(), manifest.key())?;
    let lines = print_warnings(alloc, warnings)?;
    printed.push_str(lines.as_str())?;
    Ok(printed)
}

// The name of the template, which `kubectl create cronjob` writes, and which no Job gets.
fn is_harmless(warning: &Warning) -> bool
    ensures { result ≡ is_harmless warning.now }
{
    warning.path() == "spec.jobTemplate.metadata.name"
}

// Whether one of these warnings isn't harmless.
fn has_harm(warnings: &[Warning]) -> bool
    ensures { result ≡ list_any (λ w. not (is_harmless w)) warnings.now }
{
    warnings.iter().any(|warning| !is_harmless(warning))
}

fn is_no_text(text: &str) -> bool
    ensures { result ≡ is_no_text text.now }
{
    text.is_empty()
}

// The ending for a manifest with these warnings: `--strict` refuses any that isn't harmless, and a
// schedule that never comes or a field of the Job's spec that holds something else, of which these
// words tell.
fn fine_ending(strict: bool, warnings: &[Warning], told: &str) -> Ending
    ensures { result ≡ fine_ending strict warnings.now told.now }
{
    let harms = has_harm(warnings);
    let is_silent = is_no_text(told);
    if strict && (harms || !is_silent) {
        Ending::Refused
    } else {
        Ending::Done
    }
}

// The words on the schedule, where `--strict` refuses it and `--explain` doesn't say them anyway.
fn strict_words<'a>(strict: bool, explain: bool, coming: &'a str) -> &'a str
    ensures { result.now ≡ strict_words strict explain coming.now }
{
    match (strict, explain) {
        (true, false) => coming,
        (true, true) => "",
        (false, _) => "",
    }
}

// Whether the schedule of a CronJob comes at all.
fn coming_words(zones: &ZoneTable, manifest: &Manifest) -> &'static str
    ensures { IsComingWords manifest.now (zones_of zones.now) result.now }
{
    match manifest {
        Manifest::CronJob(draft) => schedule_advice(zones, &draft.spec),
        Manifest::Job(_) => "",
    }
}

/// Whether one file alone is checked.
pub(crate) fn is_alone(check: &CheckRequest<'_>) -> bool
    ensures { result ≡ is_alone check.now }
{
    check.files.len() == 1
}

// A note on what isn't looked at, where one manifest alone is checked.
fn pod_words(alone: bool) -> &'static str
    ensures { result.now ≡ pod_words alone }
{
    if alone {
        "FILE: of the Pod only its restartPolicy was looked at; kubectl apply --dry-run=server -f FILE checks the rest\n"
    } else {
        ""
    }
}

// What `--explain` adds for a manifest without a fault.
fn fine_words(
    alloc: Global,
    alone: bool,
    warnings: &[Warning],
    advice: &str,
) -> Result<String, AllocError>
    ensures { IfOk result (λ s. string_bytes s
        ≡ dropped_words_all warnings.now ++ (advice.now ++ pod_words alone)) }
{
    let mut words = all_dropped_words(alloc, warnings)?;
    words.push_str(advice)?;
    words.push_str(pod_words(alone))?;
    Ok(words)
}

// What `--strict` refuses a manifest for, beside its warnings.
fn told_words(alloc: Global, coming: &str, unfit: &str) -> Result<String, AllocError>
    ensures { IfOk result (λ s. string_bytes s ≡ coming.now ++ unfit.now) }
{
    let mut words = String::from_str(alloc, coming)?;
    words.push_str(unfit)?;
    Ok(words)
}

// What is said of a manifest without a fault, also where nobody asks for it.
fn said_words(
    alloc: Global,
    check: &CheckRequest<'_>,
    coming: &str,
    unfit: &str,
) -> Result<String, AllocError>
    ensures { IfOk result (λ s. string_bytes s
        ≡ strict_words check.now.strict check.now.explain coming.now ++ unfit.now) }
{
    told_words(
        alloc,
        strict_words(check.strict, check.explain, coming),
        unfit,
    )
}

// The answer for a manifest without a fault, before `--explain` adds to it.
fn fine_alone(
    alloc: Global,
    check: &CheckRequest<'_>,
    manifest: &Manifest,
    warnings: &[Warning],
    coming: &str,
    unfit: &str,
) -> Result<Answer, AllocError>
    ensures { IfOk result (λ a. outcome_of a
        ≡ ended (fine_ending check.now.strict warnings.now (coming.now ++ unfit.now))
        (strict_words check.now.strict check.now.explain coming.now ++ unfit.now)
        (ok_line (kind_of manifest.now) (key_of manifest.now) ++ warning_lines warnings.now)) }
{
    let told = told_words(alloc, coming, unfit)?;
    Ok(Answer {
        ending: fine_ending(check.strict, warnings, told.as_str()),
        printed: fine_lines(alloc, manifest, warnings)?,
        said: said_words(alloc, check, coming, unfit)?,
    })
}

// The answer for a manifest without a fault.
fn fine(
    alloc: Global,
    check: &CheckRequest<'_>,
    alone: bool,
    manifest: &Manifest,
    warnings: &[Warning],
    advice: &str,
    coming: &str,
    unfit: &str,
) -> Result<Answer, Failure>
    ensures { IfOk result (λ a. outcome_of a ≡ explained check.now.explain
        (dropped_words_all warnings.now ++ (advice.now ++ pod_words alone))
        (ended (fine_ending check.now.strict warnings.now (coming.now ++ unfit.now))
        (strict_words check.now.strict check.now.explain coming.now ++ unfit.now)
        (ok_line (kind_of manifest.now) (key_of manifest.now) ++ warning_lines warnings.now))) }
{
    let words = fine_words(alloc, alone, warnings, advice)?;
    let answer = fine_alone(alloc, check, manifest, warnings, coming, unfit)?;
    Ok(answer.explained(check.explain, words.as_str())?)
}

/// The answer for a refused manifest, with these lines.
pub(crate) fn faulty(alloc: Global, printed: String) -> Answer
    ensures { outcome_of result ≡ faulty (string_bytes printed) }
{
    Answer {
        ending: Ending::Refused,
        printed,
        said: String::new(alloc),
    }
}

// The answer for bytes that are no JSON, with these words behind `--explain`.
fn syntax_refusal(alloc: Global, explain: bool, words: &str) -> Result<Answer, AllocError>
    ensures { IfOk result (λ a. outcome_of a ≡ explained explain words.now
        (faulty (codes "refused 1 Syntax\n"))) }
{
    let printed = String::from_str(alloc, "refused 1 Syntax\n")?;
    faulty(alloc, printed).explained(explain, words)
}

// The answer for bytes that are no JSON: where the text goes wrong.
fn no_json(alloc: Global, explain: bool, bytes: &[u8]) -> Result<Answer, Failure>
    ensures { IfOk result (λ a. IsNoJson explain bytes.now (outcome_of a)) }
{
    let words = json_words(alloc, bytes)?;
    Ok(syntax_refusal(alloc, explain, words.as_str())?)
}

// The answer for a manifest with faults: `words` explain them, `beside` says what else the text may
// be.
fn with_faults(
    alloc: Global,
    explain: bool,
    faults: &[FieldFault],
    words: &str,
    beside: &str,
) -> Result<Answer, AllocError>
    ensures { IfOk result (λ a. outcome_of a ≡ explained explain (words.now ++ beside.now)
        (faulty (fault_lines faults.now))) }
{
    let printed = print_faults(alloc, faults)?;
    let mut said = String::from_str(alloc, words)?;
    said.push_str(beside)?;
    faulty(alloc, printed).explained(explain, said.as_str())
}

// The answer for a manifest with faults.
fn refused_manifest(
    alloc: Global,
    check: &CheckRequest<'_>,
    alone: bool,
    zones: &ZoneTable,
    bytes: &[u8],
    faults: &[FieldFault],
) -> Result<Answer, Failure>
    requires { IsRefused (manifest_faults (zones_of zones.now)) bytes.now (Invalid faults.now) }
    ensures { IfOk result (λ a. IsChecked check.now alone (zones_of zones.now) bytes.now
        (outcome_of a)) }
{
    let words = fault_words(alloc, bytes, faults)?;
    let beside = detect(alloc, Form::Manifest, bytes)?;
    Ok(with_faults(
        alloc,
        check.explain,
        faults,
        words.as_str(),
        beside.as_str(),
    )?)
}

/// The answer for a manifest without a fault, alone or among others.
pub(crate) fn fine_answer(
    alloc: Global,
    check: &CheckRequest<'_>,
    alone: bool,
    zones: &ZoneTable,
    manifest: &Manifest,
    warnings: &[Warning],
) -> Result<Answer, Failure>
    ensures { (bytes : List ℕ) → IsReading Said (manifest_faults (zones_of zones.now))
        manifest_draft manifest_warnings bytes manifest.now warnings.now →
        IfOk result (λ a. IsChecked check.now alone (zones_of zones.now) bytes (outcome_of a)) }
{
    let moment = asked_moment(alloc, check.moment)?;
    let words = manifest_advice(alloc, zones, manifest, moment)?;
    let coming = coming_words(zones, manifest);
    let unfit = unfit_words(alloc, manifest)?;
    let words = words.as_str();
    let unfit = unfit.as_str();
    fine(
        alloc, check, alone, manifest, warnings, words, coming, unfit,
    )
}

/// The answer for bytes that are refused, alone or among others.
pub(crate) fn refused_answer(
    alloc: Global,
    check: &CheckRequest<'_>,
    alone: bool,
    zones: &ZoneTable,
    bytes: &[u8],
    refusal: &Refusal,
) -> Result<Answer, Failure>
    requires { IsRefused (manifest_faults (zones_of zones.now)) bytes.now refusal.now }
    ensures { IfOk result (λ a. IsChecked check.now alone (zones_of zones.now) bytes.now
        (outcome_of a)) }
{
    match refusal {
        Refusal::Syntax => no_json(alloc, check.explain, bytes),
        Refusal::Invalid(faults) => {
            refused_manifest(alloc, check, alone, zones, bytes, faults.as_slice())
        }
        other => Err(Failure::of(other)),
    }
}
