// What `crontab` answers.
ghost use Rattle.std.specs.Prelude.{◌≡◌, ◌⊎◌, IfOk};
ghost use Rattle.std.specs.List.{list_any};
ghost use Rattle.cj_answers.specs.Outcome.{explained, outcome_of, refusal};
ghost use Rattle.cj_check.specs.Crontab.{AreEntries, is_refused};
ghost use Rattle.cj_check.specs.CrontabOutcome.{IsBytesOutcome, IsCrontabOutcome, IsCrontabRead, ending_by};

use crate::crontab::as_json::crontab_json;
use crate::crontab::clock::Clocks;
use crate::crontab::entries::{Entry, Form, entries_of, refuses};
use crate::crontab::lines::crontab_text;
use crate::crontab::manifest::Common;
use crate::crontab::yaml::manifests_of;
use cj_answers::{
    Answer, Ending, asked_moment, given_zones, is_form, is_json, is_moment, is_yaml, refused_now,
    refused_pair,
};
use cj_args::CrontabRequest;
use cj_io::{Failure, MOST_BYTES, MOST_READS, ZoneFile, read_input};
use cj_types::namespace_cause;
use cj_zone::ZoneTable;
use std::alloc::Global;
use std::io::Read;

fn refused(
    alloc: Global,
    request: &CrontabRequest<'_>,
    line: &str,
    words: &str,
) -> Result<Answer, Failure>
    ensures { IfOk result (λ a. outcome_of a
        ≡ explained request.now.explain words.now (refusal line.now)) }
{
    Ok(Answer::refused(alloc, line)?.explained(request.explain, words)?)
}

fn ending_of(entries: &[Entry<'_>]) -> Ending
    ensures { result ≡ ending_by (list_any is_refused entries.now) }
{
    if refuses(entries) {
        Ending::Refused
    } else {
        Ending::Done
    }
}

// The answer in lines or as JSON.
fn told_answer(
    alloc: Global,
    request: &CrontabRequest<'_>,
    clocks: &Clocks<'_>,
    entries: &[Entry<'_>],
    bytes: &[u8],
) -> Result<Answer, Failure>
    requires read { AreEntries bytes.now entries.now }
    ensures { IfOk result (λ a. IsCrontabRead bytes.now (outcome_of a)) }
{
    let printed = if is_json(request.output) {
        crontab_json(alloc, request.file, clocks, entries, bytes)?
    } else {
        crontab_text(alloc, clocks, entries, bytes)?
    };
    Ok(Answer {
        ending: ending_of(entries),
        printed,
        said: String::new(alloc),
    })
}

const LONG_WORDS: &str =
    "FILE: its manifests are more than 16,777,216 bytes, the most that check reads; split it\n";

// The answer as manifests.
fn yaml_answer(
    alloc: Global,
    request: &CrontabRequest<'_>,
    common: Common<'_>,
    clocks: &Clocks<'_>,
    entries: &[Entry<'_>],
    bytes: &[u8],
) -> Result<Answer, Failure>
    requires { AreEntries bytes.now entries.now }
    ensures { IfOk result (λ a. IsBytesOutcome request.now bytes.now (outcome_of a)) }
{
    let manifests = manifests_of(alloc, common, clocks, entries)?;
    if manifests.is_long {
        return refused(alloc, request, "cronsim: output\n", LONG_WORDS);
    }
    Ok(Answer {
        ending: ending_of(entries),
        printed: manifests.text,
        said: manifests.said,
    })
}

const ZONE_WORDS: &str =
    "--time-zone: want the name of a zone whose file is in the folder of --zoneinfo, or whose rule --zone gives\n";

// The answer to the bytes of a crontab.
fn bytes_answer(
    alloc: Global,
    request: &CrontabRequest<'_>,
    zones: &ZoneTable,
    bytes: &[u8],
) -> Result<Answer, Failure>
    ensures { IfOk result (λ a. IsBytesOutcome request.now bytes.now (outcome_of a)) }
{
    let form = Form {
        system: request.system,
        zone: request.time_zone,
    };
    let entries = entries_of(alloc, form, zones, bytes)?;
    let moment = asked_moment(alloc, request.moment)?;
    let clocks = Clocks { zones, moment };
    if !is_yaml(request.output) {
        return told_answer(alloc, request, &clocks, entries.as_slice(), bytes);
    }
    let common = Common {
        image: request.image.unwrap_or(""),
        shell: request.shell,
        namespace: request.namespace,
    };
    yaml_answer(alloc, request, common, &clocks, entries.as_slice(), bytes)
}

// The answer to an input: the zones are looked at first, then all of it is read.
fn input_answer<R: Read>(
    alloc: Global,
    request: &CrontabRequest<'_>,
    files: &[ZoneFile],
    input: &mut R,
) -> Result<Answer, Failure>
    ensures { IfOk result (λ a. IsCrontabOutcome request.now (R.remaining input.old)
        (outcome_of a)) }
{
    let Some(zones) = given_zones(alloc, &request.zones, files)? else {
        return refused_pair(alloc, request.explain);
    };
    if let Some(name) = request.time_zone {
        if zones.get(name).is_none() {
            return refused(alloc, request, "cronsim: zone\n", ZONE_WORDS);
        }
    }
    let bytes = read_input(alloc, input, MOST_BYTES, MOST_READS)?;
    bytes_answer(alloc, request, &zones, bytes.as_slice())
}

const FORM_WORDS: &str = "--output: want lines, json or yaml\n";

const IMAGE_WORDS: &str =
    "--image: -o yaml wants the image that has the commands, such as --image debian:12\n";

const NAMESPACE_WORDS: &str =
    "--namespace: want at most 63 lower-case letters, digits and -, with a letter or a digit at both ends\n";

// Whether -o yaml lacks an image.
fn lacks_image(request: &CrontabRequest<'_>) -> bool {
    let image = request.image.unwrap_or("");
    is_yaml(request.output) && image.is_empty()
}

fn is_namespace(name: Option<&str>) -> bool {
    match name {
        Some(name) => namespace_cause(name).is_none(),
        None => true,
    }
}

/// The answer of `crontab`. It looks at the form of the output first, then at the image, the
/// namespace, the moment and the zones, and then reads all of the input.
pub fn crontab_answer<R: Read>(
    alloc: Global,
    request: &CrontabRequest<'_>,
    files: &[ZoneFile],
    input: &mut R,
) -> Result<Answer, Failure>
    ensures { IfOk result (λ a. IsCrontabOutcome request.now (R.remaining input.old)
        (outcome_of a)) }
{
    if !is_form(request.output) && !is_yaml(request.output) {
        return refused(alloc, request, "cronsim: output\n", FORM_WORDS);
    }
    if lacks_image(request) {
        return refused(alloc, request, "cronsim: image\n", IMAGE_WORDS);
    }
    if !is_namespace(request.namespace) {
        return refused(alloc, request, "cronsim: namespace\n", NAMESPACE_WORDS);
    }
    if !is_moment(alloc, request.moment)? {
        return Ok(refused_now(alloc, request.explain)?);
    }
    input_answer(alloc, request, files, input)
}
