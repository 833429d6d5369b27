ghost use Rattle.std.specs.Prelude.{◌≡◌, ◌≢◌, ◌++◌, ℕ, List, Some, codes, option_copied, string_bytes, true, IfOk, IfErr};
ghost use Rattle.cj_zone.specs.Table.{local_zone, zones_of};
ghost use Rattle.cj_zone.specs.Zones.{utc_zone};
ghost use Rattle.cj_decide.specs.Decision.{IsPlan};
ghost use Rattle.cj_scenario.specs.Made.{IsScene};
ghost use Rattle.cj_scenario.specs.declared.fault.SceneFault.TheVariants.{Form as FormFault, Manifest, Memory, Syntax};
ghost use Rattle.cj_scenario.specs.declared.detection.form.Form.{Form as Wanted};
ghost use Rattle.cj_explain.specs.Faults.{fault_words};
ghost use Rattle.cj_answers.specs.Outcome.{done, explained, outcome_of, refusal};
ghost use Rattle.cj_base.specs.declared.refusal.Refusal.TheVariants.{OutOfMemory};
ghost use Rattle.cj_why.specs.reviews.ZoneFor.{zone_for};
ghost use Rattle.cj_io.specs.declared.zone_files.given.GivenZones.{GivenZones};
ghost use Rattle.cj_check.specs.Plan.{IsAskedDetection, IsAskedWhy, IsBeside, IsFormWords, IsPlanAnswer, IsPlanOutcome, IsPlanPrinted, IsPlannedFor, IsSceneRefusal, IsSeen, IsUnused, scene_line};
ghost use Rattle.cj_answers.specs.as_json.Forms.{is_json};

use crate::dropped::asked_dropped;
use crate::strays::strays;
use cj_answers::{
    Answer, Ending, given_for, is_form, is_json, json_words, moment_of, print_fault, refused_form,
    refused_now, refused_pair, value_line,
};
use cj_args::PlanRequest;
use cj_decide::{Plan, Steps, decide};
use cj_explain::{explain_fault, look};
use cj_io::{Failure, GivenZones, MOST_BYTES, MOST_READS, ZoneFile, read_input};
use cj_scenario::{Form, Scene, SceneFault, detect, read_scene};
use cj_types::{CronJob, FieldFault, Job, Refusal, Seconds, Shared};
use cj_why::{plan_text, plan_value, why, zone_copy, zone_of};
use cj_zone::Zone;
use std::alloc::{AllocError, Global};
use std::io::Read;

fn plan_of(alloc: Global, scene: Scene, now: Seconds) -> Result<Plan, Failure>
    requires { local_zone scene.zones ≡ Some (utc_zone (codes "UTC")) }
    ensures { IfOk result (λ p. IsPlan (Some scene.cron) scene.jobs scene.active now
        (zone_for scene.cron.spec.time_zone (zones_of scene.zones)) p.steps) }
{
    let zone = zone_copy(alloc, &scene.zones, scene.cron.get())?;
    let Scene {
        zones: _,
        cron,
        jobs,
        active,
    } = scene;
    Ok(decide(alloc, Some(cron), jobs, active, now, zone)?)
}

// Why a Job is started or not, where people ask for it.
fn asked_why(
    alloc: Global,
    explain: bool,
    cron: &CronJob,
    zone: Option<&Zone>,
    active: &[Option<Shared<Job>>],
    now: Seconds,
) -> Result<String, Failure>
    ensures { IfOk result (λ s. IsAskedWhy explain cron.now (option_copied zone.entry) active.now
        now (string_bytes s)) }
{
    if explain {
        Ok(why(alloc, cron, zone, active, &[], now)?)
    } else {
        Ok(String::new(alloc))
    }
}

// The same of a scenario.
fn scene_why(alloc: Global, explain: bool, scene: &Scene, now: Seconds) -> Result<String, Failure>
    requires { local_zone scene.now.zones ≡ Some (utc_zone (codes "UTC")) }
    ensures { IfOk result (λ s. IsAskedWhy explain scene.now.cron
        (zone_for scene.now.cron.spec.time_zone (zones_of scene.now.zones)) scene.now.active now
        (string_bytes s)) }
{
    let cron = scene.cron.get();
    let zone = zone_of(&scene.zones, &cron.spec.time_zone);
    asked_why(alloc, explain, cron, zone, scene.active.as_slice(), now)
}

fn joined(alloc: Global, first: &str, second: &str) -> Result<String, AllocError>
    ensures { IfOk result (λ s. string_bytes s ≡ first.now ++ second.now) }
{
    let mut text = String::from_str(alloc, first)?;
    text.push_str(second)?;
    Ok(text)
}

fn plan_json(alloc: Global, steps: &Steps) -> Result<String, Refusal>
    ensures ok { IfOk result (λ s. IsPlanPrinted true steps.now (string_bytes s)) }
    ensures err { IfErr result (λ e. e ≡ OutOfMemory) }
{
    let value = plan_value(alloc, steps)?;
    Ok(value_line(alloc, &value)?)
}

// A plan as JSON, or in lines.
fn plan_printed(alloc: Global, output: &str, steps: &Steps) -> Result<String, Refusal>
    ensures ok { IfOk result (λ s. IsPlanPrinted (is_json output.now) steps.now
        (string_bytes s)) }
    ensures err { IfErr result (λ e. e ≡ OutOfMemory) }
{
    if is_json(output) {
        plan_json(alloc, steps)
    } else {
        plan_text(alloc, steps)
    }
}

fn printed(
    alloc: Global,
    explain: bool,
    printed: String,
    why: &str,
    beside: &str,
) -> Result<Answer, Failure>
    ensures { IfOk result (λ a. outcome_of a ≡ explained explain (why.now ++ beside.now)
        (done (string_bytes printed))) }
{
    let answer = Answer {
        ending: Ending::Done,
        printed,
        said: String::new(alloc),
    };
    let words = joined(alloc, why, beside)?;
    Ok(answer.explained(explain, words.as_str())?)
}

// The plan of a scenario, of which this is told beside.
fn planned(
    alloc: Global,
    explain: bool,
    output: &str,
    scene: Scene,
    now: Seconds,
    beside: &str,
) -> Result<Answer, Failure>
    requires { local_zone scene.zones ≡ Some (utc_zone (codes "UTC")) }
    ensures { (given : GivenZones) (bytes : List ℕ) → IsScene given bytes scene →
        IsBeside explain bytes beside.now →
        IfOk result (λ a. IsPlannedFor explain (is_json output.now) given bytes now
        (outcome_of a)) }
{
    let why = scene_why(alloc, explain, &scene, now)?;
    let plan = plan_of(alloc, scene, now)?;
    let text = plan_printed(alloc, output, plan.steps())?;
    printed(alloc, explain, text, why.as_str(), beside)
}

fn fault_text(alloc: Global, fault: FieldFault) -> Result<String, AllocError>
    ensures { IfOk result (λ s. string_bytes s ≡ scene_line (Manifest fault)) }
{
    let line = print_fault(alloc, fault)?;
    let mut text = String::from_str(alloc, "cronsim: ")?;
    text.push_str(line.as_str())?;
    Ok(text)
}

fn manifest_fault(alloc: Global, explain: bool, fault: FieldFault) -> Result<Answer, AllocError>
    ensures { IfOk result (λ a. outcome_of a ≡ explained explain (fault_words fault)
        (refusal (scene_line (Manifest fault)))) }
{
    let line = fault_text(alloc, fault)?;
    let words = explain_fault(alloc, fault)?;
    Answer::refused(alloc, line.as_str())?.explained(explain, words.as_str())
}

fn syntax_fault(alloc: Global, explain: bool, words: &str) -> Result<Answer, AllocError>
    ensures { IfOk result (λ a. outcome_of a ≡ explained explain words.now
        (refusal (scene_line Syntax))) }
{
    Answer::refused(alloc, "cronsim: refused 1 Syntax\n")?.explained(explain, words)
}

fn no_json(alloc: Global, explain: bool, bytes: &[u8]) -> Result<Answer, Failure>
    ensures { (wanted : Wanted) → IfOk result
        (λ a. IsSceneRefusal explain wanted bytes.now Syntax (outcome_of a)) }
{
    let words = json_words(alloc, bytes)?;
    Ok(syntax_fault(alloc, explain, words.as_str())?)
}

// Of what form the bytes have to be, which member is missing or wrong, and what they are.
fn form_words(alloc: Global, wanted: Form, bytes: &[u8]) -> Result<String, Failure>
    ensures { IfOk result (λ s. IsFormWords wanted bytes.now (string_bytes s)) }
{
    let seen = look(alloc, wanted, bytes)?;
    Ok(joined(alloc, wanted.wanted(), seen.as_str())?)
}

fn form_fault(alloc: Global, explain: bool, words: &str) -> Result<Answer, AllocError>
    ensures { IfOk result (λ a. outcome_of a ≡ explained explain words.now
        (refusal (scene_line FormFault))) }
{
    Answer::refused(alloc, "cronsim: scenario\n")?.explained(explain, words)
}

fn no_form(alloc: Global, explain: bool, wanted: Form, bytes: &[u8]) -> Result<Answer, Failure>
    ensures { IfOk result (λ a. IsSceneRefusal explain wanted bytes.now FormFault (outcome_of a)) }
{
    let words = form_words(alloc, wanted, bytes)?;
    Ok(form_fault(alloc, explain, words.as_str())?)
}

fn faulty_manifest(alloc: Global, explain: bool, fault: FieldFault) -> Result<Answer, AllocError>
    ensures { (wanted : Wanted) (bytes : List ℕ) →
        IfOk result (λ a. IsSceneRefusal explain wanted bytes (Manifest fault) (outcome_of a)) }
{
    manifest_fault(alloc, explain, fault)
}

/// What the bytes of a scenario or a script are answered that are refused.
pub fn refused_scene(
    alloc: Global,
    explain: bool,
    wanted: Form,
    bytes: &[u8],
    fault: SceneFault,
) -> Result<Answer, Failure>
    ensures told { IfOk result (λ _. fault ≢ Memory) }
    ensures says { IfOk result (λ a. IsSceneRefusal explain wanted bytes.now fault (outcome_of a)) }
{
    match fault {
        SceneFault::Syntax => no_json(alloc, explain, bytes),
        SceneFault::Form => no_form(alloc, explain, wanted, bytes),
        SceneFault::Manifest(fault) => Ok(faulty_manifest(alloc, explain, fault)?),
        SceneFault::Memory => Err(Failure::Memory),
    }
}

// Of a run the keys that aren't used.
fn unused(alloc: Global, wanted: Form, bytes: &[u8]) -> Result<String, Failure>
    ensures { IfOk result (λ s. IsUnused wanted bytes.now (string_bytes s)) }
{
    match wanted {
        Form::Simulation => strays(alloc, bytes),
        _ => Ok(String::new(alloc)),
    }
}

fn seen(alloc: Global, wanted: Form, bytes: &[u8]) -> Result<String, Failure>
    ensures { IfOk result (λ s. IsSeen wanted bytes.now (string_bytes s)) }
{
    let mut words = detect(alloc, wanted, bytes)?;
    let unused = unused(alloc, wanted, bytes)?;
    words.push_str(unused.as_str())?;
    Ok(words)
}

/// What is seen of the bytes, where people ask for it.
pub fn asked_detection(
    alloc: Global,
    explain: bool,
    wanted: Form,
    bytes: &[u8],
) -> Result<String, Failure>
    ensures { IfOk result (λ s. IsAskedDetection explain wanted bytes.now (string_bytes s)) }
{
    if explain {
        seen(alloc, wanted, bytes)
    } else {
        Ok(String::new(alloc))
    }
}

// What is told of a scenario beside its plan.
fn beside(alloc: Global, explain: bool, bytes: &[u8]) -> Result<String, Failure>
    ensures { IfOk result (λ s. IsBeside explain bytes.now (string_bytes s)) }
{
    let seen = asked_detection(alloc, explain, Form::Scenario, bytes)?;
    let dropped = asked_dropped(alloc, explain, bytes)?;
    Ok(joined(alloc, seen.as_str(), dropped.as_str())?)
}

fn scene_planned(
    alloc: Global,
    explain: bool,
    output: &str,
    bytes: &[u8],
    scene: Scene,
    now: Seconds,
) -> Result<Answer, Failure>
    requires local { local_zone scene.zones ≡ Some (utc_zone (codes "UTC")) }
    ensures { (given : GivenZones) → IsScene given bytes.now scene →
        IfOk result (λ a. IsPlannedFor explain (is_json output.now) given bytes.now now
        (outcome_of a)) }
{
    let beside = beside(alloc, explain, bytes)?;
    planned(alloc, explain, output, scene, now, beside.as_str())
}

// What a scenario is answered at that moment under the zones that are given.
fn scene_answer(
    alloc: Global,
    explain: bool,
    output: &str,
    given: GivenZones<'_>,
    bytes: &[u8],
    now: Seconds,
) -> Result<Answer, Failure>
    requires { local_zone given.rules ≡ Some (utc_zone (codes "UTC")) }
    ensures { IfOk result (λ a. IsPlannedFor explain (is_json output.now) given.entry bytes.now now
        (outcome_of a)) }
{
    match read_scene(alloc, given, bytes) {
        Ok(scene) => scene_planned(alloc, explain, output, bytes, scene, now),
        Err(fault) => refused_scene(alloc, explain, Form::Scenario, bytes, fault),
    }
}

// What is answered in a form that there is.
fn form_answer<R: Read>(
    alloc: Global,
    plan: &PlanRequest<'_>,
    files: &[ZoneFile],
    input: &mut R,
) -> Result<Answer, Failure>
    ensures { IfOk result (λ a. IsPlanAnswer plan.now files.now (R.remaining input.old)
        (outcome_of a)) }
{
    let Some(now) = moment_of(alloc, plan.moment)? else {
        return Ok(refused_now(alloc, plan.explain)?);
    };
    let Some(given) = given_for(alloc, &plan.zones, files)? else {
        return refused_pair(alloc, plan.explain);
    };
    let bytes = read_input(alloc, input, MOST_BYTES, MOST_READS)?;
    let output = plan.output;
    scene_answer(alloc, plan.explain, output, given, bytes.as_slice(), now)
}

/// What the command `plan` answers: the form of what is printed is looked at first, then the
/// moment, then the zones, then all of the input is read.
pub fn plan_answer<R: Read>(
    alloc: Global,
    plan: &PlanRequest<'_>,
    files: &[ZoneFile],
    input: &mut R,
) -> Result<Answer, Failure>
    ensures { IfOk result (λ a. IsPlanOutcome plan.now files.now (R.remaining input.old)
        (outcome_of a)) }
{
    if is_form(plan.output) {
        form_answer(alloc, plan, files, input)
    } else {
        refused_form(alloc, plan.explain)
    }
}
