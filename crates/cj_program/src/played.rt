// What `replay` answers as one value.
ghost use Rattle.std.specs.Prelude.{◌≡◌, IfOk, string_bytes};
ghost use Rattle.cj_script.specs.Scripts.{IsScript};
ghost use Rattle.cj_io.specs.declared.zone_files.given.GivenZones.{GivenZones};
ghost use Rattle.cj_answers.specs.Outcome.{done, outcome_of};
ghost use Rattle.cj_program.specs.Replay.{IsPlayedOf, IsReplayValue};

use crate::as_json::replay_json;
use cj_answers::{Answer, Ending, given_for, refused_pair};
use cj_args::ReplayRequest;
use cj_check::refused_scene;
use cj_io::{Failure, GivenZones, MOST_BYTES, MOST_READS, ZoneFile, read_input};
use cj_scenario::Form;
use cj_script::{Script, read_script};
use cj_world::Secret;
use std::alloc::Global;
use std::io::Read;

fn printed(alloc: Global, text: String) -> Answer
    ensures { outcome_of result ≡ done (string_bytes text) }
{
    Answer {
        ending: Ending::Done,
        printed: text,
        said: String::new(alloc),
    }
}

// The value of a replay of the script that the bytes say.
fn script_answer(
    alloc: Global,
    explain: bool,
    bytes: &[u8],
    script: &Script,
    secret: Secret,
) -> Result<Answer, Failure>
    ensures { (given : GivenZones) → IsScript given bytes.now script.now →
        IfOk result (λ a. IsPlayedOf explain given bytes.now (outcome_of a)) }
{
    let text = replay_json(alloc, script, secret)?;
    Ok(printed(alloc, text))
}

fn bytes_answer(
    alloc: Global,
    explain: bool,
    given: GivenZones<'_>,
    bytes: &[u8],
    secret: Secret,
) -> Result<Answer, Failure>
    ensures { IfOk result (λ a. IsPlayedOf explain given.entry bytes.now (outcome_of a)) }
{
    match read_script(alloc, given, bytes) {
        Ok(script) => script_answer(alloc, explain, bytes, &script, secret),
        Err(fault) => refused_scene(alloc, explain, Form::Script, bytes, fault),
    }
}

/// What `replay` answers as one value: the zones are looked at first, then all of the input is
/// read. It is a failure where a step finds the history full.
pub(crate) fn replay_answer<R: Read>(
    alloc: Global,
    replay: &ReplayRequest<'_>,
    files: &[ZoneFile],
    input: &mut R,
    secret: Secret,
) -> Result<Answer, Failure>
    ensures { IfOk result (λ a. IsReplayValue replay.now files.now (R.remaining input.old)
        (outcome_of a)) }
{
    let Some(given) = given_for(alloc, &replay.zones, files)? else {
        return refused_pair(alloc, replay.explain);
    };
    let bytes = read_input(alloc, input, MOST_BYTES, MOST_READS)?;
    bytes_answer(alloc, replay.explain, given, bytes.as_slice(), secret)
}
