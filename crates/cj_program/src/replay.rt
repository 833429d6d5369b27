// Running a script: in lines that are written as it goes, or as one value.
ghost use Rattle.std.specs.Prelude.{◌≡◌, ◌≢◌, List, ℕ, Option, [], codes, false, true};
ghost use Rattle.std.specs.Io.KnownBytes.{Appends};
ghost use Rattle.cj_io.specs.declared.exit_status.ExitStatus.TheVariants as Status;
ghost use Rattle.cj_io.specs.Writing.{AppendsSome};
ghost use Rattle.cj_answers.specs.Given.{IsReadUnder};
ghost use Rattle.cj_answers.specs.Outcome.{Outcome, status_of};
ghost use Rattle.cj_program.specs.Replay.{EndsBadly, EndsWell, IsRead, IsReplayLines, IsReplayOutcome};
ghost use Rattle.cj_program.specs.Writing.{FailsLines, FailsReplay};

use crate::forms::formed;
use crate::played::replay_answer;
use crate::serving::give_answer;
use cj_answers::{given_for, is_form, is_json, refused_form, refused_pair};
use cj_args::ReplayRequest;
use cj_check::refused_scene;
use cj_io::{
    ExitStatus, Failure, GivenZones, MOST_BYTES, MOST_READS, ZoneFile, read_input, tell_failure,
};
use cj_replay::replay;
use cj_scenario::Form;
use cj_script::{Script, read_script};
use cj_world::Secret;
use std::alloc::Global;
use std::io::{Read, Write};

// Ends a replay that was printed, by whether a step found the history full.
fn end_of<E: Write>(is_full: bool, err: &mut E) -> ExitStatus
    ensures well { result ≢ Status.Failed → (result ≡ Status.Success) × (is_full ≡ false)
        × Appends (E.contents err.old) (E.contents err.new) [] }
    ensures full { result ≡ Status.Failed → (is_full ≡ true)
        × AppendsSome (E.contents err.old) (E.contents err.new) (codes "cronsim: history full\n") }
{
    if is_full {
        tell_failure(Failure::HistoryFull, err)
    } else {
        ExitStatus::Success
    }
}

fn run_script<W: Write, E: Write>(
    alloc: Global,
    script: &Script,
    secret: Secret,
    out: &mut W,
    err: &mut E,
) -> ExitStatus
    ensures well { result ≢ Status.Failed → (result ≡ Status.Success)
        × EndsWell script.now (W.contents out.old) (W.contents out.new) (E.contents err.old)
        (E.contents err.new) }
    ensures badly { result ≡ Status.Failed → EndsBadly script.now (W.contents out.old)
        (W.contents out.new) (E.contents err.old) (E.contents err.new) }
{
    match replay(alloc, script, secret, out) {
        Ok(is_full) => end_of(is_full, err),
        Err(failure) => tell_failure(failure, err),
    }
}

// Runs the script that the bytes say, under the zones that are given.
fn serve_bytes<W: Write, E: Write>(
    alloc: Global,
    replay: &ReplayRequest<'_>,
    given: GivenZones<'_>,
    bytes: &[u8],
    secret: Secret,
    out: &mut W,
    err: &mut E,
) -> ExitStatus
    ensures served { result ≢ Status.Failed → (files : List ZoneFile) (input : Option (List ℕ)) →
        IsReadUnder replay.now.zones files given.entry → IsRead input bytes.now →
        (o : Outcome) × IsReplayLines replay.now files input o × (result ≡ status_of o.ending)
        × Appends (W.contents out.old) (W.contents out.new) o.printed
        × Appends (E.contents err.old) (E.contents err.new) o.said }
    ensures failed { result ≡ Status.Failed → (files : List ZoneFile) (input : Option (List ℕ)) →
        IsReadUnder replay.now.zones files given.entry → IsRead input bytes.now →
        FailsLines replay.now files input (W.contents out.old) (W.contents out.new)
        (E.contents err.old) (E.contents err.new) }
{
    match read_script(alloc, given, bytes) {
        Ok(script) => run_script(alloc, &script, secret, out, err),
        Err(fault) => give_answer(
            refused_scene(alloc, replay.explain, Form::Script, bytes, fault),
            out,
            err,
        ),
    }
}

// Runs the script of the input under the zones that are given.
fn serve_given<R: Read, W: Write, E: Write>(
    alloc: Global,
    replay: &ReplayRequest<'_>,
    given: GivenZones<'_>,
    input: &mut R,
    secret: Secret,
    out: &mut W,
    err: &mut E,
) -> ExitStatus
    ensures served { result ≢ Status.Failed → (files : List ZoneFile) →
        IsReadUnder replay.now.zones files given.entry →
        (o : Outcome) × IsReplayLines replay.now files (R.remaining input.old) o
        × (result ≡ status_of o.ending)
        × Appends (W.contents out.old) (W.contents out.new) o.printed
        × Appends (E.contents err.old) (E.contents err.new) o.said }
    ensures failed { result ≡ Status.Failed → (files : List ZoneFile) →
        IsReadUnder replay.now.zones files given.entry →
        FailsLines replay.now files (R.remaining input.old) (W.contents out.old)
        (W.contents out.new) (E.contents err.old) (E.contents err.new) }
{
    match read_input(alloc, input, MOST_BYTES, MOST_READS) {
        Ok(bytes) => serve_bytes(alloc, replay, given, bytes.as_slice(), secret, out, err),
        Err(failure) => tell_failure(failure, err),
    }
}

// Replays in lines: the zones are looked at first, then all of the input is read.
// `Failed` also means that a step found the history full.
fn serve_lines<R: Read, W: Write, E: Write>(
    alloc: Global,
    replay: &ReplayRequest<'_>,
    files: &[ZoneFile],
    input: &mut R,
    secret: Secret,
    out: &mut W,
    err: &mut E,
) -> ExitStatus
    ensures served { result ≢ Status.Failed → (o : Outcome)
        × IsReplayLines replay.now files.now (R.remaining input.old) o
        × (result ≡ status_of o.ending)
        × Appends (W.contents out.old) (W.contents out.new) o.printed
        × Appends (E.contents err.old) (E.contents err.new) o.said }
    ensures failed { result ≡ Status.Failed → FailsLines replay.now files.now
        (R.remaining input.old) (W.contents out.old) (W.contents out.new) (E.contents err.old)
        (E.contents err.new) }
{
    match given_for(alloc, &replay.zones, files) {
        Ok(Some(given)) => serve_given(alloc, replay, given, input, secret, out, err),
        Ok(None) => give_answer(refused_pair(alloc, replay.explain), out, err),
        Err(failure) => tell_failure(failure, err),
    }
}

/// Serves the command `replay`: the form is looked at first, then the zones, then all of the input
/// is read. `Failed` also means that a step found the history full. One value is written whole, or
/// nothing of it is.
pub(crate) fn serve_replay<R: Read, W: Write, E: Write>(
    alloc: Global,
    replay: &ReplayRequest<'_>,
    files: &[ZoneFile],
    input: &mut R,
    secret: Secret,
    out: &mut W,
    err: &mut E,
) -> ExitStatus
    ensures served { result ≢ Status.Failed → (o : Outcome)
        × IsReplayOutcome replay.now files.now (R.remaining input.old) o
        × (result ≡ status_of o.ending)
        × Appends (W.contents out.old) (W.contents out.new) o.printed
        × Appends (E.contents err.old) (E.contents err.new) o.said }
    ensures failed { result ≡ Status.Failed → FailsReplay replay.now files.now
        (R.remaining input.old) (W.contents out.old) (W.contents out.new) (E.contents err.old)
        (E.contents err.new) }
{
    if is_json(replay.output) {
        let answer = replay_answer(alloc, replay, files, input, secret);
        give_answer(formed(alloc, replay.output, answer), out, err)
    } else if is_form(replay.output) {
        serve_lines(alloc, replay, files, input, secret, out, err)
    } else {
        give_answer(refused_form(alloc, replay.explain), out, err)
    }
}
