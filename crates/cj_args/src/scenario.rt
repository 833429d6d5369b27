// The command `scenario`: its arguments, its help, and what its words ask for.
ghost use Rattle.std.specs.Prelude.{IfOk};
ghost use Rattle.clap.specs.Words.{found_of, rows_of};
ghost use Rattle.cj_args.specs.Building.{IsCommand};
ghost use Rattle.cj_args.specs.Command.{IsScenario, Reads, scenario_app};

use crate::arguments::{crons_arg, length_arg, namespace_arg, option_arg};
use crate::command::{cluster_command, with_arg, with_zones};
use crate::help::{NAMESPACE, UNTIL};
use crate::request::ZoneWords;
use crate::word_fault::WordFault;
use crate::words::{is_given, optional_text, text, texts, zone_words};
use clap::{ArgMatches, Command};
use std::alloc::{AllocError, Global};

/// The words of the command `scenario`, as they were given.
#[derive(Debug, Drop)]
pub struct ScenarioRequest<'a> {
    /// The name of the file with a cluster's objects or with manifests; `-` is standard input.
    pub file: &'a str,
    /// The start of the run. Where none is given, a program with a clock puts its own time here.
    pub from: Option<&'a str>,
    /// How long the run is, as `24h`.
    pub length: &'a str,
    /// The moment at which the run ends; its length counts where none is given.
    pub until: Option<&'a str>,
    /// The CronJobs that are taken over, each as NAMESPACE/NAME or as NAME; all of them where none
    /// is given.
    pub crons: Vec<&'a str>,
    /// The namespace of those that are taken over; all of them where none is given.
    pub namespace: Option<&'a str>,
    /// The zones that the CronJobs may name.
    pub zones: ZoneWords<'a>,
    /// Whether a refusal is explained.
    pub explain: bool,
}

// Its file.
const OBJECTS: &str =
    "File with the output of `kubectl get cronjobs,jobs -o json`, or with manifests; - reads standard input";

// The start of its run.
const START: &str =
    "Start of the run: a time (2024-01-01T00:00:00Z or 2024-01-01T01:00:00+01:00), a date (2024-01-01), or a distance from now (-1h, +2d; units s, m, h, d, w). Without it, now";

// After its options.
const SCENARIO: &str = "Examples:
  kubectl get cronjobs,jobs -A -o json | cronsim scenario - --from -24h > day.json
  cronsim scenario deploy/backup.yaml --from 2024-01-01 --for 7d > week.json

What the scenario has:
  the CronJobs that were there at the start, each with its schedule, zone and policy
  how long each of their Jobs ran, and whether it failed, in the order of their scheduled times
  a clock with a step of a minute

Jobs of a CronJob that ran none take 60 seconds in it. Standard error names those CronJobs, and
those that are left out since they were created later. cronsim run day.json --workers 2 runs it; edit
it before, to see what another policy or a longer Job does.

Exit status:
  0  the scenario is printed, and every item could be read
  1  an item is refused and left out, or the time, the length, a zone, a CronJob or the input is refused: standard error says which, --explain why
  2  the command line is wrong
  3  reading or writing failed, or memory ran out";

/// The command with its arguments.
pub(crate) fn scenario_command<'a>(alloc: Global) -> Result<Command<'a>, AllocError>
    ensures { IfOk result (IsCommand scenario_app) }
{
    let command = cluster_command(
        alloc,
        "scenario",
        "Turn a cluster or manifests into a scenario that run takes, as JSON",
        SCENARIO,
        OBJECTS,
    );
    let command = with_arg(command, option_arg(alloc, "from", "TIME", START));
    let command = with_arg(command, length_arg(alloc));
    let command = with_arg(command, option_arg(alloc, "until", "TIME", UNTIL));
    let command = with_arg(command, crons_arg(alloc));
    let command = with_arg(command, namespace_arg(alloc, NAMESPACE));
    with_zones(alloc, command)
}

/// What its words ask for.
pub(crate) fn scenario_request<'a>(
    alloc: Global,
    found: &ArgMatches<'a>,
) -> Result<ScenarioRequest<'a>, WordFault>
    ensures { Reads (IsScenario (rows_of (found_of found.now))) result }
{
    let file = text(found, "file")?;
    let from = optional_text(found, "from");
    let length = text(found, "for")?;
    let until = optional_text(found, "until");
    let namespace = optional_text(found, "namespace");
    let explain = is_given(found, "explain");
    Ok(ScenarioRequest {
        file,
        from,
        length,
        until,
        crons: texts(alloc, found, "cron")?,
        namespace,
        zones: zone_words(alloc, found)?,
        explain,
    })
}
