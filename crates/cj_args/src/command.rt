// The commands, each with its arguments, and the program's command line.
ghost use Rattle.std.specs.Prelude.{◌≡◌, IfOk};
ghost use Rattle.clap.specs.Words.{App, Rule, app_of, new_app, with_rule, with_subcommand};
ghost use Rattle.cj_args.specs.Building.{IsArg, IsCommand, bare_app};
ghost use Rattle.cj_args.specs.Command.{acting_app, asked_app, audit_app, check_app, chosen_app, clustered_app, control_app, cronsim_app, deciding_app, describe_app, file_rule, input_rule, made_of_app, next_app, plan_app, reading_app, replay_app, reported_app, run_app, upcoming_app, why_app, with_folder, with_zones};

use crate::arguments::{
    all_arg, count_arg, crons_arg, explain_arg, files_arg, flag_arg, in_file_arg, input_arg,
    inputs_arg, length_arg, lines_arg, namespace_arg, option_arg, output_arg, peaks_arg,
    positional_arg, required_arg, selector_arg, usual_arg, workers_arg, zones_arg,
};
use crate::clocks::with_clock;
use crate::crontab::crontab_command;
use crate::help;
use crate::previous::previous_command;
use crate::report::report_command;
use crate::scenario::scenario_command;
use clap::{Arg, Command};
use std::alloc::{AllocError, Global};

/// The version of the program.
pub const VERSION: &str = "0.2.0";

/// A command with no arguments, and what help says of it.
pub(crate) fn new_command<'a>(
    alloc: Global,
    name: &'a str,
    about: &'a str,
    after: &'a str,
) -> Command<'a>
    ensures { IsCommand (new_app name.entry.now) result }
{
    Command::new(alloc, name).about(about).after_help(after)
}

/// The command with one more argument, where it could be made.
pub(crate) fn with_arg<'a>(
    command: Result<Command<'a>, AllocError>,
    arg: Arg<'a>,
) -> Result<Command<'a>, AllocError>
    ensures { (a : App) (r : Rule) → IfOk command.entry (IsCommand a) → IsArg r arg.entry
        → IfOk result (IsCommand (with_rule a r)) }
{
    command?.arg(arg)
}

// The command with another below it, where both could be made.
fn with_command<'a>(
    command: Result<Command<'a>, AllocError>,
    below: Result<Command<'a>, AllocError>,
) -> Result<Command<'a>, AllocError>
    ensures { (a b : App) → IfOk command.entry (IsCommand a) → IfOk below.entry (IsCommand b)
        → IfOk result (IsCommand (with_subcommand a b.top)) }
{
    command?.subcommand(below?)
}

/// The command with the folder of zone files, and the flag that every command has.
pub(crate) fn with_folder<'a>(
    alloc: Global,
    command: Result<Command<'a>, AllocError>,
) -> Result<Command<'a>, AllocError>
    ensures { (a : App) → IfOk command.entry (IsCommand a)
        → IfOk result (IsCommand (with_folder a)) }
{
    let command = with_arg(command, option_arg(alloc, "zoneinfo", "DIR", help::FOLDER));
    with_arg(command, explain_arg(alloc))
}

/// The command with the options of those whose input may name zones.
pub(crate) fn with_zones<'a>(
    alloc: Global,
    command: Result<Command<'a>, AllocError>,
) -> Result<Command<'a>, AllocError>
    ensures { (a : App) → IfOk command.entry (IsCommand a)
        → IfOk result (IsCommand (with_zones a)) }
{
    with_folder(alloc, with_arg(command, zones_arg(alloc)))
}

/// A command that reads a file, with no other argument yet.
pub(crate) fn file_command<'a>(
    alloc: Global,
    name: &'a str,
    about: &'a str,
    after: &'a str,
    file: &'a str,
) -> Result<Command<'a>, AllocError>
    ensures { IfOk result (IsCommand (with_rule (new_app name.entry.now) file_rule)) }
{
    let command = new_command(alloc, name, about, after);
    with_arg(Ok(command), positional_arg(alloc, "file", "FILE", file))
}

/// A command on a cluster, with no other argument than its file yet.
pub(crate) fn cluster_command<'a>(
    alloc: Global,
    name: &'a str,
    about: &'a str,
    after: &'a str,
    file: &'a str,
) -> Result<Command<'a>, AllocError>
    ensures { IfOk result (IsCommand (with_rule (new_app name.entry.now) input_rule)) }
{
    let command = new_command(alloc, name, about, after);
    with_arg(Ok(command), input_arg(alloc, file))
}

fn next_command<'a>(alloc: Global) -> Result<Command<'a>, AllocError>
    ensures { IfOk result (IsCommand next_app) }
{
    let command = new_command(
        alloc,
        "next",
        "Print the next due times of a schedule, one UTC time a line",
        help::NEXT,
    );
    let command = with_arg(
        Ok(command),
        positional_arg(alloc, "schedule", "SCHEDULE", help::SCHEDULE),
    );
    let command = with_arg(command, required_arg(alloc, "after", "TIME", help::AFTER));
    let command = with_arg(command, count_arg(alloc, "1"));
    let command = with_arg(command, option_arg(alloc, "zone", "RULE", help::ZONE));
    let command = with_arg(
        command,
        option_arg(alloc, "time-zone", "NAME", help::TIME_ZONE),
    );
    let command = with_arg(command, lines_arg(alloc));
    with_folder(alloc, command)
}

fn check_command<'a>(alloc: Global) -> Result<Command<'a>, AllocError>
    ensures { IfOk result (IsCommand check_app) }
{
    let command = new_command(
        alloc,
        "check",
        "Check the manifest of a CronJob or a Job, and name every fault in it",
        help::CHECK,
    );
    let command = with_arg(Ok(command), files_arg(alloc, help::MANIFESTS));
    let command = with_arg(command, flag_arg(alloc, "strict", help::STRICT));
    let command = with_arg(command, option_arg(alloc, "now", "TIME", help::LOOK));
    let command = with_arg(command, lines_arg(alloc));
    with_zones(alloc, command)
}

fn plan_command<'a>(alloc: Global) -> Result<Command<'a>, AllocError>
    ensures { IfOk result (IsCommand plan_app) }
{
    let command = file_command(
        alloc,
        "plan",
        "Print what the next sync of a CronJob does",
        help::PLAN,
        help::SCENARIO,
    );
    let command = with_arg(command, required_arg(alloc, "now", "TIME", help::MOMENT));
    let command = with_arg(command, lines_arg(alloc));
    with_zones(alloc, command)
}

fn replay_command<'a>(alloc: Global) -> Result<Command<'a>, AllocError>
    ensures { IfOk result (IsCommand replay_app) }
{
    let command = file_command(
        alloc,
        "replay",
        "Carry out the steps of a script in an empty world, and print every answer",
        help::REPLAY,
        help::SCRIPT,
    );
    let command = with_arg(command, lines_arg(alloc));
    with_zones(alloc, command)
}

fn run_command<'a>(alloc: Global) -> Result<Command<'a>, AllocError>
    ensures { IfOk result (IsCommand run_app) }
{
    let command = file_command(
        alloc,
        "run",
        "Run the whole controller on a simulated clock, and print the result",
        help::RUN,
        help::COURSE,
    );
    let command = with_arg(command, workers_arg(alloc, "2", help::WORKERS));
    let command = with_arg(command, flag_arg(alloc, "timeline", help::TIMELINE));
    let command = with_arg(command, flag_arg(alloc, "history", help::HISTORY));
    let command = with_arg(command, flag_arg(alloc, "svg", help::SVG));
    let command = with_arg(command, output_arg(alloc, "lines", help::RAN));
    let command = with_arg(command, crons_arg(alloc));
    let command = with_arg(command, namespace_arg(alloc, help::EVENTS));
    with_zones(alloc, with_clock(alloc, command))
}

fn why_command<'a>(alloc: Global) -> Result<Command<'a>, AllocError>
    ensures { IfOk result (IsCommand why_app) }
{
    let command = cluster_command(
        alloc,
        "why",
        "Say what each CronJob of a cluster missed, and what its next sync does",
        help::WHY,
        help::CLUSTER,
    );
    let command = with_arg(command, option_arg(alloc, "now", "TIME", help::NOW));
    let command = with_arg(command, crons_arg(alloc));
    let command = with_arg(command, namespace_arg(alloc, help::NAMESPACE));
    let command = with_arg(command, all_arg(alloc));
    let command = with_arg(command, output_arg(alloc, "table", help::OUTPUT));
    let command = with_arg(command, flag_arg(alloc, "problems", help::PROBLEMS));
    with_zones(alloc, with_clock(alloc, command))
}

fn audit_command<'a>(alloc: Global) -> Result<Command<'a>, AllocError>
    ensures { IfOk result (IsCommand audit_app) }
{
    let command = cluster_command(
        alloc,
        "audit",
        "Find duplicate, overlapping, early and undue Jobs in a cluster, and due times without a Job",
        help::AUDIT,
        help::CLUSTER,
    );
    let command = with_arg(command, option_arg(alloc, "since", "TIME", help::AUDITED));
    let command = with_arg(command, option_arg(alloc, "now", "TIME", help::AUDIT_NOW));
    let command = with_arg(command, crons_arg(alloc));
    let command = with_arg(command, namespace_arg(alloc, help::NAMESPACE));
    let command = with_arg(command, all_arg(alloc));
    let command = with_arg(command, lines_arg(alloc));
    let command = with_arg(command, flag_arg(alloc, "svg", help::DRAWN));
    with_zones(alloc, with_clock(alloc, command))
}

fn upcoming_command<'a>(alloc: Global) -> Result<Command<'a>, AllocError>
    ensures { IfOk result (IsCommand upcoming_app) }
{
    let command = new_command(
        alloc,
        "upcoming",
        "Print what starts next, a line a CronJob, and which minutes are the fullest",
        help::UPCOMING,
    );
    let command = with_arg(Ok(command), inputs_arg(alloc, help::LISTS));
    let command = with_arg(command, option_arg(alloc, "from", "TIME", help::FROM));
    let command = with_arg(command, length_arg(alloc));
    let command = with_arg(command, option_arg(alloc, "until", "TIME", help::UNTIL));
    let command = with_arg(command, crons_arg(alloc));
    let command = with_arg(command, namespace_arg(alloc, help::NAMESPACE));
    let command = with_arg(command, all_arg(alloc));
    let command = with_arg(command, flag_arg(alloc, "minutes", help::MINUTES));
    let command = with_arg(command, peaks_arg(alloc));
    let command = with_arg(command, lines_arg(alloc));
    let command = with_arg(command, flag_arg(alloc, "svg", help::DRAWN));
    with_zones(alloc, with_clock(alloc, command))
}

fn describe_command<'a>(alloc: Global) -> Result<Command<'a>, AllocError>
    ensures { IfOk result (IsCommand describe_app) }
{
    let command = new_command(
        alloc,
        "describe",
        "Put a schedule into a sentence, and print its next times; or those of a file's CronJobs",
        help::DESCRIBE,
    );
    let command = with_arg(
        Ok(command),
        positional_arg(alloc, "schedule", "SCHEDULE", help::SCHEDULE_OR_FILE),
    );
    let command = with_arg(command, in_file_arg(alloc));
    let command = with_arg(command, option_arg(alloc, "after", "TIME", help::SINCE));
    let command = with_arg(command, count_arg(alloc, "5"));
    let command = with_arg(command, option_arg(alloc, "zone", "RULE", help::ZONE));
    let command = with_arg(
        command,
        option_arg(alloc, "time-zone", "NAME", help::TIME_ZONE),
    );
    let command = with_arg(command, lines_arg(alloc));
    with_folder(alloc, command)
}

// `control` with the options on which CronJobs it looks after, and on how many at once.
fn chosen_command<'a>(alloc: Global) -> Result<Command<'a>, AllocError>
    ensures { IfOk result (IsCommand chosen_app) }
{
    let command = new_command(
        alloc,
        "control",
        "Run the CronJobs of a cluster: requests go out line by line, and answers come in",
        help::CONTROL,
    );
    let command = with_arg(Ok(command), workers_arg(alloc, "8", help::SYNCS));
    let command = with_arg(command, namespace_arg(alloc, help::NAMESPACE));
    let command = with_arg(command, selector_arg(alloc));
    let command = with_arg(
        command,
        flag_arg(alloc, "only-annotated", help::ONLY_ANNOTATED),
    );
    with_arg(command, flag_arg(alloc, "dry-run", help::DRY_RUN))
}

fn control_command<'a>(alloc: Global) -> Result<Command<'a>, AllocError>
    ensures { IfOk result (IsCommand control_app) }
{
    let command = chosen_command(alloc);
    let command = with_arg(
        command,
        usual_arg(
            alloc,
            "api-version",
            "VERSION",
            "batch/v1",
            help::API_VERSION,
        ),
    );
    let command = with_arg(command, option_arg(alloc, "replica", "NAME", help::REPLICA));
    let command = with_arg(
        command,
        usual_arg(alloc, "log", "FORMAT", "text", help::LOG),
    );
    let command = with_arg(
        command,
        option_arg(alloc, "transcript", "FILE", help::TRANSCRIPT),
    );
    let command = with_arg(command, option_arg(alloc, "check", "FILE", help::REPEATED));
    with_folder(alloc, command)
}

// The program's command line with no command yet.
fn bare_command<'a>(alloc: Global) -> Command<'a>
    ensures { IsCommand bare_app result }
{
    Command::new(alloc, "cronsim")
        .about("A CronJob controller that is proved: schedules, plans and runs")
        .version(VERSION)
        .subcommand_required(true)
}

// The commands on a schedule and on a manifest.
fn reading_command<'a>(alloc: Global) -> Result<Command<'a>, AllocError>
    ensures { IfOk result (IsCommand reading_app) }
{
    let command = with_command(Ok(bare_command(alloc)), next_command(alloc));
    with_command(command, check_command(alloc))
}

// Those and the command on a decision.
fn deciding_command<'a>(alloc: Global) -> Result<Command<'a>, AllocError>
    ensures { IfOk result (IsCommand deciding_app) }
{
    with_command(reading_command(alloc), plan_command(alloc))
}

// Those and the commands that run the controller.
fn acting_command<'a>(alloc: Global) -> Result<Command<'a>, AllocError>
    ensures { IfOk result (IsCommand acting_app) }
{
    let command = with_command(deciding_command(alloc), replay_command(alloc));
    with_command(command, run_command(alloc))
}

// Those and the commands on a cluster.
fn clustered_command<'a>(alloc: Global) -> Result<Command<'a>, AllocError>
    ensures { IfOk result (IsCommand clustered_app) }
{
    let command = with_command(acting_command(alloc), why_command(alloc));
    with_command(command, audit_command(alloc))
}

// Those and the commands on the times to come.
fn asked_command<'a>(alloc: Global) -> Result<Command<'a>, AllocError>
    ensures { IfOk result (IsCommand asked_app) }
{
    let command = with_command(clustered_command(alloc), upcoming_command(alloc));
    let command = with_command(command, describe_command(alloc));
    with_command(command, previous_command(alloc))
}

// Those and the commands that make a page or a scenario of a cluster.
fn made_command<'a>(alloc: Global) -> Result<Command<'a>, AllocError>
    ensures { IfOk result (IsCommand made_of_app) }
{
    let command = with_command(asked_command(alloc), report_command(alloc));
    with_command(command, scenario_command(alloc))
}

// Those and the command that reads a crontab.
fn reported_command<'a>(alloc: Global) -> Result<Command<'a>, AllocError>
    ensures { IfOk result (IsCommand reported_app) }
{
    with_command(made_command(alloc), crontab_command(alloc))
}

/// The program's command line: those, and the controller of a cluster.
pub fn cronsim_command<'a>(alloc: Global) -> Result<Command<'a>, AllocError>
    ensures { IfOk result (λ c. app_of c ≡ cronsim_app) }
{
    with_command(reported_command(alloc), control_command(alloc))
}
