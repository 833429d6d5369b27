// The command `previous`: its arguments, its help, and what its words ask for.
ghost use Rattle.std.specs.Prelude.{◌≡◌, IfErr, IfOk};
ghost use Rattle.clap.specs.Words.{found_of, rows_of};
ghost use Rattle.cj_args.specs.Building.{IsCommand};
ghost use Rattle.cj_args.specs.Command.{IsPrevious, Reads, previous_app};
ghost use Rattle.cj_args.specs.declared.word_fault.WordFault.TheVariants.{Incomplete};

use crate::arguments::{count_arg, lines_arg, option_arg, positional_arg};
use crate::command::{new_command, with_arg, with_folder};
use crate::help::{SCHEDULE, TIME_ZONE, ZONE};
use crate::word_fault::WordFault;
use crate::words::{count, is_given, optional_text, text};
use clap::{ArgMatches, Command};
use std::alloc::{AllocError, Global};

/// The words of the command `previous`, as they were given.
#[derive(Debug, Drop)]
pub struct PreviousRequest<'a> {
    /// The crontab schedule.
    pub schedule: &'a str,
    /// The moment before which times are asked for, which is excluded. Where none is given, a
    /// program with a clock puts its own time here.
    pub before: Option<&'a str>,
    /// How many times are asked for, 1 to 1,000.
    pub count: u16,
    /// `UTC`, or the POSIX rule of the zone; UTC where neither a rule nor a name is given.
    pub zone: Option<&'a str>,
    /// The name of the zone, which is looked up in the folder.
    pub time_zone: Option<&'a str>,
    /// How the answer is printed: `lines` or `json`.
    pub output: &'a str,
    /// The folder with compiled zone files.
    pub folder: Option<&'a str>,
    /// Whether a refusal is explained.
    pub explain: bool,
}

// The start of its search.
const BEFORE: &str =
    "Print times before this: a time (2024-01-01T00:00:00Z or 2024-01-01T01:00:00+01:00), a date (2024-01-01), or a distance from now (-1h, +2d; units s, m, h, d, w). Without it, now";

// After its options.
const PREVIOUS: &str = "Examples:
  cronsim previous '30 2 * * *' --before 2024-04-01T12:00:00Z --count 2 --zone CET-1CEST,M3.5.0,M10.5.0/3
  cronsim previous '0 3 * * mon-fri' --time-zone Europe/Berlin

It prints none where no time within 3,000 days before is due.

Exit status:
  0  the times are printed
  1  the format, the schedule, the time or the zone is refused: standard error says which, --explain why
  2  the command line is wrong
  3  writing failed, or memory ran out";

/// The command with its arguments.
pub(crate) fn previous_command<'a>(alloc: Global) -> Result<Command<'a>, AllocError>
    ensures { IfOk result (IsCommand previous_app) }
{
    let command = new_command(
        alloc,
        "previous",
        "Print the last due times of a schedule before a moment, the latest first",
        PREVIOUS,
    );
    let command = with_arg(
        Ok(command),
        positional_arg(alloc, "schedule", "SCHEDULE", SCHEDULE),
    );
    let command = with_arg(command, option_arg(alloc, "before", "TIME", BEFORE));
    let command = with_arg(command, count_arg(alloc, "1"));
    let command = with_arg(command, option_arg(alloc, "zone", "RULE", ZONE));
    let command = with_arg(command, option_arg(alloc, "time-zone", "NAME", TIME_ZONE));
    let command = with_arg(command, lines_arg(alloc));
    with_folder(alloc, command)
}

/// What its words ask for.
pub(crate) fn previous_request<'a>(found: &ArgMatches<'a>) -> Result<PreviousRequest<'a>, WordFault>
    ensures reads { Reads (IsPrevious (rows_of (found_of found.now))) result }
    ensures refused { IfErr result (λ e. e ≡ Incomplete) }
{
    let schedule = text(found, "schedule")?;
    let count = count(text(found, "count")?)?;
    let output = text(found, "output")?;
    Ok(PreviousRequest {
        schedule,
        before: optional_text(found, "before"),
        count,
        zone: optional_text(found, "zone"),
        time_zone: optional_text(found, "time-zone"),
        output,
        folder: optional_text(found, "zoneinfo"),
        explain: is_given(found, "explain"),
    })
}
