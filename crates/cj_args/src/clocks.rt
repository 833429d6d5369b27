// By which zone's clock times are printed: the options, and what the words say of it.
ghost use Rattle.std.specs.Prelude.{IfOk};
ghost use Rattle.clap.specs.Words.{App, found_of, rows_of};
ghost use Rattle.cj_args.specs.Building.{IsCommand};
ghost use Rattle.cj_args.specs.Command.{IsClock, with_clock};

use crate::arguments::{flag_arg, option_arg};
use crate::command::with_arg;
use crate::words::{is_given, optional_text};
use clap::{ArgMatches, Command};
use std::alloc::{AllocError, Global};

/// By which zone's clock times are printed, as the words give it.
#[derive(Debug, Drop)]
pub struct ClockWords<'a> {
    /// The zone: a name, NAME=RULE or a POSIX rule. Where none is given, times are in UTC.
    pub zone: Option<&'a str>,
    /// Whether it is the machine's own zone, unless one is given.
    pub is_local: bool,
}

const SHOWN: &str =
    "Print times by the clock of ZONE, with its offset: a name (Europe/Berlin), a POSIX rule (CET-1CEST,M3.5.0,M10.5.0/3) or NAME=RULE. Without it, in UTC";

const LOCAL: &str = "Print times by this machine's clock, unless --time-zone is given";

/// The command with the options for a clock.
pub(crate) fn with_clock<'a>(
    alloc: Global,
    command: Result<Command<'a>, AllocError>,
) -> Result<Command<'a>, AllocError>
    ensures { (a : App) → IfOk command.entry (IsCommand a)
        → IfOk result (IsCommand (with_clock a)) }
{
    let command = with_arg(command, option_arg(alloc, "time-zone", "ZONE", SHOWN));
    with_arg(command, flag_arg(alloc, "local", LOCAL))
}

/// What the words say of the clock.
pub(crate) fn clock_words<'a>(found: &ArgMatches<'a>) -> ClockWords<'a>
    ensures { IsClock (rows_of (found_of found.now)) result }
{
    ClockWords {
        zone: optional_text(found, "time-zone"),
        is_local: is_given(found, "local"),
    }
}
