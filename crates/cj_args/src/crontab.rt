// The command `crontab`: its arguments, its help, and what its words ask for.
ghost use Rattle.std.specs.Prelude.{IfOk};
ghost use Rattle.clap.specs.Words.{found_of, rows_of};
ghost use Rattle.cj_args.specs.Building.{IsCommand};
ghost use Rattle.cj_args.specs.Command.{IsCrontab, Reads, crontab_app, made_app};

use crate::arguments::{flag_arg, namespace_arg, option_arg, output_arg};
use crate::command::{file_command, with_arg, with_zones};
use crate::request::ZoneWords;
use crate::word_fault::WordFault;
use crate::words::{is_given, optional_text, text, zone_words};
use clap::{ArgMatches, Command};
use std::alloc::{AllocError, Global};

/// The words of the command `crontab`, as they were given.
#[derive(Debug, Drop)]
pub struct CrontabRequest<'a> {
    /// The name of the file with the crontab; `-` is standard input.
    pub file: &'a str,
    /// Whether a user stands before each command, as in `/etc/crontab`.
    pub system: bool,
    /// The image of the CronJobs that are printed.
    pub image: Option<&'a str>,
    /// The shell and its options; those of the crontab where none is given.
    pub shell: Option<&'a str>,
    /// The namespace of the CronJobs that are printed; none is written where none is given.
    pub namespace: Option<&'a str>,
    /// The name of the zone by whose clock cron goes where the crontab names none.
    pub time_zone: Option<&'a str>,
    /// The moment from which the clocks of zones are looked at. Where none is given, a program with
    /// a clock puts its own time here.
    pub moment: Option<&'a str>,
    /// How the answer is printed: `lines`, `json` or `yaml`.
    pub output: &'a str,
    /// The zones that the crontab may name.
    pub zones: ZoneWords<'a>,
    /// Whether a refusal is explained.
    pub explain: bool,
}

// Its file.
const CRONTAB: &str = "File with a crontab, as crontab -l prints it; - reads standard input";

// Whether it is the system's.
const SYSTEM: &str =
    "The crontab is one of the system, as /etc/crontab and the files of /etc/cron.d: with a user before each command";

// The image of its CronJobs.
const IMAGE: &str = "Image that the CronJobs of -o yaml run, which has the commands: debian:12";

// Their shell.
const SHELL: &str =
    "Shell of the CronJobs of -o yaml, with its options. Without it, SHELL of the crontab with -c, or /bin/sh -c";

// Their namespace.
const NAMESPACE: &str = "Namespace of the CronJobs of -o yaml. Without it, none is written";

// The zone of its machine.
const ZONE: &str =
    "Name of the time zone of cron's machine: Europe/Berlin. CRON_TZ in the crontab takes precedence";

// From when on its clock is looked at.
const LOOK: &str =
    "Show where cron and a CronJob differ when a clock goes forward or back in the 366 days after this: a time (2024-01-01T00:00:00Z or 2024-01-01T01:00:00+01:00), a date (2024-01-01), or a distance from now (-1h, +2d; units s, m, h, d, w). Without it, now";

// How the answer is printed.
const FORMS: &str =
    "Output format: lines; json for one JSON value with the same content; yaml for the CronJobs, as kubectl apply takes them";

// After its options.
const AFTER: &str = "Examples:
  crontab -l | cronsim crontab - --time-zone Europe/Berlin
  cronsim crontab --system /etc/crontab
  crontab -l | cronsim crontab - -o yaml --image debian:12 | cronsim check -

What it prints:
  line N: SENTENCE: COMMAND       when the command is started, by the clock of its zone
  line N: NAME=VALUE              a variable for the lines below
  line N: When the machine starts: COMMAND   @reboot, for which there is no CronJob
  line N: refused: ..             what is wrong with the line, and what to do
  line N: note: ..                where a CronJob would do otherwise than cron
  note: ..                        what holds of all lines
  N cron jobs, M lines refused    last, how many there are

What -o yaml writes:
  a CronJob for each command, named after the command's file, with its line in a comment
  the variables of the lines above, but for those that are for cron alone
  CRON_TZ or --time-zone as spec.timeZone; Sunday as 0
  concurrencyPolicy Allow, restartPolicy Never and backoffLimit 0, since cron starts a command whether or not it still runs, and once
  the input behind % as a here-document; $( and $$ with one $ more, which Kubernetes takes away again

Exit status:
  0  no line is refused
  1  a line is refused, as standard output says, or with -o yaml standard error; or the format, the image, the namespace, the time or a zone is refused: standard error says which, --explain why
  2  the command line is wrong
  3  reading or writing failed, or memory ran out";

// The command with the options on the CronJobs that it prints.
fn made_command<'a>(alloc: Global) -> Result<Command<'a>, AllocError>
    ensures { IfOk result (IsCommand made_app) }
{
    let command = file_command(
        alloc,
        "crontab",
        "Say what each line of a crontab does, and print its CronJobs",
        AFTER,
        CRONTAB,
    );
    let command = with_arg(command, flag_arg(alloc, "system", SYSTEM));
    let command = with_arg(command, option_arg(alloc, "image", "IMAGE", IMAGE));
    let command = with_arg(command, option_arg(alloc, "shell", "SHELL", SHELL));
    with_arg(command, namespace_arg(alloc, NAMESPACE))
}

/// The command with its arguments.
pub(crate) fn crontab_command<'a>(alloc: Global) -> Result<Command<'a>, AllocError>
    ensures { IfOk result (IsCommand crontab_app) }
{
    let command = made_command(alloc);
    let command = with_arg(command, option_arg(alloc, "time-zone", "NAME", ZONE));
    let command = with_arg(command, option_arg(alloc, "now", "TIME", LOOK));
    let command = with_arg(command, output_arg(alloc, "lines", FORMS));
    with_zones(alloc, command)
}

/// What its words ask for.
pub(crate) fn crontab_request<'a>(
    alloc: Global,
    found: &ArgMatches<'a>,
) -> Result<CrontabRequest<'a>, WordFault>
    ensures { Reads (IsCrontab (rows_of (found_of found.now))) result }
{
    let file = text(found, "file")?;
    let output = text(found, "output")?;
    let system = is_given(found, "system");
    let explain = is_given(found, "explain");
    Ok(CrontabRequest {
        file,
        system,
        image: optional_text(found, "image"),
        shell: optional_text(found, "shell"),
        namespace: optional_text(found, "namespace"),
        time_zone: optional_text(found, "time-zone"),
        moment: optional_text(found, "now"),
        output,
        zones: zone_words(alloc, found)?,
        explain,
    })
}
