// The command `report`: its arguments, its help, and what its words ask for.
ghost use Rattle.std.specs.Prelude.{IfOk};
ghost use Rattle.clap.specs.Words.{found_of, rows_of};
ghost use Rattle.cj_args.specs.Building.{IsCommand};
ghost use Rattle.cj_args.specs.Command.{IsReport, Reads, report_app};

use crate::arguments::{all_arg, crons_arg, inputs_arg, namespace_arg, option_arg};
use crate::command::{new_command, with_arg, with_zones};
use crate::help::{NAMESPACE, NOW};
use crate::request::ZoneWords;
use crate::word_fault::WordFault;
use crate::words::{is_given, optional_text, texts, zone_words};
use clap::{ArgMatches, Command};
use std::alloc::{AllocError, Global};

/// The words of the command `report`, as they were given.
#[derive(Debug, Drop)]
pub struct ReportRequest<'a> {
    /// The names of the files with a cluster's objects; `-` is standard input. There is at least
    /// one.
    pub files: Vec<&'a str>,
    /// From when on the page has findings and Jobs; all of them where none is given.
    pub since: Option<&'a str>,
    /// The moment that the page looks from. Where none is given, a program with a clock puts its
    /// own time here.
    pub moment: Option<&'a str>,
    /// The CronJobs that are asked about, each as NAMESPACE/NAME or as NAME; all of them where none
    /// is given.
    pub crons: Vec<&'a str>,
    /// The namespace of those that are asked about; all of them where none is given.
    pub namespace: Option<&'a str>,
    /// The zones that the CronJobs may name.
    pub zones: ZoneWords<'a>,
    /// Whether a refusal is explained.
    pub explain: bool,
}

// Its files.
const CLUSTERS: &str =
    "File with the output of `kubectl get cronjobs,jobs -o json`, or of -o yaml; - reads standard input. Several files are read as one cluster";

// The start of its findings and Jobs.
const SINCE: &str =
    "Show findings and Jobs from this moment on: as --now, where a distance counts from that moment: -12h. Without it, all of them";

// After its options.
const REPORT: &str = "Examples:
  kubectl get cronjobs,jobs -A -o json | cronsim report - >report.html
  cronsim report docs/examples/doubles.json --now 2024-01-01T03:00:00Z --since -12h >report.html
  kubectl get cronjobs,jobs -A -o json | cronsim report - -n prod --cron backup >backup.html

What the page has:
  when it is of, of which files, and which items were passed over
  the findings of audit, each with its sentence, and what to do
  a table of the CronJobs: schedule, zone, policy, last and next time, missed times, and why
  the Jobs over time, as audit --svg draws them
  what starts in the day to come, as upcoming --svg draws it
  the local times that a clock skips or shows twice in the year to come, and that a schedule names

The page needs nothing from elsewhere, and runs no script but one that sorts its tables.

Exit status:
  0  the page is printed, and every item could be read
  1  an item is refused, as the page says; or a time, a zone, a CronJob or the input is refused: standard error says which, --explain why
  2  the command line is wrong
  3  reading or writing failed, or memory ran out";

/// The command with its arguments.
pub(crate) fn report_command<'a>(alloc: Global) -> Result<Command<'a>, AllocError>
    ensures { IfOk result (IsCommand report_app) }
{
    let command = new_command(
        alloc,
        "report",
        "Print a page on a cluster, as HTML: findings, CronJobs, Jobs, and what comes",
        REPORT,
    );
    let command = with_arg(Ok(command), inputs_arg(alloc, CLUSTERS));
    let command = with_arg(command, option_arg(alloc, "since", "TIME", SINCE));
    let command = with_arg(command, option_arg(alloc, "now", "TIME", NOW));
    let command = with_arg(command, crons_arg(alloc));
    let command = with_arg(command, namespace_arg(alloc, NAMESPACE));
    let command = with_arg(command, all_arg(alloc));
    with_zones(alloc, command)
}

/// What its words ask for.
pub(crate) fn report_request<'a>(
    alloc: Global,
    found: &ArgMatches<'a>,
) -> Result<ReportRequest<'a>, WordFault>
    ensures { Reads (IsReport (rows_of (found_of found.now))) result }
{
    let since = optional_text(found, "since");
    let moment = optional_text(found, "now");
    let namespace = optional_text(found, "namespace");
    let explain = is_given(found, "explain");
    Ok(ReportRequest {
        files: texts(alloc, found, "file")?,
        since,
        moment,
        crons: texts(alloc, found, "cron")?,
        namespace,
        zones: zone_words(alloc, found)?,
        explain,
    })
}
