// The arguments of the commands.
ghost use Rattle.cj_args.specs.Building.{IsArg, option_rule, positional_rule, required_rule};
ghost use Rattle.cj_args.specs.Command.{all_rule, count_rule, crons_rule, explain_rule, files_rule, flag_rule, in_file_rule, input_rule, inputs_rule, length_rule, lines_rule, namespace_rule, output_rule, peaks_rule, selector_rule, usual_rule, workers_rule, zones_rule};

use crate::help;
use clap::builder::ValueParser;
use clap::{Arg, ArgAction};
use std::alloc::Global;

/// An argument that is known by its place.
pub(crate) fn positional_arg<'a>(
    alloc: Global,
    id: &'a str,
    value: &'a str,
    help: &'a str,
) -> Arg<'a>
    ensures { IsArg (positional_rule id.entry.now) result }
{
    Arg::new(alloc, id)
        .required(true)
        .value_name(value)
        .help(help)
}

/// An option with one value.
pub(crate) fn option_arg<'a>(alloc: Global, id: &'a str, value: &'a str, help: &'a str) -> Arg<'a>
    ensures { IsArg (option_rule id.entry.now) result }
{
    Arg::new(alloc, id).long(id).value_name(value).help(help)
}

/// An option with one value that has to be given.
pub(crate) fn required_arg<'a>(alloc: Global, id: &'a str, value: &'a str, help: &'a str) -> Arg<'a>
    ensures { IsArg (required_rule id.entry.now) result }
{
    option_arg(alloc, id, value, help).required(true)
}

/// How many due times are wanted, and how many where nobody says it.
pub(crate) fn count_arg<'a>(alloc: Global, usual: &'a str) -> Arg<'a>
    ensures { IsArg (count_rule usual.entry.now) result }
{
    option_arg(
        alloc,
        "count",
        "N",
        "How many due times to print, 1 to 1000",
    )
    .value_parser(ValueParser::unsigned(1, 1_000))
    .default_value(usual)
}

/// How many of the fullest minutes are wanted.
pub(crate) fn peaks_arg<'a>(alloc: Global) -> Arg<'a>
    ensures { IsArg peaks_rule result }
{
    option_arg(alloc, "peaks", "N", help::PEAKS)
        .value_parser(ValueParser::unsigned(0, 1_000))
        .default_value("0")
}

/// How long the window is.
pub(crate) fn length_arg<'a>(alloc: Global) -> Arg<'a>
    ensures { IsArg length_rule result }
{
    option_arg(alloc, "for", "LENGTH", help::LENGTH).default_value("24h")
}

/// How many workers there are, or how many syncs may be under way at once, and how many where
/// nobody says it.
pub(crate) fn workers_arg<'a>(alloc: Global, usual: &'a str, help: &'a str) -> Arg<'a>
    ensures { IsArg (workers_rule usual.entry.now) result }
{
    option_arg(alloc, "workers", "N", help)
        .value_parser(ValueParser::unsigned(1, 32))
        .default_value(usual)
}

/// The file of a command on a cluster: standard input where nobody names one.
pub(crate) fn input_arg<'a>(alloc: Global, file: &'a str) -> Arg<'a>
    ensures { IsArg input_rule result }
{
    Arg::new(alloc, "file")
        .value_name("FILE")
        .help(file)
        .default_value("-")
}

/// One such file or more.
pub(crate) fn inputs_arg<'a>(alloc: Global, files: &'a str) -> Arg<'a>
    ensures { IsArg inputs_rule result }
{
    input_arg(alloc, files).num_args(1..)
}

/// An option with one value, and the value that it has where nobody gives one.
pub(crate) fn usual_arg<'a>(
    alloc: Global,
    id: &'a str,
    value: &'a str,
    usual: &'a str,
    help: &'a str,
) -> Arg<'a>
    ensures { IsArg (usual_rule id.entry.now usual.entry.now) result }
{
    option_arg(alloc, id, value, help).default_value(usual)
}

/// The labels of the CronJobs that are looked after.
pub(crate) fn selector_arg<'a>(alloc: Global) -> Arg<'a>
    ensures { IsArg selector_rule result }
{
    option_arg(alloc, "selector", "SELECTOR", help::SELECTOR).short('l')
}

/// The zones that an input may name.
pub(crate) fn zones_arg<'a>(alloc: Global) -> Arg<'a>
    ensures { IsArg zones_rule result }
{
    option_arg(
        alloc,
        "zone",
        "NAME=RULE",
        "A zone that the input may name, with its POSIX rule: Europe/Berlin=CET-1CEST,M3.5.0,M10.5.0/3. Zones of the folder of zone files need none. May be given several times",
    )
    .action(ArgAction::Append)
}

/// The CronJobs that are asked about.
pub(crate) fn crons_arg<'a>(alloc: Global) -> Arg<'a>
    ensures { IsArg crons_rule result }
{
    option_arg(alloc, "cron", "[NAMESPACE/]NAME", help::CRON).action(ArgAction::Append)
}

/// A namespace.
pub(crate) fn namespace_arg<'a>(alloc: Global, help: &'a str) -> Arg<'a>
    ensures { IsArg namespace_rule result }
{
    option_arg(alloc, "namespace", "NAMESPACE", help).short('n')
}

/// That all namespaces are meant, as they are without it: for those who know it from `kubectl`.
pub(crate) fn all_arg<'a>(alloc: Global) -> Arg<'a>
    ensures { IsArg all_rule result }
{
    flag_arg(alloc, "all-namespaces", help::ALL).short('A')
}

/// That the schedules are those of a file's CronJobs, by the letter that `kubectl` has for files.
pub(crate) fn in_file_arg<'a>(alloc: Global) -> Arg<'a>
    ensures { IsArg in_file_rule result }
{
    flag_arg(alloc, "file", help::IN_FILE).short('f')
}

/// How the answer is printed, and how it is where nobody says so.
pub(crate) fn output_arg<'a>(alloc: Global, usual: &'a str, forms: &'a str) -> Arg<'a>
    ensures { IsArg (output_rule usual.entry.now) result }
{
    option_arg(alloc, "output", "FORMAT", forms)
        .short('o')
        .default_value(usual)
}

/// The option for the form of an answer that has lines, JSON and YAML.
pub(crate) fn lines_arg<'a>(alloc: Global) -> Arg<'a>
    ensures { IsArg lines_rule result }
{
    output_arg(alloc, "lines", help::LINES)
}

/// The files of a command that takes several.
pub(crate) fn files_arg<'a>(alloc: Global, files: &'a str) -> Arg<'a>
    ensures { IsArg files_rule result }
{
    positional_arg(alloc, "file", "FILE", files).num_args(1..)
}

/// A flag.
pub(crate) fn flag_arg<'a>(alloc: Global, id: &'a str, help: &'a str) -> Arg<'a>
    ensures { IsArg (flag_rule id.entry.now) result }
{
    Arg::new(alloc, id)
        .long(id)
        .action(ArgAction::SetTrue)
        .help(help)
}

/// Whether a refusal is explained.
pub(crate) fn explain_arg<'a>(alloc: Global) -> Arg<'a>
    ensures { IsArg explain_rule result }
{
    flag_arg(
        alloc,
        "explain",
        "Explain refusals on standard error: what is wrong, and what is wanted",
    )
}
