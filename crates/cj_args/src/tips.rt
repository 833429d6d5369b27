// What people may mean by words that clap refuses. Nothing rests on it but a hint to them, so
// nothing is stated of it.
use std::alloc::{AllocError, Global};

// The commands on one schedule.
fn takes_schedule(command: &str) -> bool {
    command == "next" || command == "describe" || command == "previous"
}

// Whether the command has that option for a moment.
fn takes_moment(command: &str, word: &str) -> bool {
    match command {
        "check" | "why" | "crontab" | "plan" => word == "--now",
        "upcoming" | "scenario" => word == "--from",
        "next" | "describe" => word == "--after",
        "previous" => word == "--before",
        "audit" | "report" => word == "--now" || word == "--since",
        _ => false,
    }
}

// How the command is given a moment.
fn moment_tip(command: &str) -> &'static str {
    match command {
        "next" | "describe" => "--after TIME says after when",
        "previous" => "--before TIME says before when",
        "upcoming" | "scenario" => "--from TIME says from when on",
        "why" => "--now TIME says for when; audit and report take --since TIME",
        "check" | "crontab" | "plan" => "--now TIME says for when",
        "audit" | "report" => "--since TIME says from when on, --now TIME what now is",
        "run" => "the scenario says when its clock starts; scenario takes --from TIME",
        _ => "",
    }
}

// How the command is given a window.
fn window_tip(command: &str, word: &str) -> &'static str {
    let has_window = command == "upcoming" || command == "scenario";
    if has_window && (word == "--for" || word == "--until") {
        ""
    } else if command == "report" {
        "the page shows the day to come; upcoming takes --for 24h or --until TIME"
    } else {
        "upcoming and scenario take --for 24h or --until TIME"
    }
}

// How the command is told how many times are wanted. (-n is a namespace elsewhere.)
fn number_tip(command: &str, word: &str) -> &'static str {
    if takes_schedule(command) {
        if word == "--count" {
            ""
        } else {
            "--count says how many: --count 5"
        }
    } else if word == "-n" {
        ""
    } else {
        "next, describe and previous take --count 5; upcoming takes --for 24h"
    }
}

// By which clock the commands that print a cluster's times do so.
fn clock_tip(word: &str) -> &'static str {
    match word {
        "--time-zone" | "--local" => "",
        _ => "--time-zone Europe/Berlin or --local says by which clock times are printed",
    }
}

// How a schedule or a crontab is given its zone.
fn own_zone_tip(command: &str, word: &str) -> &'static str {
    if word == "--time-zone" {
        ""
    } else if command == "crontab" {
        "--time-zone Europe/Berlin names the zone of cron's machine"
    } else {
        "next, describe and previous take --zone Europe/Berlin"
    }
}

// How the command is given a zone.
fn zone_tip(command: &str, word: &str) -> &'static str {
    match command {
        "why" | "audit" | "upcoming" | "run" => clock_tip(word),
        "report" => "the page has UTC, and the zone's own times where a CronJob names one",
        "scenario" => "a scenario has UTC; run takes --time-zone Europe/Berlin or --local",
        "check" | "plan" | "replay" | "control" => "a CronJob names its zone: spec.timeZone",
        _ => own_zone_tip(command, word),
    }
}

// How a form is asked for by the commands that have several.
fn several_tip(word: &str) -> &'static str {
    match word {
        "--json" | "-json" | "-j" => "-o json prints JSON",
        "--yaml" | "-yaml" | "-y" => "-o yaml prints YAML",
        "--format" => "-o says the format: -o json",
        _ => "",
    }
}

// In which forms the command prints.
fn form_tip(command: &str, word: &str) -> &'static str {
    match command {
        "report" => "report prints HTML: cronsim report FILE > night.html",
        "scenario" => "scenario prints JSON: cronsim scenario FILE > night.json",
        "control" => "",
        _ => several_tip(word),
    }
}

// What draws pictures.
fn picture_tip(command: &str, word: &str) -> &'static str {
    match command {
        "report" => "report prints HTML, with pictures: cronsim report FILE > night.html",
        "run" | "audit" | "upcoming" if word == "--svg" => "",
        _ => {
            "run, audit and upcoming print a picture by --svg; a page: cronsim report FILE > night.html"
        }
    }
}

// How CronJobs are chosen, which have labels.
fn label_tip(command: &str) -> &'static str {
    match command {
        "control" | "crontab" => "",
        "why" | "audit" | "report" | "run" | "scenario" => {
            "no labels are read; --cron NAME shows one CronJob"
        }
        _ => "no labels are read: kubectl get cronjobs -l app=x -o json | cronsim upcoming",
    }
}

// How one CronJob is chosen.
fn cron_tip(command: &str, word: &str) -> &'static str {
    match command {
        "why" | "audit" | "report" | "run" | "scenario" | "upcoming" => {
            if word == "--cron" {
                ""
            } else {
                "--cron NAME shows one CronJob"
            }
        }
        "plan" => "plan reads one CronJob; cronsim why FILE --cron NAME shows one of many",
        "control" => "--selector app=x chooses CronJobs by their labels",
        _ => "why, audit, upcoming, report, scenario and run take --cron NAME",
    }
}

// What shows only what is wrong.
fn problems_tip(command: &str) -> &'static str {
    match command {
        "why" => "",
        "audit" => "audit prints only what it finds; why takes --problems",
        _ => "why takes --problems: cronsim why FILE --problems",
    }
}

// How the command is given a file.
fn file_option_tip(command: &str) -> &'static str {
    match command {
        "describe" | "control" => "",
        "next" | "previous" => "describe takes a file: cronsim describe -f FILE",
        _ => "the file stands alone: cronsim check FILE",
    }
}

// What is meant by an option on moments, zones and numbers.
fn time_tip(command: &str, word: &str) -> &'static str {
    match word {
        "--at"
        | "--time"
        | "--date"
        | "--now"
        | "--after"
        | "--before"
        | "--from"
        | "--since"
        | "--start" => {
            if takes_moment(command, word) {
                ""
            } else {
                moment_tip(command)
            }
        }
        "--until" | "--to" | "--end" | "--hours" | "--days" | "--for" => {
            window_tip(command, word)
        }
        "--limit"
        | "--number"
        | "--num"
        | "--times"
        | "-c"
        | "--iterations"
        | "--next"
        | "-n"
        | "--count" => number_tip(command, word),
        "--tz" | "--timezone" | "-tz" | "--local" | "--utc" | "--time-zone" => {
            zone_tip(command, word)
        }
        _ => "",
    }
}

// What is meant by an option on how it is printed.
fn output_tip(command: &str, word: &str) -> &'static str {
    match word {
        "--json" | "-json" | "-j" | "--yaml" | "-yaml" | "-y" | "--format" | "-o" | "--output" => {
            form_tip(command, word)
        }
        "--svg" | "--png" | "--pdf" | "--html" => picture_tip(command, word),
        "--out" | "--outfile" | "--output-file" => {
            "a file gets what is printed by >: cronsim report FILE > night.html"
        }
        "--no-headers" | "--no-header" => "-o json has no heading; why takes -o lines too",
        "--problems" => problems_tip(command),
        "-v" | "--verbose" | "-q" | "--quiet" => "--explain says more; nothing says less",
        _ => "",
    }
}

// What is meant by an option on what is read.
fn input_tip(command: &str, word: &str) -> &'static str {
    match word {
        "-f" | "--file" | "--filename" => file_option_tip(command),
        "-R" | "-r" | "--recursive" => {
            "check looks through a folder, and the folders in it: cronsim check deploy"
        }
        "-k" | "--kustomize" => "kubectl builds it: kubectl kustomize deploy | cronsim check -",
        "-l" | "--selector" | "--label" | "--labels" => label_tip(command),
        "--cron" | "--cronjob" | "--name" => cron_tip(command, word),
        "--dry-run" if command != "control" => "nothing is changed anyway; only control writes",
        "-w" | "--watch" => "it answers once, and ends",
        _ => "",
    }
}

// What is meant by the name of a command that doesn't exist.
fn command_tip(word: &str) -> &'static str {
    match word {
        "cron" | "convert" | "import" => "cronsim crontab FILE reads a crontab",
        "version" | "-v" | "-version" => "cronsim --version prints the version",
        "validate" | "lint" | "verify" => "cronsim check FILE checks manifests",
        "explain" => {
            "cronsim describe SCHEDULE says what a schedule means, cronsim why FILE why CronJobs start nothing"
        }
        "list" | "schedule" | "ls" | "get" => {
            "cronsim upcoming FILE prints what starts, cronsim next SCHEDULE --after TIME when"
        }
        "calendar" => "cronsim describe SCHEDULE says what a schedule means, and when it is due",
        "status" => "cronsim why FILE says what CronJobs missed, and what happens next",
        "history" => "cronsim audit FILE says what went wrong, cronsim report FILE prints a page",
        "completion" | "completions" => {
            "./build --install ~/.local installs the program, with completions for bash, zsh and fish"
        }
        "simulate" | "sim" => "cronsim run FILE runs a scenario",
        "prev" | "last" => "cronsim previous SCHEDULE --before TIME prints earlier times",
        _ => "",
    }
}

// Whether a word is a schedule, or the first part of one.
fn is_schedule(word: &str) -> bool {
    let is_shown = word.contains(' ') || word.starts_with('@') || word.starts_with('*');
    is_shown || word.parse::<u64>().is_ok()
}

// Whether the command can't do without a file.
fn wants_file(command: &str) -> bool {
    match command {
        "check" | "plan" | "replay" | "run" | "crontab" => true,
        _ => false,
    }
}

// The commands that there are.
const COMMANDS: &[&str] = &[
    "next", "check", "plan", "replay", "run", "why", "audit", "upcoming", "describe", "previous",
    "report", "scenario", "crontab", "control",
];

// Whether the word is an option that clap knows with a value, which is the next word.
fn takes_value(word: &str) -> bool {
    match word {
        "--after" | "--before" | "--from" | "--until" | "--since" | "--now" | "--for" => true,
        "--count" | "--peaks" | "--workers" | "--output" | "-o" => true,
        "--zone" | "--time-zone" | "--zoneinfo" | "--image" | "--shell" => true,
        "--cron" | "--namespace" | "-n" | "--selector" | "-l" => true,
        "--api-version" | "--replica" | "--log" | "--transcript" | "--check" => true,
        _ => false,
    }
}

// Whether the word is an option that clap knows without a value.
fn is_flag(word: &str) -> bool {
    match word {
        "--explain" | "--strict" | "--svg" | "--timeline" | "--history" | "--problems" => true,
        "--minutes" | "--file" | "-f" | "--system" | "--local" | "--all-namespaces" | "-A" => true,
        "--only-annotated" | "--dry-run" | "--help" | "-h" => true,
        _ => false,
    }
}

// Whether the word may be an option, known or not, whose value is the next word.
fn may_take_value(word: &str) -> bool {
    word.starts_with('-') && word != "-" && !word.contains('=') && !is_flag(word)
}

// Whether a word that is no option's value stands alone.
fn is_alone(word: &str) -> bool {
    !word.starts_with('-') || word == "-"
}

// The commands on a cluster that read one file.
fn reads_cluster(command: &str) -> bool {
    command == "why" || command == "audit" || command == "scenario"
}

// How many of the words stand alone at most: options that clap doesn't know have no value.
fn most_alone(words: &[&str]) -> usize {
    let mut count: usize = 0;
    let mut is_value = false;
    for word in words {
        if !is_value && is_alone(word) {
            count = count.saturating_add(1);
        }
        is_value = !is_value && takes_value(word);
    }
    count
}

// How many of them do at least: options that clap doesn't know have one.
fn least_alone(words: &[&str]) -> usize {
    let mut count: usize = 0;
    let mut is_value = false;
    for word in words {
        if !is_value && is_alone(word) {
            count = count.saturating_add(1);
        }
        is_value = !is_value && may_take_value(word);
    }
    count
}

// Whether the last of them looks like a name, and like no file.
fn ends_by_name(words: &[&str]) -> bool {
    let mut is_name = false;
    let mut is_value = false;
    for word in words {
        if !is_value && is_alone(word) {
            is_name = !word.contains('.') && !word.contains('/') && *word != "-";
        }
        is_value = !is_value && may_take_value(word);
    }
    is_name
}

// Which file the command wants.
fn file_tip(command: &str) -> &'static str {
    match command {
        "crontab" => "FILE is wanted; - reads what is piped in: crontab -l | cronsim crontab -",
        "run" => {
            "FILE is wanted; - reads what is piped in: cronsim scenario FILE | cronsim run -"
        }
        "plan" => "FILE is wanted, with a scenario; - reads what is piped in",
        "replay" => "FILE is wanted, with a script; - reads what is piped in",
        _ => "FILE is wanted; - reads what is piped in: helm template . | cronsim check -",
    }
}

// What is wrong with how many of a command's words stand alone.
fn count_tip(command: &str, words: &[&str]) -> &'static str {
    let least = least_alone(words);
    if wants_file(command) && most_alone(words) == 0 {
        file_tip(command)
    } else if takes_schedule(command) && least > 1 {
        if has_option(words, "-f") || has_option(words, "--file") {
            "describe -f reads one FILE; cronsim upcoming reads several"
        } else {
            "a schedule stands in quotes, as one word: cronsim describe '*/5 * * * *'"
        }
    } else if reads_cluster(command) && least > 1 {
        if ends_by_name(words) {
            "--cron NAME shows one CronJob; -n NAMESPACE those of a namespace"
        } else {
            "one FILE is read, and several lists in it are one: cat a.json b.json | cronsim why -"
        }
    } else {
        ""
    }
}

// Whether one of the words is an option of that name.
fn has_option(words: &[&str], name: &str) -> bool {
    words.iter().any(|word| word.starts_with(name))
}

// What is wanted where an option that has to be given isn't.
fn required_tip(command: &str, words: &[&str]) -> &'static str {
    let has_moment = has_option(words, "--after") || has_option(words, "--now");
    match (command, has_moment) {
        ("next", false) => {
            "for the next times from now on: --after now, or cronsim describe SCHEDULE"
        }
        ("plan", false) => "for a plan of now: --now now",
        _ => "",
    }
}

// A number that is below zero.
fn is_negative(word: &str) -> bool {
    match word.strip_prefix('-') {
        Some(rest) => rest.parse::<u64>().is_ok(),
        None => false,
    }
}

fn push_tip(text: &mut String, tip: &str) -> Result<(), AllocError> {
    if !tip.is_empty() {
        text.push_str("tip: ")?;
        text.push_str(tip)?;
        text.push_str("\n")?;
    }
    Ok(())
}

// The tips on a command's words.
fn push_word_tips(text: &mut String, command: &str, words: &[&str]) -> Result<(), AllocError> {
    for word in words {
        let name = word.split_once('=').map_or(*word, |(name, _)| name);
        push_tip(text, time_tip(command, name))?;
        push_tip(text, output_tip(command, name))?;
        push_tip(text, input_tip(command, name))?;
        if is_negative(word) {
            push_tip(
                text,
                "no option takes a number below zero; --count takes 1 to 1000",
            )?;
        }
    }
    push_tip(text, count_tip(command, words))?;
    push_tip(text, required_tip(command, words))
}

// The command that begins so.
fn push_command_tip(text: &mut String, word: &str) -> Result<(), AllocError> {
    push_tip(text, command_tip(word))?;
    if is_schedule(word) {
        push_tip(
            text,
            "cronsim describe SCHEDULE says what a schedule means; it stands in quotes: '0 2 * * *'",
        )?;
    }
    for command in COMMANDS {
        if command.starts_with(word) && !word.is_empty() {
            text.push_str("tip: the command is ")?;
            text.push_str(command)?;
            text.push_str("\n")?;
        }
    }
    Ok(())
}

/// What may be meant by the words of a command line that is refused, the program's name first: a
/// line for each thing.
pub fn word_tips(alloc: Global, words: &[&str]) -> Result<String, AllocError> {
    let mut text = String::new(alloc);
    match words {
        [_, "help", word, ..] => push_command_tip(&mut text, word)?,
        [_, command, rest @ ..] => {
            if COMMANDS.iter().any(|known| known == command) {
                push_word_tips(&mut text, command, rest)?;
            } else {
                push_command_tip(&mut text, command)?;
            }
        }
        _ => {}
    }
    Ok(text)
}
