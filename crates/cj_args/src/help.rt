// What `--help` says of the arguments, and after a command's options: an example, and the exit
// statuses.

/// The schedule of `next`.
pub(crate) const SCHEDULE: &str =
    "A crontab schedule of five fields, or a macro: '*/15 9-17 * * mon-fri', @daily";

/// The schedule of `describe`.
pub(crate) const SCHEDULE_OR_FILE: &str =
    "A crontab schedule of five fields, or a macro: '*/15 9-17 * * mon-fri', @daily. With -f a file with CronJobs instead; - reads them from standard input";

/// That `describe` is given a file.
pub(crate) const IN_FILE: &str =
    "Describe the schedule of each CronJob in a file: a manifest, or the output of `kubectl get cronjobs -o json`, in JSON or YAML";

/// The start of its search.
pub(crate) const AFTER: &str =
    "Print times after this one: a time (2024-01-01T00:00:00Z, 2024-01-01T01:00:00+01:00, or 2024-01-01 12:00 by the schedule's zone), a date (2024-01-01), now, or a distance from now (-1h, +2d; units s, m, h, d, w)";

/// The rule of its zone.
pub(crate) const ZONE: &str =
    "Time zone: its name, if the folder of zone files has it (Europe/Berlin), its POSIX rule (CET-1CEST,M3.5.0,M10.5.0/3), or NAME=RULE. Without it, UTC";

/// The name of its zone.
pub(crate) const TIME_ZONE: &str =
    "Name of the time zone: Europe/Berlin. Its file is in the folder that --zoneinfo names";

/// The folder of zone files.
pub(crate) const FOLDER: &str =
    "Folder with compiled zone files. Without it, the environment variable CRONSIM_ZONEINFO names one; without that, it is /usr/share/zoneinfo";

/// The files of `check`.
pub(crate) const MANIFESTS: &str =
    "File with manifests, in JSON or YAML, or a folder, whose files .yaml, .yml and .json are checked, and those of the folders in it; - reads standard input. With several files, each line begins with its file";

/// Whether warnings refuse a manifest.
pub(crate) const STRICT: &str =
    "Exit with status 1 on a warning too. With several files, count the warnings on standard error";

/// The time of `check`.
pub(crate) const LOOK: &str =
    "With --explain, show which local times the zone of a CronJob skips or repeats in the 366 days after this: a time (2024-01-01T00:00:00Z or 2024-01-01T01:00:00+01:00), a date (2024-01-01), or a distance from now (-1h, +2d; units s, m, h, d, w). Without it, now";

/// The file of `plan`.
pub(crate) const SCENARIO: &str =
    "File with a scenario, in JSON or YAML: a CronJob, its Jobs and zones; - reads standard input";

/// The file of `replay`.
pub(crate) const SCRIPT: &str =
    "File with a script, in JSON or YAML: callers, and steps that say who does what; - reads standard input";

/// The file of `run`.
pub(crate) const COURSE: &str =
    "File with a scenario, in JSON or YAML: a clock, CronJobs, how their Jobs run, edits; - reads standard input";

/// The files of `upcoming`.
pub(crate) const LISTS: &str =
    "File with CronJobs, in JSON or YAML: manifests, or the output of `kubectl get cronjobs -o json`; - reads standard input";

/// The file of `why` and of `audit`.
pub(crate) const CLUSTER: &str =
    "File with the output of `kubectl get cronjobs,jobs -o json`, or of -o yaml; - reads standard input";

/// The time of `plan`.
pub(crate) const MOMENT: &str =
    "Plan for this time: a time (2024-01-01T00:00:00Z or 2024-01-01T01:00:00+01:00), a date (2024-01-01), now, or a distance from now (-1h, +2d; units s, m, h, d, w)";

/// The time of `why`.
pub(crate) const NOW: &str =
    "Answer for this moment: a time (2024-01-01T00:00:00Z or 2024-01-01T01:00:00+01:00), a date (2024-01-01), or a distance from now (-1h, +2d; units s, m, h, d, w). Without it, now";

/// The start of the window of `upcoming`.
pub(crate) const FROM: &str =
    "Start of the window, included: a time (2024-01-01T00:00:00Z or 2024-01-01T01:00:00+01:00), a date (2024-01-01), or a distance from now (-1h, +2d; units s, m, h, d, w). Without it, now";

/// Its length.
pub(crate) const LENGTH: &str =
    "Length of the window: 90m, 24h, 7d, 2w, 1h30m; units s, m, h, d, w; at most 3000d";

/// The end of the window.
pub(crate) const UNTIL: &str =
    "End of the window, in place of its length: a moment as --from; a distance counts from now";

/// How many workers a run has.
pub(crate) const WORKERS: &str = "How many workers to run, 1 to 32, each in its own thread";

/// Its minutes.
pub(crate) const MINUTES: &str =
    "Print each minute in which something starts, with the CronJobs that start then, instead of the table";

/// How many of its fullest minutes.
pub(crate) const PEAKS: &str =
    "Print the N fullest minutes too, with how many CronJobs start in each; 0 to 1000";

/// The start of the search of `describe`.
pub(crate) const SINCE: &str =
    "Print times after this: a time (2024-01-01T00:00:00Z or 2024-01-01T01:00:00+01:00), a date (2024-01-01), or a distance from now (-1h, +2d; units s, m, h, d, w). Without it, now";

/// The time line of a run.
pub(crate) const TIMELINE: &str =
    "Print what happened when, one event a line, instead of the report";

/// Its history.
pub(crate) const HISTORY: &str =
    "Print every call and its answer, one a line, in their order, instead of the report. --timeline takes precedence";

/// Its picture.
pub(crate) const SVG: &str =
    "Print a picture of the Jobs over time, as SVG, instead of the report. --timeline and --history take precedence";

/// The picture of other answers.
pub(crate) const DRAWN: &str =
    "Print a picture, as SVG, instead of lines. It takes precedence over --output";

/// CronJobs of a cluster.
pub(crate) const CRON: &str =
    "Show only this CronJob: default/report, or report in the namespace that -n names, without -n in default. May be given several times";

/// Their namespace.
pub(crate) const NAMESPACE: &str = "Only CronJobs in this namespace";

/// The namespace of events.
pub(crate) const EVENTS: &str =
    "With --timeline, print only the events of CronJobs and Jobs in this namespace";

/// All of them.
pub(crate) const ALL: &str = "Taken as kubectl has it; all namespaces are read anyway";

/// From when on an audit is.
pub(crate) const AUDITED: &str =
    "Show findings from this moment on: as --now, or a distance from it: -12h. Without it, all of them";

/// The moment of an audit.
pub(crate) const AUDIT_NOW: &str =
    "Moment that a distance of --since counts from, and up to which --explain tells what clocks do: 2024-01-01T00:00:00Z, 2024-01-01, now, -1h. Without it, now for --since, and a day behind the last Job for clocks";

/// How CronJobs are printed.
pub(crate) const OUTPUT: &str =
    "Output format: table for people, where --explain or a single --cron adds the reasons in full; lines for programs; json or yaml for one value with all of it";

/// How other answers are.
pub(crate) const LINES: &str =
    "Output format: lines; json or yaml for one value with the same content";

/// How a run is.
pub(crate) const RAN: &str =
    "Output format: lines for the report; json or yaml for one value with the Jobs, the reasons, and the due times that got no Job. --timeline, --history and --svg take precedence";

/// Which of them.
pub(crate) const PROBLEMS: &str =
    "Only CronJobs that need a look, and exit with status 1 if there are any. This leaves out those that are suspended, missed nothing, or start for the one time they missed, unless that was more than two minutes ago";

/// How many syncs `control` has under way.
pub(crate) const SYNCS: &str = "How many CronJobs to work on at once, 1 to 32";

/// The labels of its CronJobs.
pub(crate) const SELECTOR: &str =
    "Only CronJobs with these labels, in the API server's syntax: app=backup,tier!=test";

/// Which of them are looked after.
pub(crate) const ONLY_ANNOTATED: &str =
    "Only CronJobs with the annotation cronsim/run: \"true\". Their spec.suspend is ignored, so this can run beside the cluster's own controller, which starts nothing for suspended CronJobs";

/// Whether it writes.
pub(crate) const DRY_RUN: &str =
    "Read and decide, but send no write. Standard error says what would be written";

/// The API of its CronJobs.
pub(crate) const API_VERSION: &str =
    "API version in which the server has CronJobs: batch/v1, or batch/v1beta1 before Kubernetes 1.21";

/// Its name among others.
pub(crate) const REPLICA: &str =
    "Name of this replica, such as the name of its Pod. Each replica needs its own";

/// Its lines on standard error.
pub(crate) const LOG: &str = "Format of standard error: text, or json for one JSON value a line";

/// Its transcript.
pub(crate) const TRANSCRIPT: &str =
    "Write each line that comes in or goes out to this file, for --check. A file that exists is overwritten";

/// A transcript that is checked.
pub(crate) const REPEATED: &str =
    "Check a transcript, and run nothing: does this program do the same, with the options and zones of the transcript? - reads standard input";

/// After the options of `next`.
pub(crate) const NEXT: &str = "Example:
  cronsim next '30 2 * * *' --after 2024-03-30T12:00:00Z --count 2 --zone CET-1CEST,M3.5.0,M10.5.0/3

Exit status:
  0  the times are printed
  1  the format, the schedule, the time or the zone is refused: standard error says which, --explain why
  2  the command line is wrong
  3  writing failed, or memory ran out";

/// Of `check`.
pub(crate) const CHECK: &str = "Examples:
  cronsim check deploy
  cronsim check deploy/backup.yaml deploy/report.yaml
  helm template . | cronsim check --strict -
  cronsim check docs/examples/manifest.json -o json

What it prints:
  ok KIND NAMESPACE/NAME                 the manifest has no fault
  warning FIELD                          Kubernetes drops this field, since it knows no such field; --explain names a similar one
  refused 2 FIELD CAUSE                  this field has a fault
  refused 1 Syntax                       the file is neither JSON nor YAML
  item N ..                              one of these, for item N of a list
  item N duplicate KIND NAMESPACE/NAME   an earlier item has this name

Exit status:
  0  no manifest has a fault, and with --strict none has a warning
  1  a manifest has one, as standard output says; or the format, the time or a zone is refused: standard error says which, --explain why
  2  the command line is wrong
  3  reading or writing failed, or memory ran out";

/// Of `plan`.
pub(crate) const PLAN: &str = "Example:
  cronsim plan docs/examples/replace.json --now 2024-01-01T00:03:00Z

Exit status:
  0  the plan is printed
  1  the format, the time, a zone or the scenario is refused: standard error says which, --explain why
  2  the command line is wrong
  3  reading or writing failed, or memory ran out";

/// Of `replay`.
pub(crate) const REPLAY: &str = "Example:
  cronsim replay docs/examples/made-anew.json

Exit status:
  0  the answers to all steps and the report are printed
  1  a zone or the script is refused: standard error says which, --explain why
  2  the command line is wrong
  3  a step found the history full, reading or writing failed, or memory ran out";

/// Of `run`.
pub(crate) const RUN: &str = "Example:
  cronsim run docs/examples/forbid.json --workers 2

What --explain says on standard error:
  which members of the scenario nobody reads
  which creations and edits were refused, and why
  why no Job was started, where none was
  which due times got no Job, and why
  which CronJobs are suspended at the end

Exit status:
  0  the report is printed
  1  the format, a zone or the scenario is refused: standard error says which, --explain why
  2  the command line is wrong
  3  a call found the history full, reading or writing failed, or memory or threads ran out";

/// Of `why`.
pub(crate) const WHY: &str = "Examples:
  kubectl get cronjobs,jobs -A -o json | cronsim why -
  kubectl get cronjobs,jobs -A -o json | cronsim why - --problems
  cronsim why docs/examples/cluster.json --now 2024-01-01T00:10:00Z --cron report

Columns of the table:
  MISSED  how many due times got no Job until now: 0 to 100, or >100
  NEXT    when the schedule is next due
  WHY     what the next sync does

What WHY says:
  starts             it starts a Job for the latest time missed
  replaces           it deletes the Jobs that run, and starts one
  nothing missed     it starts nothing
  suspended          it starts nothing: spec.suspend is true
  skipped: running   it starts nothing: a Job runs, and the policy is Forbid
  name taken         it starts nothing: another Job has the name
  lacks Jobs         unknown: status.active names Jobs that the list lacks
  never: FIELD       it never starts a Job: this field doesn't let it

Lines of each CronJob:
  cron NAMESPACE/NAME missed COUNT since TIME
  never FIELD   it never starts a Job: this field doesn't let it
  lacks NAME    status.active names this Job, but the list lacks it; there is no plan if it matters
  ..            the plan, as cronsim plan prints it; with --explain the reasons come on standard error

Exit status:
  0  they are printed, and every item could be read
  1  an item is refused, as standard output says, or with --problems a CronJob needs a look; or the format, the time, a zone, a CronJob or the input is refused: standard error says which, --explain why
  2  the command line is wrong
  3  reading or writing failed, or memory ran out";

/// Of `audit`.
pub(crate) const AUDIT: &str = "Examples:
  kubectl get cronjobs,jobs -A -o json | cronsim audit -
  kubectl get cronjobs,jobs -A -o json | cronsim audit - -n prod --since -24h --explain

What it prints:
  manual NAMESPACE/JOB                  somebody created this Job by hand, so it isn't checked
  twice NAMESPACE/NAME TIME JOB JOB     two Jobs have the same scheduled time
  beside NAMESPACE/NAME JOB JOB         two Jobs overlapped, under Forbid or Replace
  undue NAMESPACE/NAME JOB TIME         the schedule isn't due at the Job's time
  early NAMESPACE/NAME JOB TIME         the Job was created before its time
  missing NAMESPACE/NAME TIME           this due time has no Job, though later ones have; cronsim why tells of those after the last Job
  stray NAMESPACE/JOB NAME              the list lacks the Job's CronJob

Exit status:
  0  nothing is found, and every item could be read
  1  something is found or an item is refused, as standard output says; or the format, a time, a zone, a CronJob or the input is refused: standard error says which, --explain why
  2  the command line is wrong
  3  reading or writing failed, or memory ran out";

/// Of `upcoming`.
pub(crate) const UPCOMING: &str = "Examples:
  kubectl get cronjobs -A -o json | cronsim upcoming - --peaks 3
  cronsim upcoming deploy/*.yaml --from 2024-01-01 --for 7d
  cronsim upcoming deploy/*.yaml --for 1h --minutes

Columns of the table:
  STARTS     how often it starts in the window
  NEXT       when it starts next, be it after the window
  IN         how long after the window's start that is
  LAST       when it starts last in the window
  EVERY      how far apart its starts in the window are, if all are equally far
  SCHEDULE   its schedule in words, and the zone whose clock it goes by

Lines above and below it:
  item N refused 2 FIELD CAUSE               item N is left out for this fault; --explain explains it. With several files, FILE: comes first
  item N duplicate KIND NAMESPACE/NAME       an earlier item has this name
  start TIME NAMESPACE/NAME ..               with --minutes: these CronJobs start in this minute
  suspended NAMESPACE/NAME                   it starts nothing: spec.suspend is true
  never NAMESPACE/NAME                       its schedule isn't due within 3,000 days
  skips ZONE LOCAL LOCAL TIME                at TIME, in UTC, the zone's clock goes forward from the one local time to the other
  repeats ZONE LOCAL LOCAL TIME              at TIME it goes back, and shows the times between twice
  peak TIME COUNT NAMESPACE/NAME ..          one of the fullest minutes, with how many CronJobs start in it
  from TIME to TIME: N cron jobs, M starts   the window without its end, and what is in it

Exit status:
  0  they are printed, and every item could be read
  1  an item is refused, as standard output says; or the format, the time, the length, a zone, a CronJob or the input is refused: standard error says which, --explain why
  2  the command line is wrong
  3  reading or writing failed, or memory ran out";

/// Of `describe`.
pub(crate) const DESCRIBE: &str = "Examples:
  cronsim describe '30 2 * * mon-fri' --time-zone Europe/Berlin
  cronsim describe @daily --after 2024-01-01 --count 3 --zone CET-1CEST,M3.5.0,M10.5.0/3
  cronsim describe -f deploy/backup.yaml
  kubectl get cronjobs -A -o json | cronsim describe -

What it prints after the sentence:
  WEEKDAY LOCAL OFFSET TIME in SPAN   a due time: on the zone's clock, with its offset from UTC; in UTC; and how far away
  LOCAL, which the schedule names, is skipped: ..       the clock never shows this local time
  LOCAL, which the schedule names, comes twice: ..      the clock shows it twice
  none within 3,000 days              there is no further due time

What it prints of a file:
  NAMESPACE/NAME SCHEDULE SENTENCE       a CronJob, its schedule in words, and its zone; --after, --count and --time-zone are not used
  item N refused 2 FIELD CAUSE           item N is left out for this fault; --explain explains it
  item N duplicate KIND NAMESPACE/NAME   an earlier item has this name

Exit status:
  0  they are printed, and every item could be read
  1  an item is refused, as standard output says; or the format, the schedule, the time, the zone or the file is refused: standard error says which, --explain why
  2  the command line is wrong
  3  reading or writing failed, or memory ran out";

/// Of `control`.
pub(crate) const CONTROL: &str = "Examples:
  cronsim-control --dry-run
  cronsim-control --only-annotated --namespace default --transcript lines.jsonl
  cronsim control --check lines.jsonl

cronsim-control starts this command, and carries its lines to a Kubernetes API server and back.

Lines that go out:
  {\"id\":1,\"method\":\"GET\",\"path\":\"/version\"}   a request, sent once
  {\"id\":2,\"method\":\"PATCH\",\"path\":..,\"contentType\":..,\"body\":..}

Lines that come in:
  {\"id\":1,\"status\":200,\"body\":..}   the answer to request 1, or the end of its watch
  {\"id\":1,\"event\":..}               an event of its watch
  {\"id\":1,\"error\":\"..\"}             no answer came, so nobody knows whether it took effect
  {\"now\":\"2026-11-28T02:00:00Z\"}    the time, at least once a second
  {\"stop\":true}                     begin nothing new, and exit once everything is answered

What --check prints:
  N lines in, M requests: as this program does
  line N differs                    the next lines have what the transcript says there, and what this program does

Exit status:
  0  it was told to stop, or its input ended; or the transcript is what this program does
  1  the transcript differs, as standard output says; or an option or the transcript is refused: standard error says which, --explain why
  2  the command line is wrong
  3  reading or writing failed, the input ended before all was answered, or memory ran out at the start";
