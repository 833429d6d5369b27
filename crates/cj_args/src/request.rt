// What the words of a command line ask for.
ghost use Rattle.std.specs.Prelude.{◌≡◌, option_map};
ghost use Rattle.cj_args.specs.Command.{described_file, first_file, is_in_file};

use crate::clocks::ClockWords;
use crate::crontab::CrontabRequest;
use crate::previous::PreviousRequest;
use crate::report::ReportRequest;
use crate::scenario::ScenarioRequest;

/// What a command line asks for.
#[derive(Debug, Drop)]
pub enum Request<'a> {
    /// The next due times of a schedule.
    Next(NextRequest<'a>),
    /// What a manifest says, or every fault in it.
    Check(CheckRequest<'a>),
    /// What the next sync of a scenario's CronJob does.
    Plan(PlanRequest<'a>),
    /// What the steps of a script are answered, one after the other.
    Replay(ReplayRequest<'a>),
    /// What the whole controller leaves of a scenario.
    Run(RunRequest<'a>),
    /// What was missed in a cluster, and what the next syncs do.
    Why(WhyRequest<'a>),
    /// What is wrong among the Jobs of a cluster.
    Audit(AuditRequest<'a>),
    /// What starts in a window of time.
    Upcoming(UpcomingRequest<'a>),
    /// A schedule in a sentence, and its next times.
    Describe(DescribeRequest<'a>),
    /// The last due times of a schedule.
    Previous(PreviousRequest<'a>),
    /// A page on a cluster.
    Report(ReportRequest<'a>),
    /// What the lines of a crontab do, or the CronJobs that are made of them.
    Crontab(CrontabRequest<'a>),
    /// A scenario of a cluster.
    Scenario(ScenarioRequest<'a>),
    /// The CronJobs of a cluster run, or a transcript of that checked.
    Control(ControlRequest<'a>),
}

impl<'a> Request<'a> {
    ghost use Rattle.cj_args.specs.Command.{explains, file_of, folder_of, zones_of};

    /// The name of the file that is to be read, where the command reads one; `-` is standard input.
    pub fn file(&self) -> Option<&'a str>
        ensures { option_map (λ s. s.now) result ≡ file_of self.now }
    {
        match self {
            Request::Next(_) => None,
            Request::Check(check) => first_file(check.files.as_slice()),
            Request::Plan(plan) => Some(plan.file),
            Request::Replay(replay) => Some(replay.file),
            Request::Run(run) => Some(run.file),
            Request::Why(why) => Some(why.file),
            Request::Audit(audit) => Some(audit.file),
            Request::Upcoming(upcoming) => first_file(upcoming.files.as_slice()),
            Request::Describe(describe) => described_file(describe),
            Request::Previous(_) => None,
            Request::Report(report) => first_file(report.files.as_slice()),
            Request::Crontab(crontab) => Some(crontab.file),
            Request::Scenario(scenario) => Some(scenario.file),
            Request::Control(control) => control.check,
        }
    }

    /// The zones that the words give, where the command takes them.
    pub fn zones(&self) -> Option<&ZoneWords<'a>>
        ensures { option_map (λ z. z.now) result ≡ zones_of self.now }
    {
        match self {
            Request::Next(_) => None,
            Request::Check(check) => Some(&check.zones),
            Request::Plan(plan) => Some(&plan.zones),
            Request::Replay(replay) => Some(&replay.zones),
            Request::Run(run) => Some(&run.zones),
            Request::Why(why) => Some(&why.zones),
            Request::Audit(audit) => Some(&audit.zones),
            Request::Upcoming(upcoming) => Some(&upcoming.zones),
            Request::Describe(_) => None,
            Request::Previous(_) => None,
            Request::Report(report) => Some(&report.zones),
            Request::Crontab(crontab) => Some(&crontab.zones),
            Request::Scenario(scenario) => Some(&scenario.zones),
            Request::Control(_) => None,
        }
    }

    /// The name of the folder in which zones are looked up, where one is given.
    pub fn folder(&self) -> Option<&'a str>
        ensures { option_map (λ s. s.now) result ≡ folder_of self.now }
    {
        match self {
            Request::Next(next) => next.folder,
            Request::Check(check) => check.zones.folder,
            Request::Plan(plan) => plan.zones.folder,
            Request::Replay(replay) => replay.zones.folder,
            Request::Run(run) => run.zones.folder,
            Request::Why(why) => why.zones.folder,
            Request::Audit(audit) => audit.zones.folder,
            Request::Upcoming(upcoming) => upcoming.zones.folder,
            Request::Describe(describe) => describe.folder,
            Request::Previous(previous) => previous.folder,
            Request::Report(report) => report.zones.folder,
            Request::Crontab(crontab) => crontab.zones.folder,
            Request::Scenario(scenario) => scenario.zones.folder,
            Request::Control(control) => control.folder,
        }
    }

    /// Whether a refusal is to be explained.
    pub fn explains(&self) -> bool
        ensures { result ≡ explains self.now }
    {
        match self {
            Request::Next(next) => next.explain,
            Request::Check(check) => check.explain,
            Request::Plan(plan) => plan.explain,
            Request::Replay(replay) => replay.explain,
            Request::Run(run) => run.explain,
            Request::Why(why) => why.explain,
            Request::Audit(audit) => audit.explain,
            Request::Upcoming(upcoming) => upcoming.explain,
            Request::Describe(describe) => describe.explain,
            Request::Previous(previous) => previous.explain,
            Request::Report(report) => report.explain,
            Request::Crontab(crontab) => crontab.explain,
            Request::Scenario(scenario) => scenario.explain,
            Request::Control(control) => control.explain,
        }
    }
}

/// The zones that a command's input may name, as the words give them.
#[derive(Debug, Drop)]
pub struct ZoneWords<'a> {
    /// Each as NAME=RULE with a POSIX rule, in their order.
    pub rules: Vec<&'a str>,
    /// The folder with compiled zone files, in which the zones that the input names are looked up.
    pub folder: Option<&'a str>,
}

/// The words of the command `next`, as they were given.
#[derive(Debug, Drop)]
pub struct NextRequest<'a> {
    /// The crontab schedule.
    pub schedule: &'a str,
    /// The start, which is excluded: a printed time.
    pub after: &'a str,
    /// How many times are asked for, 1 to 1,000.
    pub count: u16,
    /// `UTC`, or the POSIX rule of the zone; UTC where neither a rule nor a name is given.
    pub zone: Option<&'a str>,
    /// The name of the zone, which is looked up in the folder.
    pub time_zone: Option<&'a str>,
    /// How the answer is printed: `lines` or `json`.
    pub output: &'a str,
    /// The folder with compiled zone files.
    pub folder: Option<&'a str>,
    /// Whether a refusal is explained.
    pub explain: bool,
}

/// The words of the command `check`, as they were given.
#[derive(Debug, Drop)]
pub struct CheckRequest<'a> {
    /// The names of the files, each with a manifest; `-` is standard input. There is at least one.
    pub files: Vec<&'a str>,
    /// Whether a manifest with a warning is refused.
    pub strict: bool,
    /// The moment from which the clocks of zones are looked at. Where none is given and the answer
    /// is explained, a program with a clock puts its own time here.
    pub moment: Option<&'a str>,
    /// How the answer is printed: `lines` or `json`.
    pub output: &'a str,
    /// The zones that the manifests may name.
    pub zones: ZoneWords<'a>,
    /// Whether a refusal is explained.
    pub explain: bool,
}

// The name of the first of the files.
fn first_file<'a>(files: &[&'a str]) -> Option<&'a str>
    ensures { option_map (λ s. s.now) result ≡ first_file files.now }
{
    files.first().copied()
}

/// The words of the command `plan`, as they were given.
#[derive(Debug, Drop)]
pub struct PlanRequest<'a> {
    /// The name of the file with the scenario; `-` is standard input.
    pub file: &'a str,
    /// The moment that the plan is for: a printed time.
    pub moment: &'a str,
    /// How the answer is printed: `lines` or `json`.
    pub output: &'a str,
    /// The zones that the CronJob may name.
    pub zones: ZoneWords<'a>,
    /// Whether a refusal is explained.
    pub explain: bool,
}

/// The words of the command `replay`, as they were given.
#[derive(Debug, Drop)]
pub struct ReplayRequest<'a> {
    /// The name of the file with the script; `-` is standard input.
    pub file: &'a str,
    /// How the answers are printed: `lines` or `json`.
    pub output: &'a str,
    /// The zones that the CronJobs may name.
    pub zones: ZoneWords<'a>,
    /// Whether a refusal is explained.
    pub explain: bool,
}

/// The words of the command `run`, as they were given.
#[derive(Debug, Drop)]
pub struct RunRequest<'a> {
    /// The name of the file with the scenario; `-` is standard input.
    pub file: &'a str,
    /// How many workers, 1 to 32.
    pub workers: u8,
    /// Whether the events are printed in place of the report.
    pub timeline: bool,
    /// Whether, without those, the calls are.
    pub history: bool,
    /// Whether, without either, a picture is.
    pub svg: bool,
    /// Without any of these, the form of what is printed: any text.
    pub output: &'a str,
    /// The CronJobs whose events are printed, each as NAMESPACE/NAME or as NAME; all of them where
    /// none is given.
    pub crons: Vec<&'a str>,
    /// The namespace of the events that are printed; all of them where none is given.
    pub namespace: Option<&'a str>,
    /// By which zone's clock times are printed.
    pub clock: ClockWords<'a>,
    /// The zones that the CronJobs may name.
    pub zones: ZoneWords<'a>,
    /// Whether a refusal is explained.
    pub explain: bool,
}

/// The words of the command `why`, as they were given.
#[derive(Debug, Drop)]
pub struct WhyRequest<'a> {
    /// The name of the file with the cluster's objects; `-` is standard input.
    pub file: &'a str,
    /// The moment that is asked about: a printed time. Where none is given, a program with a clock
    /// puts its own here.
    pub moment: Option<&'a str>,
    /// The CronJobs that are asked about, each as NAMESPACE/NAME or as NAME; all of them where none
    /// is given.
    pub crons: Vec<&'a str>,
    /// The namespace of those that are asked about; all of them where none is given.
    pub namespace: Option<&'a str>,
    /// How they are printed: `table`, `lines` or `json`.
    pub output: &'a str,
    /// Whether only those are printed that want a look.
    pub problems: bool,
    /// By which zone's clock times are printed.
    pub clock: ClockWords<'a>,
    /// The zones that the CronJobs may name.
    pub zones: ZoneWords<'a>,
    /// Whether a refusal is explained.
    pub explain: bool,
}

/// The words of the command `audit`, as they were given.
#[derive(Debug, Drop)]
pub struct AuditRequest<'a> {
    /// The name of the file with the cluster's objects; `-` is standard input.
    pub file: &'a str,
    /// From when on there are findings; all of them where none is given.
    pub since: Option<&'a str>,
    /// The moment that is looked from. Where none is given but `since` is, a program with a clock
    /// puts its own here.
    pub moment: Option<&'a str>,
    /// The CronJobs that are asked about, each as NAMESPACE/NAME or as NAME; all of them where none
    /// is given.
    pub crons: Vec<&'a str>,
    /// The namespace of those that are asked about; all of them where none is given.
    pub namespace: Option<&'a str>,
    /// How the answer is printed: `lines` or `json`.
    pub output: &'a str,
    /// Whether a picture is printed in place of that.
    pub svg: bool,
    /// By which zone's clock times are printed.
    pub clock: ClockWords<'a>,
    /// The zones that the CronJobs may name.
    pub zones: ZoneWords<'a>,
    /// Whether a refusal is explained.
    pub explain: bool,
}

/// The words of the command `upcoming`, as they were given.
#[derive(Debug, Drop)]
pub struct UpcomingRequest<'a> {
    /// The names of the files with CronJobs; `-` is standard input. There is at least one.
    pub files: Vec<&'a str>,
    /// The start of the window, which is included. Where none is given, a program with a clock puts
    /// its own time here.
    pub from: Option<&'a str>,
    /// How long the window is, as `24h`.
    pub length: &'a str,
    /// The moment at which the window ends; its length counts where none is given.
    pub until: Option<&'a str>,
    /// The CronJobs that are asked about, each as NAMESPACE/NAME or as NAME; all of them where none
    /// is given.
    pub crons: Vec<&'a str>,
    /// The namespace of those that are asked about; all of them where none is given.
    pub namespace: Option<&'a str>,
    /// Whether each minute is printed in which something starts, in place of a line a CronJob.
    pub minutes: bool,
    /// How many of the fullest minutes are asked for, 0 to 1,000.
    pub peaks: u16,
    /// How the answer is printed: `lines` or `json`.
    pub output: &'a str,
    /// Whether a picture is printed in place of that.
    pub svg: bool,
    /// By which zone's clock times are printed.
    pub clock: ClockWords<'a>,
    /// The zones that the CronJobs may name.
    pub zones: ZoneWords<'a>,
    /// Whether a refusal is explained.
    pub explain: bool,
}

/// The words of the command `describe`, as they were given.
#[derive(Debug, Drop)]
pub struct DescribeRequest<'a> {
    /// The crontab schedule, or the name of a file with CronJobs; `-` is standard input.
    pub schedule: &'a str,
    /// Whether it is said that it is the name of a file.
    pub is_file: bool,
    /// The start, which is excluded. Where none is given, a program with a clock puts its own time
    /// here.
    pub after: Option<&'a str>,
    /// How many times are asked for, 1 to 1,000.
    pub count: u16,
    /// `UTC`, or the POSIX rule of the zone; UTC where neither a rule nor a name is given.
    pub zone: Option<&'a str>,
    /// The name of the zone, which is looked up in the folder.
    pub time_zone: Option<&'a str>,
    /// How the answer is printed: `lines` or `json`.
    pub output: &'a str,
    /// The folder with compiled zone files.
    pub folder: Option<&'a str>,
    /// Whether a refusal is explained.
    pub explain: bool,
}

impl DescribeRequest<'_> {
    ghost use Rattle.cj_args.specs.Command.{is_in_file};

    /// Whether the schedules are those of a file's CronJobs: where it is said, and of standard
    /// input.
    pub fn is_in_file(&self) -> bool
        ensures { result ≡ is_in_file self.now }
    {
        self.is_file || self.schedule == "-"
    }
}

// The name of the file whose CronJobs are described, if they are.
fn described_file<'a>(describe: &DescribeRequest<'a>) -> Option<&'a str>
    ensures { option_map (λ s. s.now) result ≡ described_file describe.now }
{
    if describe.is_in_file() {
        Some(describe.schedule)
    } else {
        None
    }
}

/// The words of the command `control`, as they were given.
#[derive(Debug, Drop)]
pub struct ControlRequest<'a> {
    /// How many syncs may be under way at once, 1 to 32.
    pub workers: u8,
    /// The namespace whose CronJobs are looked after; all of them where none is given.
    pub namespace: Option<&'a str>,
    /// The labels of the CronJobs that are looked after, as the API server's `labelSelector`; all
    /// of them where none is given.
    pub selector: Option<&'a str>,
    /// Whether only CronJobs with the annotation `cronsim/run: "true"` are looked after.
    pub only_annotated: bool,
    /// Whether no write is asked for, and each is told in its place.
    pub dry_run: bool,
    /// The version of the API in which the server has CronJobs: any text.
    pub api_version: &'a str,
    /// What tells this replica from others; nothing where none is given.
    pub replica: Option<&'a str>,
    /// How the lines on standard error are printed: any text.
    pub log: &'a str,
    /// The name of the file into which all lines are written.
    pub transcript: Option<&'a str>,
    /// The name of the file with a transcript that is checked in place of running; `-` is standard
    /// input.
    pub check: Option<&'a str>,
    /// The folder with compiled zone files.
    pub folder: Option<&'a str>,
    /// Whether a refusal is explained.
    pub explain: bool,
}
