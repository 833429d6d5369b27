// The head of the page: when, of which files, how much there is, and what was passed over.
ghost use Rattle.std.specs.Prelude.{◌≡◌, IfErr};
ghost use Rattle.cj_base.specs.declared.refusal.Refusal.TheVariants.{OutOfMemory};

use crate::html::page::Subject;
use crate::html::pictures::push_style;
use crate::html::style::{HEAD, STYLE};
use crate::html::text::{line_count, push_between, push_list};
use cj_types::{Refusal, Seconds};
use cj_zone::time_text;
use std::alloc::{AllocError, Global};

/// How much there is.
#[derive(Clone, Copy, Debug)]
pub(crate) struct Counts {
    pub(crate) crons: usize,
    pub(crate) jobs: usize,
    pub(crate) findings: usize,
    /// How many CronJobs need attention.
    pub(crate) looks: u64,
}

// The head of the document, with its title.
fn push_document(alloc: Global, text: &mut String, now: &str, counts: Counts) -> Result<(), Refusal>
    ensures err { IfErr result (λ e. e ≡ OutOfMemory) }
{
    let (findings, looks) = (counts.findings, counts.looks);
    let title = format!(in alloc;
        "<title>CronJobs at {now}, findings: {findings}, to look at: {looks}</title>\n"
    )?;
    text.push_str(HEAD)?;
    text.push_str(title.as_str())?;
    text.push_str("<style>\n")?;
    text.push_str(STYLE)?;
    push_style(alloc, text)?;
    Ok(text.push_str("</style>\n</head>\n<body>\n")?)
}

fn push_since(alloc: Global, text: &mut String, since: Option<Seconds>) -> Result<(), Refusal>
    ensures err { IfErr result (λ e. e ≡ OutOfMemory) }
{
    match since {
        Some(since) => {
            let time = time_text(alloc, since)?;
            let (open, close) = ("<dt>Findings and Jobs since</dt><dd>", "</dd>\n");
            Ok(push_between(text, open, time.as_str(), close)?)
        }
        None => Ok(()),
    }
}

fn file_name(name: &str) -> &str {
    if name == "-" { "standard input" } else { name }
}

fn push_files(text: &mut String, files: &[&str]) -> Result<(), AllocError> {
    text.push_str("<dt>Read from</dt><dd>")?;
    for name in files {
        push_between(text, "<code>", file_name(name), "</code> ")?;
    }
    text.push_str("</dd>\n")
}

fn push_counts(alloc: Global, text: &mut String, counts: Counts) -> Result<(), AllocError> {
    let (crons, jobs) = (counts.crons, counts.jobs);
    let (findings, looks) = (counts.findings, counts.looks);
    let words = format!(in alloc;
        "<dt>CronJobs</dt><dd>{crons}</dd>\n<dt>CronJobs to look at</dt><dd>{looks}</dd>\n<dt>Jobs</dt><dd>{jobs}</dd>\n<dt>Findings</dt><dd>{findings}</dd>\n"
    )?;
    text.push_str(words.as_str())
}

// What wasn't read, behind how many lines it has.
fn push_passed(alloc: Global, text: &mut String, passed: &str) -> Result<(), AllocError> {
    if passed.is_empty() {
        return text.push_str("<p>Every item of the files was read.</p>\n");
    }
    let count = line_count(passed);
    let open = format!(in alloc; "<details>\n<summary>Passed over, in lines: {count}</summary>\n")?;
    text.push_str(open.as_str())?;
    push_list(text, passed)?;
    text.push_str("</details>\n")
}

const LINKS: &str = "<nav aria-label=\"Sections\">
<a href=\"#look\">CronJobs that need attention</a>
<a href=\"#findings\">Findings</a>
<a href=\"#cronjobs\">CronJobs</a>
<a href=\"#jobs\">Jobs over time</a>
<a href=\"#day\">The day to come</a>
<a href=\"#nights\">Clock changes</a>
</nav>
";

/// All up to the first section.
pub(crate) fn push_head(
    alloc: Global,
    text: &mut String,
    subject: &Subject<'_>,
    counts: Counts,
) -> Result<(), Refusal>
    ensures err { IfErr result (λ e. e ≡ OutOfMemory) }
{
    let now = time_text(alloc, subject.now)?;
    push_document(alloc, text, now.as_str(), counts)?;
    push_between(
        text,
        "<header>\n<h1>CronJobs at ",
        now.as_str(),
        "</h1>\n<dl>\n",
    )?;
    push_since(alloc, text, subject.since)?;
    push_files(text, subject.files)?;
    push_counts(alloc, text, counts)?;
    text.push_str("</dl>\n")?;
    push_passed(alloc, text, subject.passed)?;
    text.push_str(LINKS)?;
    Ok(text.push_str("</header>\n<main>\n")?)
}
