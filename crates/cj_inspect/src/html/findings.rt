// The findings, kind by kind, each with its sentence, and what to do about the kind.
ghost use Rattle.std.specs.Prelude.{◌≡◌, IfErr};
ghost use Rattle.cj_base.specs.declared.refusal.Refusal.TheVariants.{OutOfMemory};

use crate::html::groups::{GROUPS, Group, group_of};
use crate::html::text::{first_line, line_count, push_between, push_list};
use cj_audit::{Finding, finding_words, manual_text, times_text};
use cj_cluster::Cluster;
use cj_types::Refusal;
use std::alloc::{AllocError, Global};

fn count_of(group: Group, findings: &[Finding]) -> u64 {
    let mut count: u64 = 0;
    for finding in findings {
        if group_of(finding.kind) == group {
            count = count.saturating_add(1);
        }
    }
    count
}

// The Jobs of a finding, where its sentence doesn't name them.
fn push_jobs(text: &mut String, finding: &Finding) -> Result<(), AllocError> {
    if !group_of(finding.kind).leaves_jobs() {
        return Ok(());
    }
    push_between(
        text,
        " <span class=\"jobs\">Job <code>",
        finding.first.as_str(),
        "</code>",
    )?;
    if let Some(second) = &finding.second {
        push_between(text, " and Job <code>", second.as_str(), "</code>")?;
    }
    text.push_str("</span>")
}

// What it is about, and what it means.
fn push_sentence(text: &mut String, words: &str) -> Result<(), AllocError> {
    let line = first_line(words);
    let rest = line.split_once(' ').unwrap_or(("", line)).1;
    let (about, sentence) = rest.split_once(": ").unwrap_or(("", rest));
    push_between(text, "<li><b>", about, "</b>: ")?;
    push_between(text, "", sentence, ".")
}

fn push_finding(alloc: Global, text: &mut String, finding: &Finding) -> Result<(), Refusal>
    ensures err { IfErr result (λ e. e ≡ OutOfMemory) }
{
    let words = finding_words(alloc, finding)?;
    push_sentence(text, words.as_str())?;
    push_jobs(text, finding)?;
    Ok(text.push_str("</li>\n")?)
}

fn push_findings(
    alloc: Global,
    text: &mut String,
    group: Group,
    findings: &[Finding],
) -> Result<(), Refusal>
    ensures err { IfErr result (λ e. e ≡ OutOfMemory) }
{
    let word = group.word();
    let open = format!(in alloc;
        "<div class=\"tall\" tabindex=\"0\" role=\"region\" aria-labelledby=\"{word}\">\n<ul>\n"
    )?;
    text.push_str(open.as_str())?;
    for finding in findings {
        if group_of(finding.kind) == group {
            push_finding(alloc, text, finding)?;
        }
    }
    Ok(text.push_str("</ul>\n</div>\n")?)
}

fn push_group(
    alloc: Global,
    text: &mut String,
    group: Group,
    findings: &[Finding],
) -> Result<(), Refusal>
    ensures err { IfErr result (λ e. e ≡ OutOfMemory) }
{
    let count = count_of(group, findings);
    if count == 0 {
        return Ok(());
    }
    let (word, title) = (group.word(), group.title());
    let head = format!(in alloc; "<h3 id=\"{word}\">{title}: {count} <code>{word}</code></h3>\n")?;
    text.push_str(head.as_str())?;
    push_between(
        text,
        "<p class=\"advice\"><strong>What to do:</strong> ",
        group.advice(),
        "</p>\n",
    )?;
    push_findings(alloc, text, group, findings)
}

fn push_groups(alloc: Global, text: &mut String, findings: &[Finding]) -> Result<(), Refusal>
    ensures err { IfErr result (λ e. e ≡ OutOfMemory) }
{
    for group in GROUPS.as_slice() {
        push_group(alloc, text, *group, findings)?;
    }
    Ok(())
}

fn push_alone(text: &mut String, alone: bool) -> Result<(), AllocError> {
    if alone {
        text.push_str(
            "<p class=\"advice\">There are Jobs of CronJobs, and no CronJob to look at them by: <code>kubectl get cronjobs,jobs -A -o json</code> lists both.</p>\n",
        )?;
    }
    Ok(())
}

// What else there is to say of the Jobs.
fn push_beside(alloc: Global, text: &mut String, cluster: &Cluster) -> Result<(), Refusal>
    ensures err { IfErr result (λ e. e ≡ OutOfMemory) }
{
    let lines = times_text(alloc, cluster)?;
    push_list(text, lines.as_str())?;
    let manual = manual_text(alloc, cluster)?;
    let count = line_count(manual.as_str());
    if count > 0 {
        let words = format!(in alloc;
            "<p>Jobs made by hand, as kubectl create job --from does, of which no finding is: {count}</p>\n"
        )?;
        text.push_str(words.as_str())?;
    }
    Ok(())
}

/// The section of the findings.
pub(crate) fn push_found(
    alloc: Global,
    text: &mut String,
    cluster: &Cluster,
    findings: &[Finding],
    alone: bool,
) -> Result<(), Refusal>
    ensures err { IfErr result (λ e. e ≡ OutOfMemory) }
{
    text.push_str("<section id=\"findings\">\n<h2>Findings</h2>\n")?;
    push_alone(text, alone)?;
    if findings.is_empty() {
        text.push_str(
            "<p>None of what audit looks for: no Job is double, overlapping, early, undue or without its CronJob, no due time between Jobs lacks one, and no CronJob is stuck. A Job that failed is no finding, nor is a time missed since the last Job.</p>\n",
        )?;
    }
    push_groups(alloc, text, findings)?;
    push_beside(alloc, text, cluster)?;
    Ok(text.push_str("</section>\n")?)
}
