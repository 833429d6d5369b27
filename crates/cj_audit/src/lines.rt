// The fixed lines of an audit.
ghost use Rattle.std.specs.Prelude.{◌≡◌, IfOk, IfErr, string_bytes};
ghost use Rattle.cj_base.specs.declared.refusal.Refusal.TheVariants.{OutOfMemory};
ghost use Rattle.cj_audit.specs.Lines.{audit_lines, beside_line, counts_line, early_line, finding_line, lines_of, missing_line, stray_line, stuck_line, twice_line, undue_line};

use crate::finding::Finding;
use crate::findings::Findings;
use crate::kind::FindingKind;
use cj_types::Refusal;
use cj_zone::time_text;
use std::alloc::{AllocError, Global};

fn twice_line(alloc: Global, finding: &Finding, time: &str) -> Result<String, AllocError>
    ensures { IfOk result (λ s. string_bytes s ≡ twice_line finding.now time.now) }
{
    let (namespace, cron) = (finding.namespace.as_str(), finding.cron.as_str());
    let (first, second) = (finding.first.as_str(), finding.second_name());
    format!(in alloc; "twice {namespace}/{cron} {time} {first} {second}\n")
}

fn beside_line(alloc: Global, finding: &Finding) -> Result<String, AllocError>
    ensures { IfOk result (λ s. string_bytes s ≡ beside_line finding.now) }
{
    let (namespace, cron) = (finding.namespace.as_str(), finding.cron.as_str());
    let (first, second) = (finding.first.as_str(), finding.second_name());
    format!(in alloc; "beside {namespace}/{cron} {first} {second}\n")
}

fn undue_line(alloc: Global, finding: &Finding, time: &str) -> Result<String, AllocError>
    ensures { IfOk result (λ s. string_bytes s ≡ undue_line finding.now time.now) }
{
    let (namespace, cron) = (finding.namespace.as_str(), finding.cron.as_str());
    let job = finding.first.as_str();
    format!(in alloc; "undue {namespace}/{cron} {job} {time}\n")
}

fn early_line(alloc: Global, finding: &Finding, time: &str) -> Result<String, AllocError>
    ensures { IfOk result (λ s. string_bytes s ≡ early_line finding.now time.now) }
{
    let (namespace, cron) = (finding.namespace.as_str(), finding.cron.as_str());
    let job = finding.first.as_str();
    format!(in alloc; "early {namespace}/{cron} {job} {time}\n")
}

fn missing_line(alloc: Global, finding: &Finding, time: &str) -> Result<String, AllocError>
    ensures { IfOk result (λ s. string_bytes s ≡ missing_line finding.now time.now) }
{
    let (namespace, cron) = (finding.namespace.as_str(), finding.cron.as_str());
    format!(in alloc; "missing {namespace}/{cron} {time}\n")
}

fn stray_line(alloc: Global, finding: &Finding) -> Result<String, AllocError>
    ensures { IfOk result (λ s. string_bytes s ≡ stray_line finding.now) }
{
    let (namespace, cron) = (finding.namespace.as_str(), finding.cron.as_str());
    let job = finding.first.as_str();
    format!(in alloc; "stray {namespace}/{job} {cron}\n")
}

fn stuck_line(alloc: Global, finding: &Finding) -> Result<String, AllocError>
    ensures { IfOk result (λ s. string_bytes s ≡ stuck_line finding.now) }
{
    let (namespace, cron) = (finding.namespace.as_str(), finding.cron.as_str());
    format!(in alloc; "stuck {namespace}/{cron}\n")
}

fn finding_line(alloc: Global, finding: &Finding) -> Result<String, Refusal>
    ensures ok { IfOk result (λ s. string_bytes s ≡ finding_line finding.now) }
    ensures memory { IfErr result (λ e. e ≡ OutOfMemory) }
{
    let time = time_text(alloc, finding.time)?;
    let time = time.as_str();
    let line = match finding.kind {
        FindingKind::Twice => twice_line(alloc, finding, time)?,
        FindingKind::Beside(_) => beside_line(alloc, finding)?,
        FindingKind::Undue => undue_line(alloc, finding, time)?,
        FindingKind::Early => early_line(alloc, finding, time)?,
        FindingKind::Missing => missing_line(alloc, finding, time)?,
        FindingKind::Stray => stray_line(alloc, finding)?,
        FindingKind::Stuck => stuck_line(alloc, finding)?,
    };
    Ok(line)
}

fn lines_of(alloc: Global, findings: &[Finding]) -> Result<String, Refusal>
    ensures ok { IfOk result (λ s. string_bytes s ≡ lines_of findings.now) }
    ensures memory { IfErr result (λ e. e ≡ OutOfMemory) }
{
    let mut text = String::new(alloc);
    for finding in findings {
        let line = finding_line(alloc, finding)?;
        text.push_str(line.as_str())?;
    }
    Ok(text)
}

fn counts_line(
    alloc: Global,
    crons: usize,
    jobs: usize,
    findings: usize,
) -> Result<String, AllocError>
    ensures { IfOk result (λ s. string_bytes s ≡ counts_line crons jobs findings) }
{
    format!(in alloc; "{crons} cron jobs, {jobs} jobs, {findings} findings\n")
}

/// A line for each finding, in their order, and one that counts the CronJobs and Jobs looked at and
/// the findings.
pub fn audit_text(
    alloc: Global,
    crons: usize,
    jobs: usize,
    findings: &Findings,
) -> Result<String, Refusal>
    ensures ok { IfOk result (λ s. string_bytes s ≡ audit_lines crons jobs findings.now) }
    ensures memory { IfErr result (λ e. e ≡ OutOfMemory) }
{
    let findings = findings.as_slice();
    let mut text = lines_of(alloc, findings)?;
    let counts = counts_line(alloc, crons, jobs, findings.len())?;
    text.push_str(counts.as_str())?;
    Ok(text)
}
