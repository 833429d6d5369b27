// What is said of findings for people.
ghost use Rattle.std.specs.Prelude.{◌≡◌, IfOk, IfErr, string_bytes};
ghost use Rattle.cj_base.specs.declared.refusal.Refusal.TheVariants.{OutOfMemory};
ghost use Rattle.cj_audit.specs.Words.{audit_words, beside_words, early_words, finding_words, missing_end, missing_words, policy_words, stray_end, stray_words, stuck_end, stuck_words, twice_words, undue_words};

use crate::finding::Finding;
use crate::findings::Findings;
use crate::kind::{Exclusive, FindingKind};
use cj_types::Refusal;
use cj_zone::time_text;
use std::alloc::{AllocError, Global};

#[tactic(auto, unfolding(crate::specs::Words::twice_words))]
fn twice_words(alloc: Global, finding: &Finding, time: &str) -> Result<String, AllocError>
    ensures { IfOk result (λ s. string_bytes s ≡ twice_words finding.now time.now) }
{
    let (namespace, cron) = (finding.namespace.as_str(), finding.cron.as_str());
    format!(in alloc; "twice {namespace}/{cron}: two Jobs were made for {time}\n")
}

#[tactic(auto, unfolding(crate::specs::Words::policy_words))]
fn policy_words(exclusive: Exclusive) -> &'static str
    ensures { result.now ≡ policy_words exclusive }
{
    match exclusive {
        Exclusive::UnderForbid => {
            "; spec.concurrencyPolicy is Forbid now, and may have been another then\n"
        }
        Exclusive::UnderReplace => {
            "; spec.concurrencyPolicy is Replace now, and may have been another then\n"
        }
    }
}

#[tactic(auto, unfolding(crate::specs::Words::beside_words))]
fn beside_words(
    alloc: Global,
    exclusive: Exclusive,
    finding: &Finding,
    time: &str,
) -> Result<String, AllocError>
    ensures { IfOk result (λ s. string_bytes s ≡ beside_words exclusive finding.now time.now) }
{
    let (namespace, cron) = (finding.namespace.as_str(), finding.cron.as_str());
    let (first, second) = (finding.first.as_str(), finding.second_name());
    let policy = policy_words(exclusive);
    format!(in alloc;
        "beside {namespace}/{cron}: {second} was created at {time}, while {first} ran{policy}"
    )
}

#[tactic(auto, unfolding(crate::specs::Words::undue_words))]
fn undue_words(alloc: Global, finding: &Finding, time: &str) -> Result<String, AllocError>
    ensures { IfOk result (λ s. string_bytes s ≡ undue_words finding.now time.now) }
{
    let (namespace, cron) = (finding.namespace.as_str(), finding.cron.as_str());
    format!(in alloc;
        "undue {namespace}/{cron}: its schedule isn't due at {time}; it may have been another then, or the controller went by another clock than UTC, as it may without spec.timeZone\n"
    )
}

#[tactic(auto, unfolding(crate::specs::Words::early_words))]
fn early_words(alloc: Global, finding: &Finding, time: &str) -> Result<String, AllocError>
    ensures { IfOk result (λ s. string_bytes s ≡ early_words finding.now time.now) }
{
    let (namespace, cron) = (finding.namespace.as_str(), finding.cron.as_str());
    let job = finding.first.as_str();
    format!(in alloc;
        "early {namespace}/{cron}: {job} was created before {time}, by a clock that is ahead\n"
    )
}

#[tactic(auto, unfolding(crate::specs::Words::missing_end))]
fn missing_end() -> &'static str
    ensures { result.now ≡ missing_end }
{
    "; the controller may have been down, or the Job was deleted, by somebody or by its TTL, or the CronJob was changed or suspended for a while\n"
}

#[tactic(auto, unfolding(crate::specs::Words::missing_words))]
fn missing_words(alloc: Global, finding: &Finding, time: &str) -> Result<String, AllocError>
    ensures { IfOk result (λ s. string_bytes s ≡ missing_words finding.now time.now) }
{
    let (namespace, cron) = (finding.namespace.as_str(), finding.cron.as_str());
    let end = missing_end();
    format!(in alloc;
        "missing {namespace}/{cron}: no Job stands for {time}, though later ones do{end}"
    )
}

#[tactic(auto, unfolding(crate::specs::Words::stray_end))]
fn stray_end() -> &'static str
    ensures { result.now ≡ stray_end }
{
    " that isn't in the list, or one of that name made anew\n"
}

#[tactic(auto, unfolding(crate::specs::Words::stray_words))]
fn stray_words(alloc: Global, finding: &Finding) -> Result<String, AllocError>
    ensures { IfOk result (λ s. string_bytes s ≡ stray_words finding.now) }
{
    let (namespace, cron) = (finding.namespace.as_str(), finding.cron.as_str());
    let job = finding.first.as_str();
    let end = stray_end();
    format!(in alloc; "stray {namespace}/{job}: its controller is a CronJob {cron}{end}")
}

#[tactic(auto, unfolding(crate::specs::Words::stuck_end))]
fn stuck_end() -> &'static str
    ensures { result.now ≡ stuck_end }
{
    ": a reference in status.active has no name, so each sync of Kubernetes' controller fails, and nothing starts; take it out by kubectl edit --subresource=status cronjob "
}

#[tactic(auto, unfolding(crate::specs::Words::stuck_words))]
fn stuck_words(alloc: Global, finding: &Finding) -> Result<String, AllocError>
    ensures { IfOk result (λ s. string_bytes s ≡ stuck_words finding.now) }
{
    let (namespace, cron) = (finding.namespace.as_str(), finding.cron.as_str());
    let end = stuck_end();
    format!(in alloc; "stuck {namespace}/{cron}{end}{cron} -n {namespace}\n")
}

/// What a finding means, a line.
pub fn finding_words(alloc: Global, finding: &Finding) -> Result<String, Refusal>
    ensures ok { IfOk result (λ s. string_bytes s ≡ finding_words finding.now) }
    ensures memory { IfErr result (λ e. e ≡ OutOfMemory) }
{
    let time = time_text(alloc, finding.time)?;
    let time = time.as_str();
    let line = match finding.kind {
        FindingKind::Twice => twice_words(alloc, finding, time)?,
        FindingKind::Beside(exclusive) => beside_words(alloc, exclusive, finding, time)?,
        FindingKind::Undue => undue_words(alloc, finding, time)?,
        FindingKind::Early => early_words(alloc, finding, time)?,
        FindingKind::Missing => missing_words(alloc, finding, time)?,
        FindingKind::Stray => stray_words(alloc, finding)?,
        FindingKind::Stuck => stuck_words(alloc, finding)?,
    };
    Ok(line)
}

/// What each finding means, a line for each, in their order.
pub fn audit_words(alloc: Global, findings: &Findings) -> Result<String, Refusal>
    ensures ok { IfOk result (λ s. string_bytes s ≡ audit_words findings.now) }
    ensures memory { IfErr result (λ e. e ≡ OutOfMemory) }
{
    let mut text = String::new(alloc);
    for finding in findings.as_slice() {
        let line = finding_words(alloc, finding)?;
        text.push_str(line.as_str())?;
    }
    Ok(text)
}
