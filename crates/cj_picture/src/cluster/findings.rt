// What is wrong with a cluster's Jobs, in their lanes.
ghost use Rattle.std.specs.Prelude.{◌≡◌, IfErr};
ghost use Rattle.cj_base.specs.declared.refusal.Refusal.TheVariants.{OutOfMemory};

use crate::crosses::{Cross, add_cross};
use crate::lanes::Lane;
use crate::svg::escaped;
use cj_audit::{Finding, FindingKind, finding_words};
use cj_types::{Key, Refusal};
use std::alloc::{AllocError, Global};
use std::collections::BTreeSet;

fn note_one(
    alloc: Global,
    ill: &mut BTreeSet<Key>,
    namespace: &str,
    name: &str,
) -> Result<(), Refusal>
    ensures err { IfErr result (λ e. e ≡ OutOfMemory) }
{
    match Key::new(alloc, namespace, name) {
        Ok(key) => {
            ill.insert(key).map_err(|_| Refusal::OutOfMemory)?;
            Ok(())
        }
        Err(Refusal::OutOfMemory) => Err(Refusal::OutOfMemory),
        Err(_) => Ok(()),
    }
}

fn note(alloc: Global, ill: &mut BTreeSet<Key>, finding: &Finding) -> Result<(), Refusal>
    ensures err { IfErr result (λ e. e ≡ OutOfMemory) }
{
    let namespace = finding.namespace.as_str();
    note_one(alloc, ill, namespace, finding.first.as_str())?;
    match &finding.second {
        Some(second) => note_one(alloc, ill, namespace, second.as_str()),
        None => Ok(()),
    }
}

/// The keys of the Jobs with which something is wrong.
pub(crate) fn ill_jobs(alloc: Global, findings: &[Finding]) -> Result<BTreeSet<Key>, Refusal>
    ensures err { IfErr result (λ e. e ≡ OutOfMemory) }
{
    let mut ill = BTreeSet::new(alloc);
    for finding in findings {
        note(alloc, &mut ill, finding)?;
    }
    Ok(ill)
}

// What a finding means, without the line's end.
fn words_of(alloc: Global, finding: &Finding) -> Result<String, Refusal>
    ensures err { IfErr result (λ e. e ≡ OutOfMemory) }
{
    let words = finding_words(alloc, finding)?;
    let words = words.as_str();
    escaped(alloc, words.split_once('\n').unwrap_or((words, "")).0)
}

fn push(
    alloc: Global,
    lanes: &mut [Lane],
    crosses: &mut Vec<Cross>,
    finding: &Finding,
) -> Result<(), Refusal>
    ensures err { IfErr result (λ e. e ≡ OutOfMemory) }
{
    let title = words_of(alloc, finding)?;
    let (namespace, cron) = (finding.namespace.as_str(), finding.cron.as_str());
    add_cross(lanes, crosses, namespace, cron, finding.time, title)
}

/// A cross for each finding in the lane of its CronJob; strays have none.
pub(crate) fn crosses_in(
    alloc: Global,
    lanes: &mut [Lane],
    findings: &[Finding],
) -> Result<Vec<Cross>, Refusal>
    ensures err { IfErr result (λ e. e ≡ OutOfMemory) }
{
    let mut crosses = Vec::new(alloc);
    for finding in findings {
        if finding.kind != FindingKind::Stray {
            push(alloc, lanes, &mut crosses, finding)?;
        }
    }
    Ok(crosses)
}

/// How many findings there are, and how many of them are strays: a line.
pub(crate) fn summary(alloc: Global, findings: &[Finding]) -> Result<String, AllocError> {
    let mut strays: u64 = 0;
    for finding in findings {
        if finding.kind == FindingKind::Stray {
            strays = strays.saturating_add(1);
        }
    }
    let all = findings.len();
    format!(in alloc;
        "Findings: {all}; of them Jobs whose CronJob isn't in the list, which have no lane: {strays}\n"
    )
}
