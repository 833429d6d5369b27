// Lists of names, with commas between them.
ghost use Rattle.std.specs.Prelude.{◌≡◌, ◌++◌, IfOk, IfErr, OnOk, string_bytes};
ghost use Rattle.cj_base.specs.declared.refusal.Refusal.TheVariants.{OutOfMemory};
ghost use Rattle.cj_report.specs.history.Fields as said;

use cj_status::JobRef;
use cj_types::{ObjectName, Reason, Refusal};
use std::alloc::{AllocError, Global};

fn push_names(text: &mut String, names: &[ObjectName]) -> Result<(), AllocError>
    ensures { OnOk result (string_bytes text.new
        ≡ string_bytes text.old ++ said.more_names names.now) }
{
    for name in names {
        text.push_str(",")?;
        text.push_str(name.as_str())?;
    }
    Ok(())
}

pub(crate) fn names_word(alloc: Global, names: &[ObjectName]) -> Result<String, Refusal>
    ensures ok { IfOk result (λ s. string_bytes s ≡ said.names_word names.now) }
    ensures err { IfErr result (λ e. e ≡ OutOfMemory) }
{
    let [first, others @ ..] = names else {
        return Ok(String::from_str(alloc, "-")?);
    };
    let mut text = String::from_str(alloc, first.as_str())?;
    push_names(&mut text, others)?;
    Ok(text)
}

fn push_refs(text: &mut String, jobs: &[JobRef]) -> Result<(), AllocError>
    ensures { OnOk result (string_bytes text.new
        ≡ string_bytes text.old ++ said.more_refs jobs.now) }
{
    for job in jobs {
        text.push_str(",")?;
        text.push_str(job.key.name())?;
    }
    Ok(())
}

pub(crate) fn refs_word(alloc: Global, jobs: &[JobRef]) -> Result<String, Refusal>
    ensures ok { IfOk result (λ s. string_bytes s ≡ said.refs_word jobs.now) }
    ensures err { IfErr result (λ e. e ≡ OutOfMemory) }
{
    let [first, others @ ..] = jobs else {
        return Ok(String::from_str(alloc, "-")?);
    };
    let mut text = String::from_str(alloc, first.key.name())?;
    push_refs(&mut text, others)?;
    Ok(text)
}

fn push_reasons(text: &mut String, reasons: &[Reason]) -> Result<(), AllocError>
    ensures { OnOk result (string_bytes text.new
        ≡ string_bytes text.old ++ said.more_reasons reasons.now) }
{
    for reason in reasons {
        text.push_str(",")?;
        text.push_str(reason.name())?;
    }
    Ok(())
}

/// The reasons by their names, with commas between them, or `-` where there is none.
pub(crate) fn reasons_word(alloc: Global, reasons: &[Reason]) -> Result<String, Refusal>
    ensures ok { IfOk result (λ s. string_bytes s ≡ said.reasons_word reasons.now) }
    ensures err { IfErr result (λ e. e ≡ OutOfMemory) }
{
    let [first, others @ ..] = reasons else {
        return Ok(String::from_str(alloc, "-")?);
    };
    let mut text = String::from_str(alloc, first.name())?;
    push_reasons(&mut text, others)?;
    Ok(text)
}
