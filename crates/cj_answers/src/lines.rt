// Lines of faults, of members that are dropped, and of a manifest without a fault.
ghost use Rattle.std.specs.Prelude.{◌≡◌, IfOk, string_bytes};
ghost use Rattle.cj_answers.specs.Lines.{fault_line, fault_lines, ok_line, warning_line, warning_lines};

use cj_audit::cause_text;
use cj_base::FieldFault;
use cj_manifest::Warning;
use cj_types::Key;
use std::alloc::{AllocError, Global};

/// A fault, on a line of its own.
pub fn print_fault(alloc: Global, fault: FieldFault) -> Result<String, AllocError>
    ensures { IfOk result (λ s. string_bytes s ≡ fault_line fault) }
{
    let FieldFault { field, cause } = fault;
    let path = field.path();
    let cause = cause_text(alloc, cause)?;
    let cause = cause.as_str();
    format!(in alloc; "refused 2 {path} {cause}\n")
}

/// A line for each fault.
pub fn print_faults(alloc: Global, faults: &[FieldFault]) -> Result<String, AllocError>
    ensures { IfOk result (λ s. string_bytes s ≡ fault_lines faults.now) }
{
    let mut text = String::new(alloc);
    for fault in faults {
        let line = print_fault(alloc, *fault)?;
        text.push_str(line.as_str())?;
    }
    Ok(text)
}

fn print_warning(alloc: Global, warning: &Warning) -> Result<String, AllocError>
    ensures { IfOk result (λ s. string_bytes s ≡ warning_line warning.now) }
{
    let path = warning.path();
    format!(in alloc; "warning {path}\n")
}

/// A line for each member that is dropped.
pub fn print_warnings(alloc: Global, warnings: &[Warning]) -> Result<String, AllocError>
    ensures { IfOk result (λ s. string_bytes s ≡ warning_lines warnings.now) }
{
    let mut text = String::new(alloc);
    for warning in warnings {
        let line = print_warning(alloc, warning)?;
        text.push_str(line.as_str())?;
    }
    Ok(text)
}

/// What a manifest without a fault is answered first.
pub fn print_ok(alloc: Global, kind: &str, key: &Key) -> Result<String, AllocError>
    ensures { IfOk result (λ s. string_bytes s ≡ ok_line kind.now key.now) }
{
    let namespace = key.namespace();
    let name = key.name();
    format!(in alloc; "ok {kind} {namespace}/{name}\n")
}
