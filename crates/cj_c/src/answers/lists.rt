// The list of a cluster's objects that a call is given.
ghost use Rattle.std.specs.Prelude.{◌≡◌, ◌≢◌, IfOk, IfErr, string_bytes};
ghost use Rattle.cj_base.specs.declared.refusal.Refusal.TheVariants.{OutOfMemory};
ghost use Rattle.cj_cluster.specs.declared.kubectl.fault.ListFault.TheVariants.{Memory};
ghost use Rattle.serde_json.specs.View.{view};
ghost use Rattle.cj_c.specs.answers.Lists.{list_fault_data};
ghost use Rattle.cj_c.specs.answers.Texts.{IsJsonText};

use crate::answers::text::json_text;
use cj_audit::one_fault;
use cj_base::Refusal;
use cj_cluster::ListFault;
use serde_json::Value;
use std::alloc::Global;

fn fault_value(alloc: Global, fault: ListFault) -> Result<Value, Refusal>
    ensures ok { IfOk result (λ v. (fault ≢ Memory) × (view v ≡ list_fault_data fault)) }
    ensures err { IfErr result (λ e. e ≡ OutOfMemory) }
{
    match fault {
        ListFault::Syntax => one_fault(alloc, "Syntax", "$"),
        ListFault::Form => one_fault(alloc, "Form", "$"),
        ListFault::Memory => Err(Refusal::OutOfMemory),
    }
}

/// The text for bytes that are no list.
pub(crate) fn refused_list(alloc: Global, fault: ListFault) -> Result<String, Refusal>
    ensures ok { IfOk result (λ s. (fault ≢ Memory)
        × IsJsonText (list_fault_data fault) (string_bytes s)) }
    ensures err { IfErr result (λ e. e ≡ OutOfMemory) }
{
    let value = fault_value(alloc, fault)?;
    json_text(alloc, &value)
}
