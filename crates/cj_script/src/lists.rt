// The values of a list, read one after another.
ghost use Rattle.std.specs.Prelude.{◌≡◌, ◌≢◌, ◌≤◌, Result, Ok, Err, [], IfOk, IfErr, OnOk};
ghost use Rattle.serde_json.specs.Data.{Data, depth, items_depth};
ghost use Rattle.serde_json.specs.Read.{max_depth};
ghost use Rattle.serde_json.specs.View.{view, items_view};
ghost use Rattle.cj_scenario.specs.declared.fault.SceneFault.{SceneFault};
ghost use Rattle.cj_scenario.specs.declared.fault.SceneFault.TheVariants.{Memory};
ghost use Rattle.cj_script.specs.Lists.{Gathers, Stops, all_of, joined};

use cj_scenario::SceneFault;
use cj_types::FieldFault;
use serde_json::Value;
use std::alloc::Global;

/// How each value of a list is read, as `said` states it: `Form` where it has another form, else
/// its manifest's first fault.
pub(crate) trait Reads {
    type Item: Drop;

    ghost said: { Self → Data → Result Self.Item SceneFault };

    /// Reads one value.
    fn read(&self, alloc: Global, value: &Value) -> Result<Self::Item, SceneFault>
        requires flat { depth (view value.now) ≤ max_depth }
        ensures ok { IfOk result (λ x. said self.now (view value.now) ≡ Ok x) }
        ensures err { IfErr result (λ e. e ≢ Memory → said self.now (view value.now) ≡ Err e) };
}

// The items so far, and the first fault of a manifest among them.
#[derive(Drop)]
struct Gathered<A> {
    items: Vec<A>,
    fault: Option<FieldFault>,
}

// Adds the item of a value, or its fault where it is the first fault.
#[tactic(auto, using(crate::proofs::Joins::gathers_item, crate::proofs::Joins::gathers_fault, crate::proofs::Joins::stops_form, crate::proofs::Joins::stops_syntax))]
fn gather<R: Reads>(
    alloc: Global,
    reader: &R,
    gathered: &mut Gathered<R::Item>,
    value: &Value,
) -> Result<(), SceneFault>
    requires flat { depth (view value.now) ≤ max_depth }
    ensures ok { OnOk result (Gathers gathered.old.items.items gathered.old.fault
        (R.said reader.now (view value.now)) gathered.new.items.items gathered.new.fault) }
    ensures err { IfErr result (λ e. e ≢ Memory →
        Stops gathered.old.items.items gathered.old.fault (R.said reader.now (view value.now)) e) }
{
    match reader.read(alloc, value) {
        Ok(item) => gathered.items.push(item).map_err(|_| SceneFault::Memory),
        Err(SceneFault::Manifest(fault)) => {
            gathered.fault = Some(gathered.fault.unwrap_or(fault));
            Ok(())
        }
        Err(SceneFault::Form) => Err(SceneFault::Form),
        Err(SceneFault::Syntax) => Err(SceneFault::Syntax),
        Err(SceneFault::Memory) => Err(SceneFault::Memory),
    }
}

fn gathered_of<R: Reads>(
    alloc: Global,
    reader: &R,
    values: &Vec<Value>,
) -> Result<Gathered<R::Item>, SceneFault>
    requires flat { items_depth (items_view values.now.items) ≤ max_depth }
    ensures ok { IfOk result (λ g. joined g.items.items g.fault (Ok [])
        ≡ all_of (R.said reader.now) (items_view values.now.items)) }
    ensures err { IfErr result (λ e. e ≢ Memory →
        all_of (R.said reader.now) (items_view values.now.items) ≡ Err e) }
{
    let mut gathered = Gathered {
        items: Vec::new(alloc),
        fault: None,
    };
    for value in values {
        gather(alloc, reader, &mut gathered, value)?;
    }
    Ok(gathered)
}

/// What the values of a list say: `Form` where one of them has another form, else the first fault
/// of a manifest.
pub(crate) fn list_of<R: Reads>(
    alloc: Global,
    reader: &R,
    values: &Vec<Value>,
) -> Result<Vec<R::Item>, SceneFault>
    requires flat { items_depth (items_view values.now.items) ≤ max_depth }
    ensures ok { IfOk result (λ xs. all_of (R.said reader.now) (items_view values.now.items)
        ≡ Ok xs.items) }
    ensures err { IfErr result (λ e. e ≢ Memory →
        all_of (R.said reader.now) (items_view values.now.items) ≡ Err e) }
{
    let Gathered { items, fault } = gathered_of(alloc, reader, values)?;
    match fault {
        Some(fault) => Err(SceneFault::Manifest(fault)),
        None => Ok(items),
    }
}
