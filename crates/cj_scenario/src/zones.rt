// The zones of a scenario.
ghost use Rattle.std.specs.Prelude.{◌≡◌, List, IfOk, IfErr, OnOk, option_map};
ghost use Rattle.serde_json.specs.View.{view, members_view};
ghost use Rattle.cj_zone.specs.declared.zone.Zone.{Zone};
ghost use Rattle.cj_zone.specs.Table.{local_zone, zones_of};
ghost use Rattle.cj_manifest.specs.Members.{unless_null};
ghost use Rattle.cj_scenario.specs.Scenes as form;

use crate::fault::SceneFault;
use cj_io::{GivenZones, add_files};
use cj_types::Refusal;
use cj_zone::ZoneTable;
use serde_json::{Map, Value};

// Adds the zone of a rule at the end.
fn add_rule(table: &mut ZoneTable, name: &str, rule: &str) -> Result<(), SceneFault>
    ensures ok { OnOk result (form.AddsRule (zones_of table.old) name.now rule.now
        (zones_of table.new)) }
    ensures local { OnOk result (local_zone table.new ≡ local_zone table.old) }
    ensures refused { IfErr result (λ e. form.Refuses e ((zones more : List Zone) →
        form.names_of zones ≡ form.names_of (zones_of table.old) →
        form.AddsRule zones name.now rule.now more → ⊥)) }
{
    match table.add_rule(name, rule) {
        Ok(()) => Ok(()),
        Err(Refusal::Invalid(_)) => Err(SceneFault::Form),
        Err(_) => Err(SceneFault::Memory),
    }
}

// Adds the zone of a member, unless it is null.
fn add_member(table: &mut ZoneTable, name: &str, value: &Value) -> Result<(), SceneFault>
    ensures ok { OnOk result (form.AddsMember (zones_of table.old) name.now
        (unless_null (view value.now)) (zones_of table.new)) }
    ensures local { OnOk result (local_zone table.new ≡ local_zone table.old) }
    ensures refused { IfErr result (λ e. form.Refuses e ((zones more : List Zone) →
        form.names_of zones ≡ form.names_of (zones_of table.old) →
        form.AddsMember zones name.now (unless_null (view value.now)) more → ⊥)) }
{
    match value {
        Value::Null => Ok(()),
        Value::String(rule) => add_rule(table, name, rule.as_str()),
        _ => Err(SceneFault::Form),
    }
}

fn add_members(table: &mut ZoneTable, members: &Map<String, Value>) -> Result<(), SceneFault>
    ensures ok { OnOk result (form.AddsMembers (zones_of table.old)
        (members_view members.now.entries) (zones_of table.new)) }
    ensures local { OnOk result (local_zone table.new ≡ local_zone table.old) }
    ensures refused { IfErr result (λ e. form.Refuses e ((all : List Zone) →
        form.AddsMembers (zones_of table.old) (members_view members.now.entries) all → ⊥)) }
{
    for (name, member) in members.iter() {
        add_member(table, name.as_str(), member)?;
    }
    Ok(())
}

// Adds the zones of an object from names to POSIX rules, where there is one.
fn add_object(table: &mut ZoneTable, object: Option<&Value>) -> Result<(), SceneFault>
    ensures ok { OnOk result (form.AddsObject (zones_of table.old)
        (option_map (λ v. view v.now) object.entry) (zones_of table.new)) }
    ensures local { OnOk result (local_zone table.new ≡ local_zone table.old) }
    ensures refused { IfErr result (λ e. form.Refuses e ((all : List Zone) →
        form.AddsObject (zones_of table.old) (option_map (λ v. view v.now) object.entry) all → ⊥)) }
{
    match object {
        None => Ok(()),
        Some(found) => match found.as_object() {
            Some(members) => add_members(table, members),
            None => Err(SceneFault::Form),
        },
    }
}

/// The zones of the rules that are given, those of an object from names to POSIX rules, where there
/// is one, and those of the files that are given: `Form` where the object has another form or a
/// zone of it is refused. A file is passed over whose name isn't free. The local zone stays.
pub fn table_of(given: GivenZones<'_>, object: Option<&Value>) -> Result<ZoneTable, SceneFault>
    ensures ok { IfOk result (λ t. form.AreZones given.entry
        (option_map (λ v. view v.now) object.entry) (zones_of t)) }
    ensures local { IfOk result (λ t. local_zone t ≡ local_zone given.entry.rules) }
    ensures refused { IfErr result (λ e. form.Refuses e ((all : List Zone) →
        form.AreZones given.entry (option_map (λ v. view v.now) object.entry) all → ⊥)) }
{
    let GivenZones { rules, files } = given;
    let mut table = rules;
    add_object(&mut table, object)?;
    add_files(&mut table, files)?;
    Ok(table)
}
