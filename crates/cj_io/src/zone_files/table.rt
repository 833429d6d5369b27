// The table of zones that rules and files give.
ghost use Rattle.std.specs.Prelude.{◌≡◌, List, Some, codes, map, IfOk, IfErr, OnOk};
ghost use Rattle.cj_base.specs.declared.refusal.Refusal.TheVariants.{OutOfMemory};
ghost use Rattle.cj_zone.specs.declared.zone.Zone.{Zone};
ghost use Rattle.cj_zone.specs.Table.{local_zone, zones_of};
ghost use Rattle.cj_zone.specs.Zones.{utc_zone};
ghost use Rattle.cj_io.specs.zone_files.Rules.{AddsRule, AddsRules, IsNoRule, Refuses};
ghost use Rattle.cj_io.specs.zone_files.Files.{AddsFile, AddsFiles, IsTableWith};

use crate::zone_files::file::ZoneFile;
use crate::zone_files::pair::split_pair;
use crate::zone_files::refused::Refused;
use cj_base::Refusal;
use cj_zone::ZoneTable;
use std::alloc::Global;

// The zone of a rule more, at the end.
fn add_rule(table: &mut ZoneTable, pair: &str) -> Result<(), Refused>
    ensures ok { OnOk result (AddsRule (zones_of table.old) pair.now (zones_of table.new)) }
    ensures local { OnOk result (local_zone table.new ≡ local_zone table.old) }
    ensures refused { IfErr result (λ e. Refuses e (IsNoRule (zones_of table.old) pair.now)) }
{
    let Some((name, rule)) = split_pair(pair) else {
        return Err(Refused::Zone);
    };
    match table.add_rule(name, rule) {
        Ok(()) => Ok(()),
        Err(Refusal::Invalid(_)) => Err(Refused::Zone),
        Err(_) => Err(Refused::Memory),
    }
}

fn add_rules(table: &mut ZoneTable, rules: &[&str]) -> Result<(), Refused>
    ensures ok { OnOk result (AddsRules (zones_of table.old) (map (λ r. r.now) rules.entry.now)
        (zones_of table.new)) }
    ensures local { OnOk result (local_zone table.new ≡ local_zone table.old) }
    ensures refused { IfErr result (λ e. Refuses e ((all : List Zone) →
        AddsRules (zones_of table.old) (map (λ r. r.now) rules.entry.now) all → ⊥)) }
{
    for rule in rules {
        add_rule(table, rule)?;
    }
    Ok(())
}

// The zone of a file more, at the end, unless its name isn't free or its bytes are no zone file.
fn add_file(table: &mut ZoneTable, file: &ZoneFile) -> Result<(), Refusal>
    ensures ok { OnOk result (AddsFile (zones_of table.old) file.now (zones_of table.new)) }
    ensures local { OnOk result (local_zone table.new ≡ local_zone table.old) }
    ensures memory { IfErr result (λ e. e ≡ OutOfMemory) }
{
    match table.add_file(file.name.as_str(), file.bytes.as_slice()) {
        Ok(()) => Ok(()),
        Err(Refusal::Invalid(_)) => Ok(()),
        Err(_) => Err(Refusal::OutOfMemory),
    }
}

/// The zones of the files more, one after another: one whose name is refused, or that is no zone
/// file, is passed over.
pub fn add_files(table: &mut ZoneTable, files: &[ZoneFile]) -> Result<(), Refusal>
    ensures ok { OnOk result (AddsFiles (zones_of table.old) files.now (zones_of table.new)) }
    ensures local { OnOk result (local_zone table.new ≡ local_zone table.old) }
    ensures memory { IfErr result (λ e. e ≡ OutOfMemory) }
{
    for file in files {
        add_file(table, file)?;
    }
    Ok(())
}

/// UTC, the zones of the rules, each NAME=RULE split at its first `=`, and those of the files. UTC
/// is the local zone.
///
/// `Zone` where a rule has no `=`, or its name is empty, `Local` or there already, or `jiff`
/// refuses it. A file whose name is refused so, or that is no zone file, is passed over: a rule
/// wins over a file, the first file over a later one.
pub fn table_with(alloc: Global, rules: &[&str], files: &[ZoneFile]) -> Result<ZoneTable, Refused>
    ensures ok { IfOk result (λ t. IsTableWith (map (λ r. r.now) rules.entry.now) files.now
        (zones_of t)) }
    ensures local { IfOk result (λ t. local_zone t ≡ Some (utc_zone (codes "UTC"))) }
    ensures refused { IfErr result (λ e. Refuses e ((zones : List Zone) →
        IsTableWith (map (λ r. r.now) rules.entry.now) files.now zones → ⊥)) }
{
    let mut table = ZoneTable::new(alloc)?;
    add_rules(&mut table, rules)?;
    add_files(&mut table, files)?;
    Ok(table)
}
