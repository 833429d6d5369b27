// The zone that the words of a command on one schedule ask for.
ghost use Rattle.std.specs.Prelude.{◌≡◌, ◌⊎◌, IfErr, IfOk, None, Some, codes};
ghost use Rattle.cj_base.specs.declared.refusal.Refusal.TheVariants.{OutOfMemory};
ghost use Rattle.cj_zone.specs.declared.zone.Zone.{Zone};
ghost use Rattle.cj_zone.specs.Table.{local_zone};
ghost use Rattle.cj_zone.specs.Zones.{utc_zone};
ghost use Rattle.cj_answers.specs.Zoning.{IsLookedUp, IsNoRuled, IsNoSole, IsNoWord, IsNoZoneFor, IsNoZoneOf, IsRuled, IsSole, IsWord, IsZoneFor, IsZoneOf, has_file};

use cj_base::Refusal;
use cj_io::{ZoneFile, table_with};
use cj_zone::ZoneTable;
use std::alloc::Global;

// A table whose local zone is UTC.
fn utc(alloc: Global) -> Result<ZoneTable, Refusal>
    ensures ok { IfOk result (λ table. (zone : Zone) → local_zone table ≡ Some zone →
        zone ≡ utc_zone (codes "UTC")) }
    ensures err { IfErr result (λ e. e ≡ OutOfMemory) }
{
    ZoneTable::new(alloc)
}

// One whose local zone is the one of that name and that rule.
fn zones_of_rule(alloc: Global, name: &str, rule: &str) -> Result<ZoneTable, Refusal>
    ensures ok { IfOk result (λ table. (zone : Zone) → local_zone table ≡ Some zone →
        IsRuled name.now rule.now zone) }
    ensures err { IfErr result (λ e. (e ≡ OutOfMemory) ⊎ IsNoRuled name.now rule.now) }
{
    let mut table = ZoneTable::new(alloc)?;
    table.add_rule(name, rule)?;
    table.set_local(name)?;
    Ok(table)
}

// One whose local zone is the one of that name among those of the files.
fn zones_of_name(alloc: Global, name: &str, files: &[ZoneFile]) -> Result<ZoneTable, Refusal>
    ensures ok { IfOk result (λ table. (zone : Zone) → local_zone table ≡ Some zone →
        IsLookedUp name.now files.now (Some zone)) }
    ensures err { IfErr result (λ e. (e ≡ OutOfMemory) ⊎ IsLookedUp name.now files.now None) }
{
    let Ok(mut table) = table_with(alloc, &[], files) else {
        return Err(Refusal::OutOfMemory);
    };
    table.set_local(name)?;
    Ok(table)
}

fn has_file(name: &str, files: &[ZoneFile]) -> bool
    ensures { result ≡ has_file name.now files.now }
{
    files.iter().any(|file| file.name.as_str() == name)
}

// One whose local zone is that of a rule, or else of a name.
fn zones_of_sole(alloc: Global, word: &str, files: &[ZoneFile]) -> Result<ZoneTable, Refusal>
    ensures ok { IfOk result (λ table. (zone : Zone) → local_zone table ≡ Some zone →
        IsSole (has_file word.now files.now) word.now files.now zone) }
    ensures err { IfErr result (λ e. (e ≡ OutOfMemory)
        ⊎ IsNoSole (has_file word.now files.now) word.now files.now) }
{
    if has_file(word, files) {
        zones_of_name(alloc, word, files)
    } else {
        zones_of_rule(alloc, word, word)
    }
}

// One whose local zone is that of NAME=RULE, of a rule, or of a name.
fn zones_of_word(alloc: Global, word: &str, files: &[ZoneFile]) -> Result<ZoneTable, Refusal>
    ensures ok { IfOk result (λ table. (zone : Zone) → local_zone table ≡ Some zone →
        IsWord word.now files.now zone) }
    ensures err { IfErr result (λ e. (e ≡ OutOfMemory) ⊎ IsNoWord word.now files.now) }
{
    match word.split_once('=') {
        Some((name, rule)) => zones_of_rule(alloc, name, rule),
        None => zones_of_sole(alloc, word, files),
    }
}

// One of the word, or of UTC where that is the word or there is none.
fn zones_of(alloc: Global, word: Option<&str>, files: &[ZoneFile]) -> Result<ZoneTable, Refusal>
    ensures ok { IfOk result (λ table. (zone : Zone) → local_zone table ≡ Some zone →
        IsZoneOf word.entry files.now zone) }
    ensures err { IfErr result (λ e. (e ≡ OutOfMemory) ⊎ IsNoZoneOf word.entry files.now) }
{
    match word {
        Some(word) if word != "UTC" => zones_of_word(alloc, word, files),
        _ => utc(alloc),
    }
}

/// A table whose local zone is the one that is asked for by `--time-zone` or by `--zone`.
pub fn zones_for(
    alloc: Global,
    name: Option<&str>,
    word: Option<&str>,
    files: &[ZoneFile],
) -> Result<ZoneTable, Refusal>
    ensures ok { IfOk result (λ table. (zone : Zone) → local_zone table ≡ Some zone →
        IsZoneFor name.entry word.entry files.now zone) }
    ensures err { IfErr result (λ e. (e ≡ OutOfMemory)
        ⊎ IsNoZoneFor name.entry word.entry files.now) }
{
    match (name, word) {
        (None, word) => zones_of(alloc, word, files),
        (Some(name), None) => zones_of_name(alloc, name, files),
        (Some(_), Some(_)) => Err(Refusal::NotFound),
    }
}
