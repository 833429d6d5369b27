// The zones of a call.
ghost use Rattle.std.specs.Prelude.{◌≡◌, IfOk, IfErr, Some, [], ℕ, List, codes, string_bytes};
ghost use Rattle.cj_base.specs.declared.refusal.Refusal.TheVariants.{OutOfMemory};
ghost use Rattle.cj_zone.specs.Table.{local_zone, zones_of};
ghost use Rattle.cj_zone.specs.Zones.{utc_zone};
ghost use Rattle.cj_c.specs.answers.Zones.{AreZonesOf, IsBare, IsNoZones, IsZonesRefusal};

use crate::answers::text::one_fault_text;
use cj_base::Refusal;
use cj_io::GivenZones;
use cj_scenario::{SceneFault, table_of, value_of};
use cj_zone::ZoneTable;
use std::alloc::Global;

/// UTC alone.
pub(crate) fn bare(alloc: Global) -> Result<GivenZones<'static>, Refusal>
    ensures ok { IfOk result (λ g. IsBare g) }
    ensures err { IfErr result (λ e. e ≡ OutOfMemory) }
{
    let rules = ZoneTable::new(alloc)?;
    Ok(GivenZones { rules, files: &[] })
}

// UTC and the zones of an object.
fn zones_in(alloc: Global, given: GivenZones<'_>, bytes: &[u8]) -> Result<ZoneTable, SceneFault>
    requires { IsBare given }
    ensures ok { IfOk result (λ t. AreZonesOf bytes.now (zones_of t)) }
    ensures local { IfOk result (λ t. local_zone t ≡ Some (utc_zone (codes "UTC"))) }
    ensures err { IfErr result (IsNoZones bytes.now) }
{
    let value = value_of(alloc, bytes)?;
    table_of(given, Some(&value))
}

fn no_zones(given: GivenZones<'_>) -> Result<ZoneTable, SceneFault>
    requires { IsBare given }
    ensures ok { IfOk result (λ t. AreZonesOf [] (zones_of t)) }
    ensures local { IfOk result (λ t. local_zone t ≡ Some (utc_zone (codes "UTC"))) }
    ensures err { IfErr result (IsNoZones []) }
{
    table_of(given, None)
}

/// UTC and the zones of an object from names to POSIX rules; UTC alone where there is no text.
pub(crate) fn zones_of_text(alloc: Global, bytes: &[u8]) -> Result<ZoneTable, SceneFault>
    ensures ok { IfOk result (λ t. AreZonesOf bytes.now (zones_of t)) }
    ensures local { IfOk result (λ t. local_zone t ≡ Some (utc_zone (codes "UTC"))) }
    ensures err { IfErr result (IsNoZones bytes.now) }
{
    let given = bare(alloc)?;
    if bytes.is_empty() {
        no_zones(given)
    } else {
        zones_in(alloc, given, bytes)
    }
}

/// The text for zones that are refused.
pub(crate) fn refused_zones(alloc: Global, fault: SceneFault) -> Result<String, Refusal>
    ensures told { (bytes : List ℕ) → IsNoZones bytes fault →
        IfOk result (λ s. IsZonesRefusal bytes (string_bytes s)) }
    ensures err { IfErr result (λ e. e ≡ OutOfMemory) }
{
    let cause = match fault {
        SceneFault::Syntax => "Syntax",
        SceneFault::Memory => return Err(Refusal::OutOfMemory),
        _ => "Zone",
    };
    one_fault_text(alloc, cause, "zones")
}
