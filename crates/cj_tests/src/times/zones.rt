use cj_base::{Cause, Civil, Field, FieldFault, Refusal, Same, TryCopy};
use cj_zone::{Zone, ZoneTable, local, read_time};
use std::alloc::Global;

const MIDDLE_EUROPE: &str = "CET-1CEST,M3.5.0,M10.5.0/3";

// What `zic -b slim` makes of 5:41:16 to 1920, 5:30 to 1986 and 5:45 since.
const KATHMANDU: &[u8] =
    b"TZif2\0\0\0\0\0\0\0\0\0\0\0\0\0\0\0\0\0\0\0\0\0\0\0\0\0\0\0\0\0\0\0\0\0\0\x01\0\0\0\x01\0\0\0\0\0\0\0TZif2\0\0\0\0\0\0\0\0\0\0\0\0\0\0\0\0\0\0\0\0\0\0\0\0\0\0\0\0\0\0\x02\0\0\0\x03\0\0\0\x10\xff\xff\xff\xff\xa1\xf2}\x84\0\0\0\0\x1e\x180\xa8\x01\x02\0\0O\xfc\0\0\0\0MX\0\x04\0\0P\xdc\0\nLMT\0+0530\0+0545\0\n<+0545>-5:45\n";

// The one fault that every refusal of a zone names.
fn is_zone_fault(answer: Result<(), Refusal>) -> bool {
    match answer {
        Err(Refusal::Invalid(faults)) => {
            faults.as_slice()
                == [FieldFault {
                    field: Field::Zones,
                    cause: Cause::Zone,
                }]
                .as_slice()
        }
        _ => false,
    }
}

fn civil(year: i16, month: u8, day: u8, weekday: u8, hour: u8, minute: u8) -> Civil {
    Civil {
        year,
        month,
        day,
        weekday,
        hour,
        minute,
    }
}

// Whether taken names, and what makes no zone, are refused, and leave nothing.
fn refuses(table: &mut ZoneTable) -> bool {
    let taken = is_zone_fault(table.add_rule("Europe/Berlin", "UTC0"))
        && is_zone_fault(table.add_file("UTC", KATHMANDU));
    let none = is_zone_fault(table.add_rule("Other", "CET"))
        && is_zone_fault(table.add_file("Other", b"TZif"));
    let unknown = is_zone_fault(table.set_local("Other")) && table.get("Other").is_none();
    taken && none && unknown
}

// Whether a copy of the named zone is the local one, and UTC another.
fn is_local(alloc: Global, table: &ZoneTable, name: &str) -> Result<bool, Refusal> {
    let (Some(zone), Some(utc)) = (table.get(name), table.get("UTC")) else {
        return Ok(false);
    };
    let copy = zone.try_copy(alloc)?;
    Ok(copy.same(table.default_zone()) && !utc.same(zone))
}

fn keeps_rules_and_names(alloc: Global) -> Result<bool, Refusal> {
    let mut table = ZoneTable::new(alloc)?;
    table.add_rule("Europe/Berlin", MIDDLE_EUROPE)?;
    let is_refused = refuses(&mut table) && table.default_zone().name() == "UTC";
    table.set_local("Europe/Berlin")?;
    Ok(is_refused && is_local(alloc, &table, "Europe/Berlin")?)
}

// rules: zone-table, zone-refused, zone-value
#[test]
fn rules_and_names(rt: HostRuntime) {
    assert!(rt; keeps_rules_and_names(rt.alloc()).unwrap_or(false));
}

// Whether the zone's clock shows this at the instant.
fn shows(zone: &Zone, at: &str, wanted: Civil) -> bool {
    match read_time(at) {
        Some(instant) => local(zone, instant) == wanted,
        None => false,
    }
}

fn shows_all(zone: &Zone) -> bool {
    let before = shows(zone, "1985-12-31T18:29:59Z", civil(1985, 12, 31, 2, 23, 59));
    let behind = shows(zone, "1985-12-31T18:30:00Z", civil(1986, 1, 1, 3, 0, 15));
    let first = shows(zone, "2024-02-28T18:15:00Z", civil(2024, 2, 29, 4, 0, 0));
    let last = shows(zone, "2024-02-29T18:14:59Z", civil(2024, 2, 29, 4, 23, 59));
    let next = shows(zone, "2024-12-31T18:15:00Z", civil(2025, 1, 1, 3, 0, 0));
    before && behind && first && last && next
}

fn kathmandu_shows_all(alloc: Global) -> Result<bool, Refusal> {
    let mut table = ZoneTable::new(alloc)?;
    table.add_file("Asia/Kathmandu", KATHMANDU)?;
    table.set_local("Asia/Kathmandu")?;
    Ok(shows_all(table.default_zone()))
}

// rules: zone-made-by-jiff, civil-time
#[test]
fn times_of_a_file(rt: HostRuntime) {
    assert!(rt; kathmandu_shows_all(rt.alloc()).unwrap_or(false));
}
