use cj_due::next_counted;
use cj_schedule::Schedule;
use cj_zone::{ZoneTable, read_time};
use std::alloc::Global;

// Whether there is a next time, and how many candidates were tested.
fn counted(alloc: Global) -> Option<(bool, u64)> {
    let zones = ZoneTable::new(alloc).ok()?;
    let schedule = Schedule::parse("0 0 30 2 *").ok()?;
    let after = read_time("2024-01-01T00:00:00Z")?;
    let (next, tested) = next_counted(&schedule, zones.default_zone(), after);
    Some((next.is_some(), tested))
}

// The 30th of February never comes, and the search tests no minute to find that out.
// rule: search-count
#[test]
fn a_search_without_a_day_tests_nothing(rt: HostRuntime) {
    assert!(rt; counted(rt.alloc()) == Some((false, 0)));
}
