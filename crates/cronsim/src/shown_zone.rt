// By which zone's clock times are printed.
use crate::folder::is_rule_of;
use crate::machine::machine_zone;
use cj_program::{ClockWords, Failure, Request};

/// What a request says of that clock, where its command prints times by one.
pub fn clock_of<'r, 'a>(request: &'r Request<'a>) -> Option<&'r ClockWords<'a>> {
    match request {
        Request::Run(run) => Some(&run.clock),
        Request::Why(why) => Some(&why.clock),
        Request::Audit(audit) => Some(&audit.clock),
        Request::Upcoming(upcoming) => Some(&upcoming.clock),
        _ => None,
    }
}

/// Whether a request names a zone by `--zone` alone, and prints its times in UTC.
pub fn names_unshown(request: &Request<'_>) -> bool {
    let (Some(clock), Some(zones)) = (clock_of(request), request.zones()) else {
        return false;
    };
    let is_shown = clock.zone.is_some() || clock.is_local;
    !is_shown
        && zones
            .rules
            .as_slice()
            .iter()
            .any(|word| !word.contains('='))
}

/// The machine's zone, where a request asks for its clock and names no zone.
pub fn local_zone(rt: &HostRuntime, request: &Request<'_>) -> Result<Option<String>, Failure> {
    match clock_of(request) {
        Some(clock) if clock.is_local && clock.zone.is_none() => Ok(Some(machine_zone(rt)?)),
        _ => Ok(None),
    }
}

// The word that gives a zone of that name its rule; without one the name itself.
fn ruled<'a>(rules: &[&'a str], name: &'a str) -> &'a str {
    for word in rules {
        if is_rule_of(word, name) {
            return *word;
        }
    }
    name
}

// The clock of the given zone, else of the machine's, which alone is then called local. A zone that
// the words give a rule is named with its rule.
fn resolved<'a>(
    clock: &ClockWords<'a>,
    local: Option<&'a str>,
    rules: &[&'a str],
) -> ClockWords<'a> {
    let zone = match clock.zone.or(local) {
        Some(zone) if zone != "UTC" && !zone.contains('=') => Some(ruled(rules, zone)),
        zone => zone,
    };
    ClockWords {
        zone,
        is_local: clock.zone.is_none() && local.is_some(),
    }
}

/// The request with the zone by whose clock times are printed, where it names one or the machine's
/// is given.
pub fn with_zone<'a>(mut request: Request<'a>, local: Option<&'a str>) -> Request<'a> {
    match &mut request {
        Request::Run(run) => {
            run.clock = resolved(&run.clock, local, run.zones.rules.as_slice());
        }
        Request::Why(why) => {
            why.clock = resolved(&why.clock, local, why.zones.rules.as_slice());
        }
        Request::Audit(audit) => {
            audit.clock = resolved(&audit.clock, local, audit.zones.rules.as_slice());
        }
        Request::Upcoming(upcoming) => {
            upcoming.clock = resolved(&upcoming.clock, local, upcoming.zones.rules.as_slice());
        }
        _ => {}
    }
    request
}
