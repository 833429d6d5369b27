// Opening a handle: a schedule and its zone are read, and kept as a timetable.
ghost use Rattle.std.specs.Prelude.{◌≡◌, false, IfOk, IfErr};
ghost use Rattle.cj_c.specs.declared.opening.Unopened.TheVariants.{Fault, Memory};
ghost use Rattle.cj_c.specs.Opening.{HasNoFileZone, HasNoRuleZone, HasZone, IsFileZone, IsOpened, IsRuleZone, IsUnopened, IsUtcZone, Opens, zone_fault};

use crate::fault::{CronFault, read_schedule};
use crate::held::Held;
use crate::status::{DONE, MEMORY, REFUSED};
use crate::timetable::Timetable;
use crate::zones::{Unzoned, of_file, of_rule, utc};
use cj_zone::Zone;
use std::alloc::Global;

// Why there is no timetable.
#[derive(Drop)]
enum Unopened {
    Fault(CronFault),
    Memory,
}

// The timetable on the heap.
fn boxed(alloc: Global, timetable: Timetable) -> Result<Box<Timetable, Global>, Unopened>
    ensures ok { IfOk result (λ b. b.value ≡ timetable) }
    ensures err { IfErr result (λ e. e ≡ Memory) }
{
    match Box::new(alloc, timetable) {
        Ok(kept) => Ok(kept),
        Err(_) => Err(Unopened::Memory),
    }
}

// A zone that is refused.
fn zone_refused() -> Unopened
    ensures { result ≡ Fault zone_fault }
{
    Unopened::Fault(CronFault {
        field: 6,
        cause: 10,
        byte: 0,
    })
}

// The timetable of a schedule in a zone. A fault of the schedule comes before one of the zone.
fn timetable_in(
    alloc: Global,
    schedule: &[u8],
    zone: Result<Zone, Unzoned>,
) -> Result<Box<Timetable, Global>, Unopened>
    ensures ok { IfOk result (λ b. HasZone schedule.now zone b.value) }
    ensures err { IfErr result (IsUnopened schedule.now zone) }
{
    let schedule = match read_schedule(schedule) {
        Ok(schedule) => schedule,
        Err(fault) => return Err(Unopened::Fault(fault)),
    };
    match zone {
        Ok(zone) => boxed(alloc, Timetable { schedule, zone }),
        Err(Unzoned::Refused) => Err(zone_refused()),
        Err(Unzoned::Memory) => Err(Unopened::Memory),
    }
}

// Keeps a schedule in a zone behind the handle, in the place of what was kept there; or writes why
// it isn't kept.
fn open(
    alloc: Global,
    cron: &mut Held,
    schedule: &[u8],
    zone: Result<Zone, Unzoned>,
    fault: &mut CronFault,
) -> u32
    ensures { Opens schedule.now zone cron.old cron.new fault.old fault.new result }
{
    match timetable_in(alloc, schedule, zone) {
        Ok(timetable) => {
            cron.put(timetable);
            DONE
        }
        Err(Unopened::Fault(told)) => {
            *fault = told;
            REFUSED
        }
        Err(Unopened::Memory) => MEMORY,
    }
}

/// Keeps a schedule in UTC behind the handle, in the place of what was kept there. Where it is
/// refused or there is no memory, that stays.
#[unsafe(no_mangle)]
pub extern "C" fn cronsim_open(
    alloc: Global,
    cron: &mut Held,
    schedule: &[u8],
    fault: &mut CronFault,
) -> u32
    ensures { IsOpened schedule.now IsUtcZone ⊥ cron.old cron.new fault.old fault.new result }
{
    open(alloc, cron, schedule, utc(alloc), fault)
}

/// Does the same for a schedule in the zone of a POSIX rule, as `CET-1CEST,M3.5.0,M10.5.0/3`.
#[unsafe(no_mangle)]
pub extern "C" fn cronsim_open_rule(
    alloc: Global,
    cron: &mut Held,
    schedule: &[u8],
    rule: &[u8],
    fault: &mut CronFault,
) -> u32
    ensures { IsOpened schedule.now (IsRuleZone rule.now) (HasNoRuleZone rule.now) cron.old cron.new
        fault.old fault.new result }
{
    open(alloc, cron, schedule, of_rule(alloc, rule), fault)
}

/// Does the same for a schedule in the zone of a compiled zone file's bytes (RFC 8536), of
/// 1,048,576 at most.
#[unsafe(no_mangle)]
pub extern "C" fn cronsim_open_file(
    alloc: Global,
    cron: &mut Held,
    schedule: &[u8],
    bytes: &[u8],
    fault: &mut CronFault,
) -> u32
    ensures { IsOpened schedule.now (IsFileZone bytes.now) (HasNoFileZone bytes.now) cron.old
        cron.new fault.old fault.new result }
{
    open(alloc, cron, schedule, of_file(alloc, bytes), fault)
}

/// Gives up what is kept behind the handle, if anything is.
#[unsafe(no_mangle)]
pub extern "C" fn cronsim_close(alloc: Global, cron: &mut Held)
    ensures { cron.new.full ≡ false }
{
    drop(cron.take(alloc));
}
