ghost use Rattle.std.specs.Prelude.{◌≡◌, IfOk, IfErr, IfSome, IsNone};
ghost use Rattle.std.specs.Str.{IsUtf8};
ghost use Rattle.cj_schedule.specs.Grammar.{IsSchedule};
ghost use Rattle.cj_c.specs.Faults.{IsFaultTold, IsTextRefused, cause_code, fault_told};

use cj_base::{ScheduleCause, ScheduleFault};
use cj_schedule::Schedule;

/// Where and why a text is refused.
#[repr(C)]
#[derive(Clone, Copy, Debug)]
pub struct CronFault {
    /// 1 for the minute to 5 for the day of the week, 0 for the whole schedule, 6 for the zone.
    pub field: u32,
    /// 1 to 9 for the causes of schedules, 10 for a zone that is refused, 11 for a text that isn't
    /// UTF-8.
    pub cause: u32,
    /// The place in the schedule, in bytes from 0, at which the faulty element begins; else 0.
    pub byte: u64,
}

/// The greatest length of a schedule or rule, in bytes.
pub(crate) const MAX_TEXT: usize = 1024;

// The number of a cause.
fn cause_code(cause: ScheduleCause) -> u32
    ensures { result ≡ cause_code cause }
{
    match cause {
        ScheduleCause::Length => 1,
        ScheduleCause::Empty => 2,
        ScheduleCause::Zone => 3,
        ScheduleCause::Macro => 4,
        ScheduleCause::Fields => 5,
        ScheduleCause::Syntax => 6,
        ScheduleCause::Range => 7,
        ScheduleCause::Order => 8,
        ScheduleCause::Step => 9,
    }
}

// A fault of a schedule, as its caller gets it.
fn told(fault: ScheduleFault) -> CronFault
    ensures { result ≡ fault_told fault }
{
    CronFault {
        field: fault.field as u32,
        cause: cause_code(fault.cause),
        byte: fault.byte as u64,
    }
}

/// These bytes as a text, if they are UTF-8.
pub(crate) fn text_of(bytes: &[u8]) -> Option<&str>
    ensures some { IfSome result (λ s. s.now ≡ bytes.now) }
    ensures none { IsNone result → ¬ (IsUtf8 bytes.now) }
{
    match str::from_utf8(bytes) {
        Ok(text) => Some(text),
        Err(_) => None,
    }
}

// The schedule of a text, or its fault.
fn parsed(text: &str) -> Result<Schedule, CronFault>
    ensures ok { IfOk result (λ s. IsSchedule text.now s) }
    ensures err { IfErr result (λ f. IsFaultTold text.now f) }
{
    match Schedule::parse(text) {
        Ok(schedule) => Ok(schedule),
        Err(fault) => Err(told(fault)),
    }
}

// A text and its schedule, or its fault.
fn with_schedule(text: &str) -> Result<(&str, Schedule), CronFault>
    ensures text { IfOk result (λ r. r.0.now ≡ text.now) }
    ensures ok { IfOk result (λ r. IsSchedule text.now r.1) }
    ensures err { IfErr result (λ f. IsFaultTold text.now f) }
{
    match parsed(text) {
        Ok(schedule) => Ok((text, schedule)),
        Err(fault) => Err(fault),
    }
}

/// These bytes as a text and its schedule, or why they are refused. More than 1,024 bytes are
/// refused before they are looked at.
pub(crate) fn read_text(bytes: &[u8]) -> Result<(&str, Schedule), CronFault>
    ensures text { IfOk result (λ r. r.0.now ≡ bytes.now) }
    ensures ok { IfOk result (λ r. IsSchedule bytes.now r.1) }
    ensures err { IfErr result (λ f. IsTextRefused bytes.now f) }
{
    if bytes.len() > MAX_TEXT {
        return Err(CronFault {
            field: 0,
            cause: 1,
            byte: 0,
        });
    }
    let Some(text) = text_of(bytes) else {
        return Err(CronFault {
            field: 0,
            cause: 11,
            byte: 0,
        });
    };
    with_schedule(text)
}

/// The schedule of these bytes, or why they are refused.
pub(crate) fn read_schedule(bytes: &[u8]) -> Result<Schedule, CronFault>
    ensures ok { IfOk result (λ s. IsSchedule bytes.now s) }
    ensures err { IfErr result (λ f. IsTextRefused bytes.now f) }
{
    match read_text(bytes) {
        Ok((_, schedule)) => Ok(schedule),
        Err(fault) => Err(fault),
    }
}
