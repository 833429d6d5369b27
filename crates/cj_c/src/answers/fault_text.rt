// The sentence for a fault that a call told.
ghost use Rattle.std.specs.Prelude.{◌≡◌, ◌⊎◌, ◌<◌, ◌++◌, ℕ, List, length, IfSome, IsNone, codes};
ghost use Rattle.cj_c.specs.Faults.{cause_code, fault_told};
ghost use Rattle.cj_c.specs.declared.fault.CronFault.{CronFault as Told};
ghost use Rattle.cj_c.specs.answers.FaultText.{IsFaultTextAnswered, IsNoneOf};

use crate::answers::buffer::give;
use crate::fault::{CronFault, text_of};
use crate::status::{DONE, MEMORY, NONE};
use cj_base::{ScheduleCause, ScheduleFault};
use cj_explain::explain_schedule;
use std::alloc::Global;

// The cause of a number.
fn cause_of(code: u32) -> Option<ScheduleCause>
    ensures some { IfSome result (λ cause. code ≡ cause_code cause) }
    ensures none { IsNone result → (code < 1) ⊎ (9 < code) }
{
    match code {
        1 => Some(ScheduleCause::Length),
        2 => Some(ScheduleCause::Empty),
        3 => Some(ScheduleCause::Zone),
        4 => Some(ScheduleCause::Macro),
        5 => Some(ScheduleCause::Fields),
        6 => Some(ScheduleCause::Syntax),
        7 => Some(ScheduleCause::Range),
        8 => Some(ScheduleCause::Order),
        9 => Some(ScheduleCause::Step),
        _ => None,
    }
}

/// The fault of a schedule that was told so, if it is one.
pub(crate) fn fault_of(told: &CronFault) -> Option<ScheduleFault>
    ensures some { IfSome result (λ fault. told.now ≡ fault_told fault) }
    ensures none { IsNone result → IsNoneOf told.now }
{
    if told.field > 5 {
        return None;
    }
    let cause = cause_of(told.cause)?;
    Some(ScheduleFault {
        field: told.field as u8,
        byte: told.byte as usize,
        cause,
    })
}

// A line without its end.
fn without_end(line: &[u8]) -> &[u8]
    requires { 0 < length line.now }
    ensures { (text : List ℕ) → line.now ≡ text ++ codes "\n" → result.now ≡ text }
{
    &line[..line.len() - 1]
}

fn sentence(
    alloc: Global,
    schedule: &str,
    fault: ScheduleFault,
    answer: &mut [u8],
    length: &mut usize,
) -> u32
    ensures { (told : Told) → told ≡ fault_told fault →
        IsFaultTextAnswered schedule.now told answer.old answer.new length.old length.new result }
{
    match explain_schedule(alloc, schedule, fault) {
        Ok(line) => give(without_end(line.as_bytes()), DONE, answer, length),
        Err(_) => MEMORY,
    }
}

/// The sentence that `--explain` has for a fault that was told of a schedule, if it has one.
#[unsafe(no_mangle)]
pub extern "C" fn cronsim_fault_text(
    alloc: Global,
    schedule: &[u8],
    fault: &CronFault,
    answer: &mut [u8],
    length: &mut usize,
) -> u32
    ensures { IsFaultTextAnswered schedule.now fault.now answer.old answer.new length.old length.new
        result }
{
    let Some(text) = text_of(schedule) else {
        return NONE;
    };
    match fault_of(fault) {
        Some(found) => sentence(alloc, text, found, answer, length),
        None => NONE,
    }
}
