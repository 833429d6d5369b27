// The crosses of a run: where a time got no Job, or had to wait for one.
ghost use Rattle.std.specs.Prelude.{◌≡◌, IfErr};
ghost use Rattle.cj_base.specs.declared.refusal.Refusal.TheVariants.{OutOfMemory};

use crate::crosses::{Cross, add_cross};
use crate::lanes::Lane;
use cj_history::{Gap, Why};
use cj_report::Mark;
use cj_types::{Key, Reason, Refusal, Seconds};
use cj_zone::time_text;
use std::alloc::Global;

// Whether a sync with this reason started none; that many times were missed keeps none from it.
fn keeps_from_starting(reason: Reason) -> bool {
    match reason {
        Reason::TooManyMissedTimes => false,
        Reason::UnknownTimeZone => true,
        Reason::JobAlreadyActive => true,
        Reason::FailedCreate => true,
    }
}

// Whether no sync gave this as a reason for a due time.
fn is_untold(why: Why) -> bool {
    match why {
        Why::Forbidden => false,
        Why::NameTaken => false,
        _ => true,
    }
}

fn why_words(why: Why) -> &'static str {
    match why {
        Why::Suspended => "suspended",
        Why::TooLate => "too late: spec.startingDeadlineSeconds was over",
        Why::Earlier => "passed over for a later time",
        Why::NotMade => "claimed, but not made",
        Why::NeverSynced => "no sync came since",
        Why::Forbidden => "JobAlreadyActive",
        Why::NameTaken => "FailedCreate",
    }
}

fn push(
    alloc: Global,
    lanes: &mut [Lane],
    crosses: &mut Vec<Cross>,
    key: &Key,
    at: Seconds,
    why: &str,
) -> Result<(), Refusal>
    ensures err { IfErr result (λ e. e ≡ OutOfMemory) }
{
    let time = time_text(alloc, at)?;
    let time = time.as_str();
    let title = format!(in alloc; "{time} {why}")?;
    add_cross(lanes, crosses, key.namespace(), key.name(), at, title)
}

/// A cross for each mark.
pub(crate) fn place_marks(
    alloc: Global,
    lanes: &mut [Lane],
    crosses: &mut Vec<Cross>,
    marks: &[Mark],
) -> Result<(), Refusal>
    ensures err { IfErr result (λ e. e ≡ OutOfMemory) }
{
    for mark in marks {
        if let Some(at) = mark.at {
            if keeps_from_starting(mark.reason) {
                push(alloc, lanes, crosses, &mark.key, at, mark.reason.name())?;
            }
        }
    }
    Ok(())
}

/// A cross for each due time that got no Job for another cause.
pub(crate) fn place_gaps(
    alloc: Global,
    lanes: &mut [Lane],
    crosses: &mut Vec<Cross>,
    gaps: &[Gap],
) -> Result<(), Refusal>
    ensures err { IfErr result (λ e. e ≡ OutOfMemory) }
{
    for gap in gaps {
        if is_untold(gap.why) {
            let key = gap.cron.get().key.key();
            push(alloc, lanes, crosses, key, gap.time, why_words(gap.why))?;
        }
    }
    Ok(())
}
