// What is wrong with a schedule.
ghost use Rattle.std.specs.Prelude.{◌≡◌, IfOk, string_bytes};
ghost use Rattle.cj_explain.specs.Schedules.{IsElementWords, IsExplained, IsWords, cause_words, count_words, numbers, title};

use crate::element::{field_count, shown_at};
use cj_base::{ScheduleCause, ScheduleFault};
use std::alloc::{AllocError, Global};

// The name of a field, by its number.
pub(crate) fn title(field: u8) -> &'static str
    ensures { result.now ≡ title field }
{
    match field {
        1 => "minute",
        2 => "hour",
        3 => "day of month",
        4 => "month",
        _ => "day of week",
    }
}

// The numbers of a field.
fn numbers(field: u8) -> &'static str
    ensures { result.now ≡ numbers field }
{
    match field {
        1 => "outside 0 to 59",
        2 => "outside 0 to 23",
        3 => "outside 1 to 31",
        4 => "outside 1 to 12",
        _ => "outside 0 to 6; Sunday is 0",
    }
}

// What is wrong with an element, or with the whole text.
pub(crate) fn cause_words(field: u8, cause: ScheduleCause) -> &'static str
    ensures { result.now ≡ cause_words field cause }
{
    match cause {
        ScheduleCause::Length => "longer than 1,024 bytes",
        ScheduleCause::Empty => "nothing but blanks",
        ScheduleCause::Zone => {
            "no time zone may stand in it; give it by --zone, or in a manifest as spec.timeZone"
        }
        ScheduleCause::Macro => {
            "no macro here; there are @hourly, @daily, @midnight, @weekly, @monthly, @yearly and @annually"
        }
        ScheduleCause::Fields => {
            "5 fields are wanted: minute, hour, day of month, month, day of week"
        }
        ScheduleCause::Syntax => "none of the forms *, N, A-B, */S, N/S and A-B/S",
        ScheduleCause::Range => numbers(field),
        ScheduleCause::Order => "a range that ends before it begins",
        ScheduleCause::Step => "a step that is 0 or has more than nine digits",
    }
}

// How many fields there are, and which are wanted.
fn count_words(alloc: Global, text: &str) -> Result<String, AllocError>
    ensures { IfOk result (λ s. string_bytes s ≡ count_words text.now) }
{
    let count = field_count(text);
    let wanted = if count == 1 {
        " field, 5 are wanted: minute, hour, day of month, month, day of week"
    } else {
        " fields, 5 are wanted: minute, hour, day of month, month, day of week"
    };
    format!(in alloc; "{count}{wanted}")
}

// What is wrong with an element, which is shown.
fn element_words(alloc: Global, text: &str, fault: ScheduleFault) -> Result<String, AllocError>
    ensures { IfOk result (λ s. IsElementWords text.now fault (string_bytes s)) }
{
    let ScheduleFault { field, byte, cause } = fault;
    let title = title(field);
    let shown = shown_at(text, byte);
    let words = cause_words(field, cause);
    format!(in alloc; "field {field} ({title}), byte {byte}: '{shown}' is {words}")
}

/// What is wrong with the text of a schedule.
pub(crate) fn words(alloc: Global, text: &str, fault: ScheduleFault) -> Result<String, AllocError>
    ensures { IfOk result (λ s. IsWords text.now fault (string_bytes s)) }
{
    match fault.cause {
        ScheduleCause::Fields => count_words(alloc, text),
        ScheduleCause::Syntax | ScheduleCause::Range | ScheduleCause::Order | ScheduleCause::Step =>
            element_words(alloc, text, fault),
        _ => String::from_str(alloc, cause_words(fault.field, fault.cause)),
    }
}

/// A line that says what is wrong with the text of a schedule: of the whole text, or of the element
/// at the fault's byte.
pub fn explain_schedule(
    alloc: Global,
    text: &str,
    fault: ScheduleFault,
) -> Result<String, AllocError>
    ensures { IfOk result (λ s. IsExplained text.now fault (string_bytes s)) }
{
    let words = words(alloc, text, fault)?;
    let words = words.as_str();
    format!(in alloc; "schedule: {words}\n")
}
