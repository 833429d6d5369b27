// Sunday as 7, which cron has and Kubernetes hasn't.
ghost use Rattle.std.specs.Prelude.{◌≡◌, ◌==◌, IfOk, string_bytes};
ghost use Rattle.std.specs.List.{list_any};
ghost use Rattle.cj_check.specs.Crontab.{AreWeekdays};

use std::alloc::{AllocError, Global};

const NAMES: [&str; 7] = ["sun", "mon", "tue", "wed", "thu", "fri", "sat"];

fn is_seven(text: &str) -> bool {
    text.trim_start_matches('0') == "7"
}

// The number of a day of the week, 0 to 7.
fn day_number(text: &str) -> Option<u32> {
    match text.parse::<u32>() {
        Ok(number) if number <= 7 => Some(number),
        Ok(_) => None,
        Err(_) => {
            let place = NAMES
                .iter()
                .position(|name| text.eq_ignore_ascii_case(name))?;
            u32::try_from(place).ok()
        }
    }
}

// The step of a range: 1 where none is given; none where it is no step.
fn step_number(step: Option<&str>) -> Option<u32> {
    match step {
        None => Some(1),
        Some(step) => match step.parse::<u32>() {
            Ok(number) if number > 0 => Some(number),
            _ => None,
        },
    }
}

/// A range of days of the week up to 7.
#[derive(Clone, Copy)]
struct Week<'a> {
    first: &'a str,
    step: Option<&'a str>,
}

// Whether the steps of a range from that day reach 7.
fn reaches_seven(first: u32, step: u32) -> bool {
    step > 0 && first > 0 && 7u32.saturating_sub(first) % step == 0
}

// The range up to 6, and 0 behind it if its steps reach 7.
fn push_week(text: &mut String, week: Week<'_>, first: u32, step: u32) -> Result<(), AllocError> {
    if first == 7 {
        return text.push_str("0");
    }
    text.push_str(week.first)?;
    text.push_str("-6")?;
    if let Some(step) = week.step {
        text.push_str("/")?;
        text.push_str(step)?;
    }
    if reaches_seven(first, step) {
        text.push_str(",0")?;
    }
    Ok(())
}

// An element of the field. What is no range of days stays as it is, and is refused later.
fn push_element(text: &mut String, element: &str) -> Result<(), AllocError> {
    if is_seven(element) {
        return text.push_str("0");
    }
    let (base, step) = match element.split_once('/') {
        Some((base, step)) => (base, Some(step)),
        None => (element, None),
    };
    let week = match base.split_once('-') {
        Some((first, last)) if is_seven(last) => Week { first, step },
        _ => return text.push_str(element),
    };
    match (day_number(week.first), step_number(step)) {
        (Some(first), Some(number)) => push_week(text, week, first, number),
        _ => text.push_str(element),
    }
}

fn has_seven(field: &str) -> bool
    ensures { result ≡ list_any (λ b. b == 55) field.now }
{
    field.as_bytes().iter().any(|byte| *byte == b'7')
}

/// The days of the week as Kubernetes takes them: with Sunday as 0 in the place of 7.
pub(crate) fn weekdays_text(alloc: Global, field: &str) -> Result<String, AllocError>
    ensures { IfOk result (λ s. AreWeekdays field.now (string_bytes s)) }
{
    if has_seven(field) {
        without_seven(alloc, field)
    } else {
        String::from_str(alloc, field)
    }
}

// The field with 0 in the place of 7.
fn without_seven(alloc: Global, field: &str) -> Result<String, AllocError> {
    let mut text = String::new(alloc);
    let mut rest = field;
    while let Some((element, more)) = rest.split_once(',') {
        push_element(&mut text, element)?;
        text.push_str(",")?;
        rest = more;
    }
    push_element(&mut text, rest)?;
    Ok(text)
}
