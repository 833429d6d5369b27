// Times by a zone's clock, alone and in a text.
ghost use Rattle.std.specs.Prelude.{◌≡◌, ◌++◌, ◌*ℤ◌, ◌+ℤ◌, ◌<◌, ◌≤◌, ◌↔◌, IfErr, IfOk, IfSome, IsTrue, None, OnOk, length, pos, string_bytes};
ghost use Rattle.cj_base.specs.Instant.{last_second};
ghost use Rattle.cj_base.specs.declared.refusal.Refusal.TheVariants.{OutOfMemory};
ghost use Rattle.jiff_core.specs.DateTime.{civil_nanos};
ghost use Rattle.jiff_core.specs.Timestamp.{IsOffsetSeconds, nanos_of_seconds};
ghost use Rattle.jiff_fmt.specs.Text.{offset_text};
ghost use Rattle.jiff.specs.Names.{iso_datetime_text};
ghost use Rattle.cj_zone.specs.TimeText.{time_text_of};
ghost use Rattle.cj_answers.specs.Clocked.{Adds, AddsFront, IsByClock, IsNotShown, IsShown, IsTimeByClock, IsWhole, IsWithin, clock_words, utc_words};

use cj_base::{Civil, Refusal, Seconds};
use cj_zone::{Zone, interval_at, local, read_time, time_text};
use jiff::Timestamp;
use jiff::fmt::temporal::DateTimePrinter;
use jiff::tz::Offset;
use jiff_core::civil::DateTime;
use std::alloc::{AllocError, Global};

// ---- a time

fn timestamp(time: Seconds) -> Timestamp
    ensures instant { result.nanosecond ≡ pos time *ℤ pos 1_000_000_000 }
    ensures in_range { time ≤ last_second }
{
    match Timestamp::from_second(time.get() as i64) {
        Ok(instant) => instant,
        Err(_) => unreachable!(),
    }
}

// The UTC offset of so many seconds.
fn offset_of(seconds: i64) -> Offset
    requires { IsOffsetSeconds seconds }
    ensures { result.seconds ≡ seconds }
{
    match Offset::from_seconds(seconds as i32) {
        Ok(offset) => offset,
        Err(_) => unreachable!(),
    }
}

// What a clock shows that is so far ahead of UTC.
fn shown_at(offset: Offset, time: Seconds) -> DateTime
    ensures shown { civil_nanos result ≡ pos time *ℤ pos 1_000_000_000
        +ℤ nanos_of_seconds offset.seconds }
    ensures in_range { time ≤ last_second }
{
    offset.to_datetime(timestamp(time)).to_plain()
}

// Whether a date and a time are within the civil minute.
fn is_within(civil: Civil, shown: DateTime) -> bool
    ensures { IsTrue result ↔ IsWithin civil shown }
{
    let is_date = shown.date.year == civil.year
        && shown.date.month == civil.month
        && shown.date.day == civil.day;
    let is_clock = shown.time.hour == civil.hour && shown.time.minute == civil.minute;
    is_date && is_clock
}

fn is_whole(offset: i64) -> bool
    ensures { IsTrue result ↔ IsWhole offset }
{
    offset.unsigned_abs() % 60 == 0
}

fn shown_text(alloc: Global, shown: DateTime, offset: Offset) -> Result<String, AllocError>
    ensures { IfOk result (λ s. string_bytes s ≡ iso_datetime_text shown ++ offset_text offset) }
{
    let printer = DateTimePrinter::new();
    let (shown, offset) = (
        printer.datetime_text(shown),
        printer.offset_text(offset.to_plain()),
    );
    let (shown, offset) = (shown.as_str(), offset.as_str());
    format!(in alloc; "{shown}{offset}")
}

// The time at an offset, where it is in whole minutes and the zone's clock shows the time.
fn time_at(
    alloc: Global,
    zone: &Zone,
    time: Seconds,
    seconds: i64,
) -> Result<Option<String>, Refusal>
    requires { IsOffsetSeconds seconds }
    ensures shown { IfOk result (λ found. IfSome found (λ s. IsShown zone.now time
        (string_bytes s))) }
    ensures none { IfOk result (λ found. found ≡ None → IsNotShown zone.now time seconds) }
    ensures err { IfErr result (λ e. e ≡ OutOfMemory) }
{
    let offset = offset_of(seconds);
    let shown = shown_at(offset, time);
    if is_whole(seconds) && is_within(local(zone, time), shown) {
        Ok(Some(shown_text(alloc, shown, offset)?))
    } else {
        Ok(None)
    }
}

/// The time by the zone's clock with its UTC offset, as `2026-03-29T03:30:00+02:00`; in UTC, with
/// `Z`, where the offset isn't in whole minutes.
pub fn time_by_clock(alloc: Global, zone: &Zone, time: Seconds) -> Result<String, Refusal>
    ensures ok { IfOk result (λ s. IsTimeByClock zone.now time (string_bytes s)) }
    ensures err { IfErr result (λ e. e ≡ OutOfMemory) }
{
    let offsets = interval_at(zone, time);
    match time_at(alloc, zone, time, offsets.one)? {
        Some(text) => Ok(text),
        None => match time_at(alloc, zone, time, offsets.other)? {
            Some(text) => Ok(text),
            None => time_text(alloc, time),
        },
    }
}

// ---- parts of a text

// The text up to and with the first such character, and what follows it.
fn part_until(text: &str, end: char) -> Option<(&str, &str)>
    requires { end < 128 }
    ensures parts { IfSome result (λ x. text.now ≡ x.0.now ++ x.1.now) }
    ensures shorter { IfSome result (λ x. length x.1.now < length text.now) }
{
    let place = text.find(end)?;
    text.split_at_checked(place + 1)
}

// The bytes of a printed time.
const TIME: usize = 20;

// The gap between two columns.
const GAP: &str = "   ";

// The blanks behind another cell of a column of times: a time with an offset is longer by these.
const BLANKS: &str = "     ";

// Whether a cell may begin here.
fn is_begun(line: &str, column: usize) -> bool {
    match line.split_at_checked(column) {
        Some((front, _)) => front.is_empty() || front.ends_with(GAP),
        None => false,
    }
}

fn is_gap(line: &str, place: usize) -> bool {
    match line.split_at_checked(place) {
        Some((_, rest)) => rest.starts_with(GAP),
        None => false,
    }
}

// Whether a cell of the width of a time stands here, between two gaps.
fn is_cell(line: &str, column: usize) -> bool {
    is_begun(line, column) && is_gap(line, column.saturating_add(TIME))
}

fn has_time(line: &str, column: usize) -> bool {
    let Some((_, rest)) = line.split_at_checked(column) else {
        return false;
    };
    match rest.split_at_checked(TIME) {
        Some((cell, _)) => read_time(cell).is_some(),
        None => false,
    }
}

// ---- which columns have times

fn push_column(columns: &mut Vec<usize>, line: &str, end: usize) -> Result<(), AllocError> {
    let column = end.saturating_sub(TIME);
    let is_known = columns.contains(&column);
    if !is_known && is_cell(line, column) && has_time(line, column) {
        columns.push(column).map_err(AllocError::from)?;
    }
    Ok(())
}

// Those of a line.
fn push_columns(columns: &mut Vec<usize>, line: &str) -> Result<(), AllocError> {
    let mut rest = line;
    while let Some((_, more)) = part_until(rest, 'Z') {
        push_column(columns, line, line.len().saturating_sub(more.len()))?;
        rest = more;
    }
    Ok(())
}

// The columns of the tables in a text in which times stand, from left to right.
fn time_columns(alloc: Global, text: &str) -> Result<Vec<usize>, AllocError> {
    let mut columns = Vec::new(alloc);
    let mut rest = text;
    while let Some((line, more)) = part_until(rest, '\n') {
        push_columns(&mut columns, line)?;
        rest = more;
    }
    columns.sort_unstable();
    Ok(columns)
}

// ---- a text

// A part that ends in a printed time: what is before it, and the time.
fn timed(part: &str) -> Option<(&str, Seconds)>
    ensures parts { IfSome result (λ x. part.now ≡ x.0.now ++ time_text_of x.1) }
    ensures in_range { IfSome result (λ x. x.1 ≤ last_second) }
{
    let (front, end) = part.split_at_checked(part.len().checked_sub(TIME)?)?;
    let time = read_time(end)?;
    Some((front, time))
}

// A part that ends in a time.
fn push_time(
    alloc: Global,
    zone: &Zone,
    front: &str,
    time: Seconds,
    shown: &mut String,
) -> Result<(), Refusal>
    requires { time ≤ last_second }
    ensures { OnOk result (Adds zone.now (front.now ++ time_text_of time) (string_bytes shown.old)
        (string_bytes shown.new)) }
{
    let text = time_by_clock(alloc, zone, time)?;
    shown.push_str(front)?;
    shown.push_str(text.as_str())?;
    Ok(())
}

// A part that has a time at its end or none.
fn push_part(alloc: Global, zone: &Zone, part: &str, shown: &mut String) -> Result<(), Refusal>
    ensures { OnOk result (Adds zone.now part.now (string_bytes shown.old)
        (string_bytes shown.new)) }
{
    match timed(part) {
        Some((front, time)) => push_time(alloc, zone, front, time, shown),
        None => {
            shown.push_str(part)?;
            Ok(())
        }
    }
}

// A text without columns.
fn push_times(alloc: Global, zone: &Zone, text: &str, shown: &mut String) -> Result<(), Refusal>
    ensures { OnOk result (Adds zone.now text.now (string_bytes shown.old)
        (string_bytes shown.new)) }
{
    let mut rest = text;
    while let Some((part, more)) = part_until(rest, 'Z') {
        push_part(alloc, zone, part, shown)?;
        rest = more;
    }
    shown.push_str(rest)?;
    Ok(())
}

// A text with blanks behind it.
fn push_wide(alloc: Global, zone: &Zone, text: &str, shown: &mut String) -> Result<(), Refusal>
    ensures { OnOk result (Adds zone.now text.now (string_bytes shown.old)
        (string_bytes shown.new)) }
{
    push_times(alloc, zone, text, shown)?;
    shown.push_str(BLANKS)?;
    Ok(())
}

// The rest of the line up to the end of a cell of the column that is no time, and what follows.
fn up_to<'a>(line: &str, rest: &'a str, column: usize) -> Option<(&'a str, &'a str)>
    ensures { IfSome result (λ x. rest.now ≡ x.0.now ++ x.1.now) }
{
    if !is_cell(line, column) || has_time(line, column) {
        return None;
    }
    let end = column.checked_add(TIME)?;
    let passed = line.len().checked_sub(rest.len())?;
    rest.split_at_checked(end.checked_sub(passed)?)
}

// Such a cell, if the line has one in the column; what is left of the line.
fn push_cell<'a>(
    alloc: Global,
    zone: &Zone,
    line: &str,
    rest: &'a str,
    column: usize,
    shown: &mut String,
) -> Result<&'a str, Refusal>
    ensures { IfOk result (λ more. AddsFront zone.now rest.now more.now (string_bytes shown.old)
        (string_bytes shown.new)) }
{
    match up_to(line, rest, column) {
        Some((front, more)) => {
            push_wide(alloc, zone, front, shown)?;
            Ok(more)
        }
        None => Ok(rest),
    }
}

// A line, with blanks behind each cell of a column of times that is none.
fn push_line(
    alloc: Global,
    zone: &Zone,
    columns: &[usize],
    line: &str,
    shown: &mut String,
) -> Result<(), Refusal>
    ensures { OnOk result (Adds zone.now line.now (string_bytes shown.old)
        (string_bytes shown.new)) }
{
    let mut rest = line;
    for column in columns {
        rest = push_cell(alloc, zone, line, rest, *column, shown)?;
    }
    push_times(alloc, zone, rest, shown)?;
    Ok(())
}

fn push_lines(
    alloc: Global,
    zone: &Zone,
    columns: &[usize],
    text: &str,
    shown: &mut String,
) -> Result<(), Refusal>
    ensures { OnOk result (Adds zone.now text.now (string_bytes shown.old)
        (string_bytes shown.new)) }
{
    let mut rest = text;
    while let Some((line, more)) = part_until(rest, '\n') {
        push_line(alloc, zone, columns, line, shown)?;
        rest = more;
    }
    push_line(alloc, zone, columns, rest, shown)?;
    Ok(())
}

// What the heading of a table says of its times where they are in UTC.
const UTC_WORDS: &str = "(all times in UTC)";

// What is before those words and behind them.
fn around_words(text: &str) -> Option<(&str, &str)>
    ensures { IfSome result (λ x. text.now ≡ x.0.now ++ (utc_words ++ x.1.now)) }
{
    text.split_once(UTC_WORDS)
}

fn push_words(zone: &Zone, shown: &mut String) -> Result<(), Refusal>
    ensures { OnOk result (string_bytes shown.new
        ≡ string_bytes shown.old ++ clock_words zone.now) }
{
    shown.push_str("(all times by the clock of ")?;
    shown.push_str(zone.name())?;
    shown.push_str(")")?;
    Ok(())
}

// A text with such a heading.
fn push_headed(
    alloc: Global,
    zone: &Zone,
    columns: &[usize],
    around: (&str, &str),
    shown: &mut String,
) -> Result<(), Refusal>
    ensures { OnOk result (Adds zone.now (around.entry.0.now ++ (utc_words ++ around.entry.1.now))
        (string_bytes shown.old) (string_bytes shown.new)) }
{
    let (front, rest) = around;
    push_lines(alloc, zone, columns, front, shown)?;
    push_words(zone, shown)?;
    push_lines(alloc, zone, columns, rest, shown)?;
    Ok(())
}

fn push_text(
    alloc: Global,
    zone: &Zone,
    columns: &[usize],
    text: &str,
    shown: &mut String,
) -> Result<(), Refusal>
    ensures { OnOk result (Adds zone.now text.now (string_bytes shown.old)
        (string_bytes shown.new)) }
{
    match around_words(text) {
        Some(around) => push_headed(alloc, zone, columns, around, shown),
        None => push_lines(alloc, zone, columns, text, shown),
    }
}

/// The text with each printed time in it by the zone's clock, its tables aligned, and the zone's
/// name in the heading of one. Nothing else changes, and no time becomes another instant.
pub fn text_by_clock(alloc: Global, zone: &Zone, text: &str) -> Result<String, Refusal>
    ensures { IfOk result (λ s. IsByClock zone.now text.now (string_bytes s)) }
{
    let columns = time_columns(alloc, text)?;
    let mut shown = String::new(alloc);
    push_text(alloc, zone, columns.as_slice(), text, &mut shown)?;
    Ok(shown)
}
