// What is wrong with texts that people take for schedules, beside the place of the fault.
ghost use Rattle.std.specs.Prelude.{◌≡◌};
ghost use Rattle.std.specs.List.{count_by, list_any};
ghost use Rattle.cj_answers.specs.Hints.{field_hint, is_any_letter, is_blank, is_fields, is_letter, is_odd, is_point, is_quote, is_syntax, name_hint, schedule_hint};

use crate::shapes::begins;
use cj_base::ScheduleFault;

// The first byte of a character that looks like a blank, a dash, a quotation mark, a digit or a
// star, and is none.
fn is_odd(byte: u8) -> bool
    ensures { result ≡ is_odd byte }
{
    byte == 194 || byte == 226 || byte == 227 || byte == 239
}

fn is_quote(byte: u8) -> bool
    ensures { result ≡ is_quote byte }
{
    byte == b'"' || byte == b'\''
}

fn is_blank(byte: u8) -> bool
    ensures { result ≡ is_blank byte }
{
    byte == b' ' || byte == b'\t'
}

fn is_letter(byte: u8) -> bool
    ensures { result ≡ is_letter byte }
{
    b'a' <= byte && byte <= b'z'
}

fn is_any_letter(byte: u8) -> bool
    ensures { result ≡ is_any_letter byte }
{
    (b'a' <= byte && byte <= b'z') || (b'A' <= byte && byte <= b'Z')
}

fn is_point(byte: u8) -> bool
    ensures { result ≡ is_point byte }
{
    byte == b'.'
}

fn has_odd(text: &str) -> bool
    ensures { result ≡ list_any is_odd text.now }
{
    text.as_bytes().iter().any(|byte| is_odd(*byte))
}

fn has_quote(text: &str) -> bool
    ensures { result ≡ list_any is_quote text.now }
{
    text.as_bytes().iter().any(|byte| is_quote(*byte))
}

fn has_letter(text: &str) -> bool
    ensures { result ≡ list_any is_letter text.now }
{
    text.as_bytes().iter().any(|byte| is_letter(*byte))
}

fn has_any_letter(text: &str) -> bool
    ensures { result ≡ list_any is_any_letter text.now }
{
    text.as_bytes().iter().any(|byte| is_any_letter(*byte))
}

fn has_point(text: &str) -> bool
    ensures { result ≡ list_any is_point text.now }
{
    text.as_bytes().iter().any(|byte| is_point(*byte))
}

fn blank_count(text: &str) -> usize
    ensures { result ≡ count_by is_blank text.now }
{
    let mut count = 0;
    for byte in text.as_bytes() {
        if is_blank(*byte) {
            count += 1;
        }
    }
    count
}

fn is_fields(fault: ScheduleFault) -> bool
    ensures { result ≡ is_fields fault.cause }
{
    fault.cause.name() == "Fields"
}

fn is_syntax(fault: ScheduleFault) -> bool
    ensures { result ≡ is_syntax fault.cause }
{
    fault.cause.name() == "Syntax"
}

// Of a text with names in full, or with what other programs have.
fn name_hint(text: &str) -> &'static str
    ensures { result.now ≡ name_hint text.now }
{
    if has_any_letter(text) {
        "schedule: the names there are have three letters, JAN to DEC and SUN to SAT; L, W, # and H of other programs have no place here\n"
    } else {
        ""
    }
}

// Of a text with another number of fields: that of a crontab's line, and the name of a file.
fn field_hint(text: &str) -> &'static str
    ensures { result.now ≡ field_hint text.now }
{
    let blanks = blank_count(text);
    if blanks >= 5 && has_letter(text) {
        "schedule: want the five fields alone, without the command of a crontab's line\n"
    } else if blanks == 0 && has_point(text) {
        "schedule: it looks like the name of a file; describe -f says its schedules, and check, plan, run, why, audit and upcoming read files\n"
    } else {
        ""
    }
}

/// What people may have overlooked in a text that is no schedule; nothing where it isn't known.
pub(crate) fn schedule_hint(text: &str, fault: ScheduleFault) -> &'static str
    ensures { result.now ≡ schedule_hint text.now fault }
{
    if has_odd(text) {
        "schedule: it has characters that only look like plain ones, as a no-break space or a long dash; want plain blanks and -\n"
    } else if has_quote(text) {
        "schedule: it has quotation marks in it; those around it are for the shell alone\n"
    } else if begins(text.as_bytes(), b"@every") {
        "schedule: @every is of Go's cron library; a CronJob has */15 * * * * for each quarter of an hour, and @hourly\n"
    } else if is_fields(fault) {
        field_hint(text)
    } else if is_syntax(fault) {
        name_hint(text)
    } else {
        ""
    }
}
