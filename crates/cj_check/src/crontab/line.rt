// What a line of a crontab says.
ghost use Rattle.std.specs.Prelude.{◌≡◌, IfOk};
ghost use Rattle.cj_check.specs.Crontab.{IsJob, IsLine};

use crate::crontab::command::{Command, command_of};
use crate::crontab::fault::{LineError, LineFault};
use crate::crontab::setting::{Setting, lacks_value, setting_of};
use crate::crontab::when::{Fields, When, fields_of, next_word};
use cj_explain::explain_schedule;
use cj_schedule::Schedule;
use std::alloc::Global;

/// A command that is started by a schedule.
#[derive(Debug, Drop)]
pub(crate) struct Job<'a> {
    /// The schedule as it is written.
    pub when: When<'a>,
    /// Its text as Kubernetes takes it.
    pub text: String,
    /// What that text says.
    pub schedule: Schedule,
    /// Who runs the command, in a crontab of the system.
    pub user: Option<&'a str>,
    /// What is run.
    pub command: Command,
}

/// A command that is started when the machine starts.
#[derive(Debug, Drop)]
pub(crate) struct Reboot<'a> {
    pub user: Option<&'a str>,
    pub command: Command,
}

/// What a line says that is neither blank nor a comment.
#[derive(Debug, Drop)]
pub(crate) enum Line<'a> {
    Setting(Setting<'a>),
    Job(Job<'a>),
    Reboot(Reboot<'a>),
    Refused(LineFault),
}

// A character of a user's name.
fn is_name_byte(byte: u8) -> bool {
    byte.is_ascii_alphanumeric() || byte == b'_' || byte == b'-' || byte == b'.'
}

// Whether a word may be the name of a user.
fn is_user(word: &str) -> bool {
    word.as_bytes().iter().all(|byte| is_name_byte(*byte))
}

// The user of a line of the system's crontab, and the command behind.
fn user_of(rest: &str) -> Result<(&str, &str), LineFault> {
    let (user, command) = next_word(rest);
    if user.is_empty() || command.is_empty() && is_user(user) {
        return Err(LineFault::NoUser);
    }
    if !is_user(user) {
        return Err(LineFault::BadUser);
    }
    Ok((user, command))
}

// Who runs a command, and the command.
fn started<'a>(
    alloc: Global,
    rest: &'a str,
    system: bool,
) -> Result<(Option<&'a str>, Command), LineError> {
    if system {
        let (user, command) = user_of(rest)?;
        return Ok((Some(user), command_of(alloc, command)?));
    }
    if rest.is_empty() {
        return Err(LineError::Fault(LineFault::NoCommand));
    }
    Ok((None, command_of(alloc, rest)?))
}

// Refuses what some crons take in a field and neither Kubernetes nor others do.
fn refuse_odd(fields: &Fields<'_>) -> Result<(), LineFault> {
    let minute_or_hour = fields.minute.contains('~') || fields.hour.contains('~');
    let day_or_month = fields.day.contains('~') || fields.month.contains('~');
    if minute_or_hour || day_or_month || fields.weekday.contains('~') {
        return Err(LineFault::Random);
    }
    if fields.day.contains('?') || fields.weekday.contains('?') {
        return Err(LineFault::Question);
    }
    Ok(())
}

// The command that is started then.
fn job_of<'a>(
    alloc: Global,
    when: When<'a>,
    rest: &'a str,
    system: bool,
) -> Result<Job<'a>, LineError>
    ensures job { IfOk result IsJob }
    ensures when { IfOk result (λ j. j.when ≡ when.entry) }
{
    let text = when.schedule_text(alloc)?;
    let schedule = match Schedule::parse(text.as_str()) {
        Ok(schedule) => schedule,
        Err(fault) => {
            let words = explain_schedule(alloc, text.as_str(), fault)?;
            return Err(LineError::Fault(LineFault::Schedule(words)));
        }
    };
    let (user, command) = started(alloc, rest, system)?;
    Ok(Job {
        when,
        text,
        schedule,
        user,
        command,
    })
}

// Whether cron has the macro, beside `@reboot`.
fn is_macro(name: &str) -> bool {
    matches!(
        name,
        "@yearly" | "@annually" | "@monthly" | "@weekly" | "@daily" | "@midnight" | "@hourly"
    )
}

// A line that begins with a macro.
fn macro_line(alloc: Global, text: &str, system: bool) -> Result<Line<'_>, LineError>
    ensures { IfOk result (IsLine text.now) }
{
    let (name, rest) = next_word(text);
    if name == "@reboot" {
        let (user, command) = started(alloc, rest, system)?;
        return Ok(Line::Reboot(Reboot { user, command }));
    }
    if !is_macro(name) {
        return Err(LineError::Fault(LineFault::Macro));
    }
    Ok(Line::Job(job_of(alloc, When::Macro(name), rest, system)?))
}

// A line of five fields.
fn fields_line(alloc: Global, text: &str, system: bool) -> Result<Line<'_>, LineError>
    ensures { IfOk result (IsLine text.now) }
{
    if lacks_value(text) {
        return Err(LineError::Fault(LineFault::NoValue));
    }
    let Some((fields, rest)) = fields_of(text) else {
        return Err(LineError::Fault(LineFault::Fields));
    };
    refuse_odd(&fields)?;
    Ok(Line::Job(job_of(alloc, When::Fields(fields), rest, system)?))
}

// Whether a character has no place in a line.
fn is_control(character: char) -> bool {
    let code = u32::from(character);
    (code < 32 && code != 9) || (127 <= code && code <= 159)
}

// Refuses a line with a control character.
fn refuse_control(text: &str) -> Result<(), LineFault> {
    if text.contains('\r') {
        return Err(LineFault::CarriageReturn);
    }
    if text.chars().any(is_control) {
        return Err(LineFault::Control);
    }
    Ok(())
}

/// What a line says, without the blanks in front. `system` is whether a user stands before the
/// command.
pub(crate) fn line_of(alloc: Global, text: &str, system: bool) -> Result<Line<'_>, LineError>
    ensures { IfOk result (IsLine text.now) }
{
    refuse_control(text)?;
    if let Some(setting) = setting_of(text) {
        return Ok(Line::Setting(setting));
    }
    if text.starts_with('@') {
        macro_line(alloc, text, system)
    } else {
        fields_line(alloc, text, system)
    }
}
