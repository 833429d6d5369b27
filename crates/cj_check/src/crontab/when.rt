// When a line's command is started: five fields, or a macro in their place.
ghost use Rattle.std.specs.Prelude.{◌≡◌, ◌<◌, ◌≤◌, All, IfOk, IfSome, IsCharBoundary, drop, false, length, slice_index, string_bytes, take, true};
ghost use Rattle.cj_check.specs.Crontab.{BeginsWith, IsFirstWord, IsScheduleText, fields_text, is_blank, words_of};
ghost use Rattle.cj_check.specs.declared.crontab.when.When.TheVariants as By;

use crate::crontab::setting::without_blanks;
use crate::crontab::sunday::weekdays_text;
use memchr::memchr2;
use std::alloc::{AllocError, Global};

/// The five fields of a line.
#[derive(Clone, Copy, Debug)]
pub(crate) struct Fields<'a> {
    pub minute: &'a str,
    pub hour: &'a str,
    pub day: &'a str,
    pub month: &'a str,
    pub weekday: &'a str,
}

/// When a command is started.
#[derive(Clone, Copy, Debug)]
pub(crate) enum When<'a> {
    Fields(Fields<'a>),
    Macro(&'a str),
}

// The text in two before that byte.
fn cut(text: &str, at: usize) -> (&str, &str)
    requires { IsCharBoundary text.now at }
    ensures { (result.0.now ≡ take at text.now) × (result.1.now ≡ drop at text.now) }
{
    match text.split_at_checked(at) {
        Some(parts) => parts,
        None => (text, ""),
    }
}

// How many bytes stand before the first blank: all of them, if there is none.
fn word_length(text: &[u8]) -> usize
    ensures within { result ≤ length text.now }
    ensures before { All (λ b. is_blank b ≡ false) (take result text.now) }
    ensures at { result < length text.now → is_blank (slice_index text.now result) ≡ true }
{
    memchr2(b' ', b'\t', text).unwrap_or(text.len())
}

/// The first word of a text that begins with one, and the text from the second word on.
#[tactic(auto, using(crate::proofs::CrontabWords::first_word, crate::proofs::CrontabWords::is_boundary))]
pub(crate) fn next_word(text: &str) -> (&str, &str)
    ensures { IsFirstWord text.now result.0.now result.1.now }
{
    let (word, rest) = cut(text, word_length(text.as_bytes()));
    (word, without_blanks(rest))
}

/// The first five words, and what is behind them; none where there are fewer.
pub(crate) fn fields_of(text: &str) -> Option<(Fields<'_>, &str)>
    ensures { IfSome result (λ f. BeginsWith (words_of (By.Fields f.0)) text.now) }
{
    let (minute, rest) = next_word(text);
    let (hour, rest) = next_word(rest);
    let (day, rest) = next_word(rest);
    let (month, rest) = next_word(rest);
    let (weekday, rest) = next_word(rest);
    if weekday.is_empty() {
        return None;
    }
    let fields = Fields {
        minute,
        hour,
        day,
        month,
        weekday,
    };
    Some((fields, rest))
}

impl<'a> Fields<'a> {
    // The fields with a space between each two, with those days of the week.
    fn text_with(&self, alloc: Global, weekday: &str) -> Result<String, AllocError>
        ensures { IfOk result (λ s. string_bytes s ≡ fields_text self.now weekday.now) }
    {
        let (minute, hour) = (self.minute, self.hour);
        let (day, month) = (self.day, self.month);
        format!(in alloc; "{minute} {hour} {day} {month} {weekday}")
    }
}

impl<'a> When<'a> {
    /// The schedule as it is written, with one space between two fields.
    pub(crate) fn given(&self, alloc: Global) -> Result<String, AllocError> {
        match self {
            When::Fields(fields) => fields.text_with(alloc, fields.weekday),
            When::Macro(name) => String::from_str(alloc, name),
        }
    }

    /// The schedule as Kubernetes takes it.
    pub(crate) fn schedule_text(&self, alloc: Global) -> Result<String, AllocError>
        ensures { IfOk result (λ s. IsScheduleText self.now (string_bytes s)) }
    {
        match self {
            When::Fields(fields) => {
                let weekday = weekdays_text(alloc, fields.weekday)?;
                fields.text_with(alloc, weekday.as_str())
            }
            When::Macro(name) => String::from_str(alloc, name),
        }
    }

    /// Whether cron starts it at fixed times: neither the minute nor the hour begins with a star.
    pub(crate) fn is_fixed(&self) -> bool {
        match self {
            When::Fields(fields) => {
                !fields.minute.starts_with('*') && !fields.hour.starts_with('*')
            }
            When::Macro(name) => *name != "@hourly",
        }
    }
}
