// Moments as people write them.
ghost use Rattle.std.specs.Prelude.{◌≡◌, ◌++◌, IfOk, codes};
ghost use Rattle.cj_answers.specs.Moments.{asked_moment, instant_of, is_moment, moment_of, moment_words, second_of, utc_of};
ghost use Rattle.cj_answers.specs.Outcome.{explained, outcome_of, refusal};

use crate::answer::Answer;
use cj_types::Seconds;
use jiff::Timestamp;
use std::alloc::{AllocError, Global};

/// So many seconds, where they are an instant.
pub(crate) fn second_of(second: i64) -> Option<Seconds>
    ensures { result ≡ second_of second }
{
    if second < 0 {
        return None;
    }
    Seconds::new(second.unsigned_abs())
}

/// The instant that a text of RFC 3339 says; a fraction of a second is left out.
pub(crate) fn instant_of(text: &str) -> Option<Seconds>
    ensures { result ≡ instant_of text.now }
{
    match text.parse::<Timestamp>() {
        Ok(timestamp) => second_of(timestamp.as_second()),
        Err(_) => None,
    }
}

// The instant of a text with this end.
fn ended(alloc: Global, text: &str, end: &str) -> Result<Option<Seconds>, AllocError>
    ensures { IfOk result (λ m. m ≡ instant_of (text.now ++ end.now)) }
{
    let mut whole = String::from_str(alloc, text)?;
    whole.push_str(end)?;
    Ok(instant_of(whole.as_str()))
}

/// The instant of a time without an offset, in UTC, or the first one of a date there.
pub(crate) fn utc_of(alloc: Global, text: &str) -> Result<Option<Seconds>, AllocError>
    ensures { IfOk result (λ m. m ≡ utc_of text.now) }
{
    match ended(alloc, text, "Z")? {
        Some(time) => Ok(Some(time)),
        None => ended(alloc, text, "T00:00:00Z"),
    }
}

/// The moment that a text says: a time of RFC 3339, which is in UTC where it has no offset, or a
/// date alone, whose first moment in UTC it is; none where it says none, or one before 1970 or
/// after 9998.
pub fn moment_of(alloc: Global, text: &str) -> Result<Option<Seconds>, AllocError>
    ensures { IfOk result (λ m. m ≡ moment_of text.now) }
{
    match instant_of(text) {
        Some(time) => Ok(Some(time)),
        None => utc_of(alloc, text),
    }
}

/// The moment that is asked about, where one is.
pub fn asked_moment(alloc: Global, text: Option<&str>) -> Result<Option<Seconds>, AllocError>
    ensures { IfOk result (λ m. m ≡ asked_moment text.entry) }
{
    match text {
        Some(text) => moment_of(alloc, text),
        None => Ok(None),
    }
}

/// Whether a text is a moment; so is none at all.
pub fn is_moment(alloc: Global, text: Option<&str>) -> Result<bool, AllocError>
    ensures { IfOk result (λ b. b ≡ is_moment text.entry) }
{
    match text {
        Some(text) => Ok(moment_of(alloc, text)?.is_some()),
        None => Ok(true),
    }
}

// What a moment has to be.
const MOMENT_WORDS: &str =
    "--now: want a time like 2024-01-01T00:00:00Z or 2024-01-01T01:00:00+01:00, a date like 2024-01-01, now, or -1h or +2d from now\n";

/// What is answered where the value of `--now` is no moment.
pub fn refused_now(alloc: Global, explain: bool) -> Result<Answer, AllocError>
    ensures { IfOk result (λ a. outcome_of a ≡ explained explain moment_words
        (refusal (codes "cronsim: time\n"))) }
{
    Answer::refused(alloc, "cronsim: time\n")?.explained(explain, MOMENT_WORDS)
}
