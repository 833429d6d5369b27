// What a call was answered, in a word.
use cj_calls::{Answer, Reply};
use cj_report::refusal_name;

/// The name of the refusal; `none` where no CronJob was seen or no time claimed, `gone` where the
/// Job wasn't there; else `ok`.
pub fn word_of(answer: &Answer) -> &'static str {
    match answer {
        Ok(Reply::SeenCron(None)) => "none",
        Ok(Reply::Claimed(None)) => "none",
        Ok(Reply::Dropped(None)) => "gone",
        Ok(_) => "ok",
        Err(refusal) => refusal_name(refusal),
    }
}
