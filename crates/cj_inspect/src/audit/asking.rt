// From when on `audit` looks, and up to when.
ghost use Rattle.std.specs.Prelude.{◌≡◌, IfOk, codes, unwrap_or};
ghost use Rattle.cj_answers.specs.Outcome.{explained, outcome_of, refusal};
ghost use Rattle.cj_inspect.specs.Audit.{audit_moment, base_of, since_words};

use cj_answers::{Answer, asked_moment};
use cj_types::Seconds;
use std::alloc::{AllocError, Global};

/// The moment that is looked from, if the words say one; none where they say no moment.
pub(crate) fn audit_moment(
    alloc: Global,
    text: Option<&str>,
) -> Result<Option<Option<Seconds>>, AllocError>
    ensures { IfOk result (λ m. m ≡ audit_moment text.entry) }
{
    match text {
        Some(text) => match asked_moment(alloc, Some(text))? {
            Some(moment) => Ok(Some(Some(moment))),
            None => Ok(None),
        },
        None => Ok(Some(None)),
    }
}

/// The moment that a distance counts from.
pub(crate) fn base_of(moment: Option<Seconds>) -> Seconds
    ensures { result ≡ base_of moment }
{
    match moment {
        Some(moment) => moment,
        None => match Seconds::new(0) {
            Some(first) => first,
            None => unreachable!(),
        },
    }
}

// What the value of `--since` has to be.
const SINCE_WORDS: &str =
    "--since: want a time like 2024-01-01T00:00:00Z or 2024-01-01T01:00:00+01:00, a date like 2024-01-01, or -12h from the moment of --now\n";

pub(crate) fn refused_audit_since(alloc: Global, explain: bool) -> Result<Answer, AllocError>
    ensures { IfOk result (λ a. outcome_of a ≡ explained explain since_words
        (refusal (codes "cronsim: time\n"))) }
{
    Answer::refused(alloc, "cronsim: time\n")?.explained(explain, SINCE_WORDS)
}
