// How many times were missed, and since when.
ghost use Rattle.std.specs.Prelude.{◌≡◌, IfOk, IfErr, string_bytes};
ghost use Rattle.cj_base.specs.declared.refusal.Refusal.TheVariants.{OutOfMemory};
ghost use Rattle.cj_zone.specs.TimeText.{time_text_of};
ghost use Rattle.cj_why.specs.Missed.{few_words, many_words, missed_words, no_window, none_words};

use crate::since::since_words;
use cj_due::Missed;
use cj_types::{CronJob, Refusal, Seconds};
use cj_zone::time_text;
use std::alloc::{AllocError, Global};

fn none_words(alloc: Global, since: &str, what: &str) -> Result<String, AllocError>
    ensures { IfOk result (λ s. string_bytes s ≡ none_words since.now what.now) }
{
    format!(in alloc; "missed: none since {since} ({what})\n")
}

fn few_words(
    alloc: Global,
    since: &str,
    what: &str,
    count: u8,
    latest: &str,
) -> Result<String, AllocError>
    ensures { IfOk result (λ s. string_bytes s ≡ few_words since.now what.now count latest.now) }
{
    format!(in alloc; "missed: {count} since {since} ({what}), the latest at {latest}\n")
}

fn many_words(alloc: Global, since: &str, what: &str, latest: &str) -> Result<String, AllocError>
    ensures { IfOk result (λ s. string_bytes s ≡ many_words since.now what.now latest.now) }
{
    format!(in alloc; "missed: more than 100 since {since} ({what}), the latest at {latest}\n")
}

/// A line that says how many times were missed since an instant, what set that, and which was the
/// latest.
pub(crate) fn missed_words(
    alloc: Global,
    missed: &Missed,
    since: Seconds,
    what: &str,
) -> Result<String, Refusal>
    ensures ok { IfOk result (λ s. string_bytes s
        ≡ missed_words missed.now (time_text_of since) what.now) }
    ensures err { IfErr result (λ e. e ≡ OutOfMemory) }
{
    let since = time_text(alloc, since)?;
    let since = since.as_str();
    match *missed {
        Missed::None => Ok(none_words(alloc, since, what)?),
        Missed::Some { count, latest } => {
            let latest = time_text(alloc, latest)?;
            Ok(few_words(alloc, since, what, count, latest.as_str())?)
        }
        Missed::Many { latest } => {
            let latest = time_text(alloc, latest)?;
            Ok(many_words(alloc, since, what, latest.as_str())?)
        }
    }
}

/// A line that says that no time counts yet, and what set from when on they do.
pub(crate) fn no_window(alloc: Global, cron: &CronJob, now: Seconds) -> Result<String, Refusal>
    ensures ok { IfOk result (λ s. string_bytes s ≡ no_window cron.now now) }
    ensures err { IfErr result (λ e. e ≡ OutOfMemory) }
{
    let what = since_words(cron, now);
    Ok(format!(in alloc; "missed: none, as times count after {what}, which isn't past\n")?)
}
