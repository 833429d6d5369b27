// What Kubernetes' own controller does otherwise.
ghost use Rattle.std.specs.Prelude.{◌≡◌, IfOk, IfErr, option_copied, string_bytes};
ghost use Rattle.cj_base.specs.declared.refusal.Refusal.TheVariants.{OutOfMemory};
ghost use Rattle.cj_why.specs.reviews.Otherwise.{clock_words, deadline_words, otherwise_words};

use cj_types::{CronJob, Deadline, Refusal, Text};
use cj_zone::Zone;
use std::alloc::Global;

fn clock_words(name: &Option<Text>, zone: Option<&Zone>) -> &'static str
    ensures { result.now ≡ clock_words name.now (option_copied zone.entry) }
{
    match (name, zone) {
        (None, _) => {
            "Kubernetes: without spec.timeZone its controller goes by the clock of its machine, not by UTC\n"
        }
        (Some(_), None) => {
            "Kubernetes: its controller looks for the zone in a database of its own\n"
        }
        (Some(_), Some(_)) => "",
    }
}

fn deadline_words(deadline: Option<Deadline>) -> &'static str
    ensures { result.now ≡ deadline_words deadline }
{
    match deadline {
        Some(seconds) if seconds.get() < 10 => {
            "Kubernetes: its controller looks every 10 s, and with a deadline below that may start none\n"
        }
        _ => "",
    }
}

// How many Jobs it makes.
const COUNT_WORDS: &str =
    "Kubernetes: its controller makes a Job, then records the time; a time may get two Jobs or none\n";

/// What Kubernetes' own controller does otherwise with the CronJob, whose zone this is.
pub(crate) fn otherwise_words(
    alloc: Global,
    cron: &CronJob,
    zone: Option<&Zone>,
) -> Result<String, Refusal>
    ensures ok { IfOk result (λ s. string_bytes s
        ≡ otherwise_words cron.now (option_copied zone.entry)) }
    ensures err { IfErr result (λ e. e ≡ OutOfMemory) }
{
    let mut words = String::new(alloc);
    if cron.spec.suspend {
        return Ok(words);
    }
    words.push_str(clock_words(&cron.spec.time_zone, zone))?;
    words.push_str(deadline_words(cron.spec.starting_deadline_seconds))?;
    words.push_str(COUNT_WORDS)?;
    Ok(words)
}
