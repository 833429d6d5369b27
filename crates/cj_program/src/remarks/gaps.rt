// What is said to people of the due times that got no Job.
ghost use Rattle.std.specs.Prelude.{◌≡◌, IfOk, IfErr, string_bytes};
ghost use Rattle.cj_base.specs.declared.refusal.Refusal.TheVariants.{OutOfMemory};
ghost use Rattle.cj_program.specs.remarks.Gaps as said;

use crate::remarks::families::{Families, Tally, kind_of};
use cj_history::{Gap, Why};
use cj_types::Refusal;
use cj_zone::time_text;
use std::alloc::Global;

#[tactic(auto, unfolding(crate::specs::remarks::Gaps::why_words))]
fn why_words(why: Why) -> &'static str
    ensures { result.now ≡ said.why_words why }
{
    match why {
        Why::Suspended => "spec.suspend was true",
        Why::TooLate => "no sync came within spec.startingDeadlineSeconds",
        Why::Forbidden => "spec.concurrencyPolicy was Forbid and a Job of it ran",
        Why::Earlier => "a later time was missed too, and only the latest is started",
        Why::NameTaken => "the name of its Job was taken",
        Why::NotMade => "it was claimed, and then no Job was made",
        Why::NeverSynced => "no sync came since",
    }
}

#[tactic(auto, unfolding(crate::specs::remarks::Gaps::gap_line))]
fn gap_line(alloc: Global, gap: &Gap) -> Result<String, Refusal>
    ensures ok { IfOk result (λ s. string_bytes s
        ≡ said.gap_line gap.now.cron gap.now.time gap.now.why) }
    ensures err { IfErr result (λ e. e ≡ OutOfMemory) }
{
    let key = gap.cron.get().key.key();
    let (namespace, name) = (key.namespace(), key.name());
    let time = time_text(alloc, gap.time)?;
    let time = time.as_str();
    let why = why_words(gap.why);
    Ok(format!(in alloc; "{namespace}/{name}: no Job for {time}, since {why}\n")?)
}

#[tactic(auto, unfolding(crate::specs::remarks::Gaps::count_line))]
fn count_line(alloc: Global, gap: &Gap, tally: &Tally) -> Result<String, Refusal>
    ensures ok { IfOk result (λ s. string_bytes s
        ≡ said.count_line gap.now.cron tally.now gap.now.why) }
    ensures err { IfErr result (λ e. e ≡ OutOfMemory) }
{
    let key = gap.cron.get().key.key();
    let (namespace, name) = (key.namespace(), key.name());
    let count = tally.count;
    let first = time_text(alloc, tally.first)?;
    let first = first.as_str();
    let last = time_text(alloc, tally.last)?;
    let last = last.as_str();
    let why = why_words(gap.why);
    Ok(format!(in alloc;
        "{namespace}/{name}: no Job for {count} due times from {first} to {last}, since {why}\n"
    )?)
}

// The line of a gap. Where there are more than `most` of its kind, the first has a line for all,
// and the others none.
fn line_among(alloc: Global, most: u64, tally: Option<Tally>, gap: &Gap) -> Result<String, Refusal>
    ensures ok { IfOk result (λ s. string_bytes s ≡ said.line_among most tally gap.now) }
    ensures err { IfErr result (λ e. e ≡ OutOfMemory) }
{
    let Some(tally) = tally else {
        return Ok(String::new(alloc));
    };
    if tally.count <= most {
        gap_line(alloc, gap)
    } else if gap.time == tally.first {
        count_line(alloc, gap, &tally)
    } else {
        Ok(String::new(alloc))
    }
}

/// What is said of the gaps: a line for each, or, where there are more than `most` of one CronJob
/// and one cause, a line that counts them, with the first and the last.
pub(crate) fn gap_text(alloc: Global, most: u64, gaps: &[Gap]) -> Result<String, Refusal>
    ensures ok { IfOk result (λ s. string_bytes s ≡ said.gap_lines most gaps.now) }
    ensures err { IfErr result (λ e. e ≡ OutOfMemory) }
{
    let families = Families::of(alloc, gaps)?;
    let mut text = String::new(alloc);
    for gap in gaps {
        let line = line_among(alloc, most, families.tally(&kind_of(gap)), gap)?;
        text.push_str(line.as_str())?;
    }
    Ok(text)
}
