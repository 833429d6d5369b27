// What `why` and `upcoming` tell beside their answers: of a namespace that has no CronJob, of a
// moment before all of them, and of a list without any.
ghost use Rattle.std.specs.Prelude.{◌≡◌, ◌++◌, ◌&&◌, ◌||◌, bytes_eq, nat_lt, IfOk, IfErr, false, not, option_map, string_bytes};
ghost use Rattle.std.specs.List.{list_all, list_any};
ghost use Rattle.std.specs.FinMap as map;
ghost use Rattle.cj_base.specs.declared.refusal.Refusal.TheVariants.{OutOfMemory};
ghost use Rattle.cj_answers.specs.Outcome.{outcome_of};
ghost use Rattle.cj_inspect.specs.Why.{IsNoticed, ending_at_home, has_home, is_bare, is_early, is_noted_in, is_nothing, noticed, within_of};

use crate::why::naming::has_none;
use cj_answers::{Answer, Ending};
use cj_args::WhyRequest;
use cj_cluster::{ClusterCron, ClusterList, CronName, ItemNote};
use cj_types::{Refusal, Seconds, Shared};
use cj_zone::time_text;
use std::alloc::{AllocError, Global};

fn is_noted_in(namespace: &str, cron: &Option<CronName>) -> bool
    ensures { result ≡ is_noted_in namespace.now cron.now }
{
    match cron {
        Some(cron) => cron.namespace.as_str() == namespace,
        None => false,
    }
}

fn is_in(namespace: &str, cron: &ClusterCron) -> bool
    ensures { result ≡ bytes_eq cron.now.cron.key.namespace namespace.now }
{
    cron.cron.key.key().namespace() == namespace
}

pub(crate) fn has_cron(namespace: &str, crons: &[Shared<ClusterCron>]) -> bool
    ensures { result
        ≡ list_any (λ c. bytes_eq c.cron.key.namespace namespace.now) crons.now }
{
    crons.iter().any(|cron| is_in(namespace, cron.get()))
}

pub(crate) fn has_note(namespace: &str, notes: &[ItemNote]) -> bool
    ensures { result ≡ list_any (λ note. is_noted_in namespace.now note.cron) notes.now }
{
    notes.iter().any(|note| is_noted_in(namespace, &note.cron))
}

/// Whether a CronJob is in the namespace that is given, if one is.
pub(crate) fn has_home(
    within: Option<&str>,
    list: &ClusterList,
    crons: &[Shared<ClusterCron>],
) -> bool
    requires { crons.now ≡ map.values list.now.cluster.crons }
    ensures { result ≡ has_home (option_map (λ s. s.now) within.entry) list.now }
{
    match within {
        None => true,
        Some(namespace) => {
            let has_cron = has_cron(namespace, crons);
            let has_note = has_note(namespace, list.notes.as_slice());
            has_cron || has_note
        }
    }
}

fn is_before(now: Seconds, cron: &ClusterCron) -> bool
    ensures { result ≡ nat_lt now cron.now.cron.meta.created }
{
    now.get() < cron.cron.meta.created.get()
}

fn is_before_each(now: Seconds, crons: &[Shared<ClusterCron>]) -> bool
    ensures { result ≡ list_all (λ c. nat_lt now c.cron.meta.created) crons.now }
{
    crons.iter().all(|cron| is_before(now, cron.get()))
}

// Whether there are CronJobs, and the moment is before the creation of each.
fn is_early(now: Seconds, crons: &[Shared<ClusterCron>]) -> bool
    ensures { result ≡ is_early now crons.now }
{
    let has_none = has_none(crons);
    let is_before_each = is_before_each(now, crons);
    !has_none && is_before_each
}

// Whether there is no CronJob, and no item that is refused or of another kind.
fn is_bare(list: &ClusterList, crons: &[Shared<ClusterCron>]) -> bool
    requires { crons.now ≡ map.values list.now.cluster.crons }
    ensures { result ≡ is_bare list.now }
{
    let has_none = has_none(crons);
    let is_unnoted = list.notes.as_slice().is_empty();
    has_none && is_unnoted
}

// Whether no CronJob is there by the moment.
fn is_too_soon(list: &ClusterList, crons: &[Shared<ClusterCron>], now: Seconds) -> bool
    requires { crons.now ≡ map.values list.now.cluster.crons }
    ensures { result ≡ (is_early now crons.now || is_bare list.now) }
{
    let is_early = is_early(now, crons);
    let is_bare = is_bare(list, crons);
    is_early || is_bare
}

// One namespace more, unless it is the last one again.
fn push_namespace(text: &mut String, last: &str, namespace: &str) -> Result<(), AllocError> {
    if last == namespace {
        return Ok(());
    }
    if !text.is_empty() {
        text.push_str(", ")?;
    }
    text.push_str(namespace)
}

// The namespaces of the CronJobs, which are in the order of their keys.
fn namespaces(alloc: Global, crons: &[Shared<ClusterCron>]) -> Result<String, AllocError> {
    let mut text = String::new(alloc);
    let mut last = "";
    for cron in crons {
        let namespace = cron.get().cron.key.key().namespace();
        push_namespace(&mut text, last, namespace)?;
        last = namespace;
    }
    Ok(text)
}

// That no CronJob is in the namespace, and which have some.
fn home_words(
    alloc: Global,
    within: Option<&str>,
    crons: &[Shared<ClusterCron>],
) -> Result<String, Refusal>
    ensures ok { IfOk result (λ s. is_nothing (string_bytes s) ≡ false) }
    ensures err { IfErr result (λ e. e ≡ OutOfMemory) }
{
    let given = within.unwrap_or("");
    let found = namespaces(alloc, crons)?;
    let found = if found.is_empty() {
        "none"
    } else {
        found.as_str()
    };
    Ok(format!(in alloc;
        "cronsim: no CronJob of the list is in the namespace {given}; there are some in: {found}\n"
    )?)
}

// That the moment is before the creation of each.
fn early_words(alloc: Global, now: Seconds) -> Result<String, Refusal>
    ensures ok { IfOk result (λ s. is_nothing (string_bytes s) ≡ false) }
    ensures err { IfErr result (λ e. e ≡ OutOfMemory) }
{
    let time = time_text(alloc, now)?;
    let time = time.as_str();
    Ok(format!(in alloc; "cronsim: --now {time} is before each CronJob of the list was created\n")?)
}

// That the list has no CronJob.
fn bare_words(alloc: Global) -> Result<String, Refusal>
    ensures ok { IfOk result (λ s. is_nothing (string_bytes s) ≡ false) }
    ensures err { IfErr result (λ e. e ≡ OutOfMemory) }
{
    Ok(String::from_str(
        alloc,
        "cronsim: the list has no CronJob; kubectl get cronjobs,jobs -A -o json prints both kinds\n",
    )?)
}

fn soon_words(alloc: Global, crons: &[Shared<ClusterCron>], now: Seconds) -> Result<String, Refusal>
    ensures ok { IfOk result (λ s. is_nothing (string_bytes s) ≡ false) }
    ensures err { IfErr result (λ e. e ≡ OutOfMemory) }
{
    if crons.is_empty() {
        bare_words(alloc)
    } else {
        early_words(alloc, now)
    }
}

fn notice(
    alloc: Global,
    within: Option<&str>,
    crons: &[Shared<ClusterCron>],
    now: Seconds,
    home: bool,
    early: bool,
) -> Result<String, Refusal>
    ensures ok { IfOk result (λ s. is_nothing (string_bytes s) ≡ (home && not early)) }
    ensures err { IfErr result (λ e. e ≡ OutOfMemory) }
{
    match (home, early) {
        (false, _) => home_words(alloc, within, crons),
        (true, true) => soon_words(alloc, crons, now),
        (true, false) => Ok(String::new(alloc)),
    }
}

fn ending_at_home(home: bool, ending: Ending) -> Ending
    ensures { result ≡ ending_at_home home ending }
{
    if home { ending } else { Ending::Refused }
}

fn noticed(home: bool, words: String, answer: Answer) -> Result<Answer, Refusal>
    ensures ok { IfOk result (λ a. outcome_of a
        ≡ noticed home (string_bytes words) (outcome_of answer)) }
    ensures err { IfErr result (λ e. e ≡ OutOfMemory) }
{
    let Answer {
        ending,
        printed,
        said,
    } = answer;
    let mut words = words;
    words.push_str(said.as_str())?;
    Ok(Answer {
        ending: ending_at_home(home, ending),
        printed,
        said: words,
    })
}

/// The answer with what is to be told beside it, before what it says.
pub(crate) fn with_notices(
    alloc: Global,
    why: &WhyRequest<'_>,
    list: &ClusterList,
    crons: &[Shared<ClusterCron>],
    now: Seconds,
    answer: Answer,
) -> Result<Answer, Refusal>
    requires { crons.now ≡ map.values list.now.cluster.crons }
    ensures ok { IfOk result (λ a. IsNoticed (has_home (within_of why.now) list.now)
        (is_early now (map.values list.now.cluster.crons) || is_bare list.now)
        (outcome_of answer) (outcome_of a)) }
    ensures err { IfErr result (λ e. e ≡ OutOfMemory) }
{
    let home = has_home(why.namespace, list, crons);
    let early = is_too_soon(list, crons, now);
    let words = notice(alloc, why.namespace, crons, now, home, early)?;
    noticed(home, words, answer)
}

// What is told where no CronJob is in the namespace.
fn home_notice(
    alloc: Global,
    within: Option<&str>,
    crons: &[Shared<ClusterCron>],
    home: bool,
) -> Result<String, Refusal>
    ensures ok { IfOk result (λ s. is_nothing (string_bytes s) ≡ (home && not false)) }
    ensures err { IfErr result (λ e. e ≡ OutOfMemory) }
{
    if home {
        Ok(String::new(alloc))
    } else {
        home_words(alloc, within, crons)
    }
}

/// The answer with what is to be told where no CronJob is in the namespace, before what it says.
pub(crate) fn with_home_notice(
    alloc: Global,
    within: Option<&str>,
    crons: &[Shared<ClusterCron>],
    home: bool,
    answer: Answer,
) -> Result<Answer, Refusal>
    ensures ok { IfOk result (λ a. IsNoticed home false (outcome_of answer) (outcome_of a)) }
    ensures err { IfErr result (λ e. e ≡ OutOfMemory) }
{
    let words = home_notice(alloc, within, crons, home)?;
    noticed(home, words, answer)
}
