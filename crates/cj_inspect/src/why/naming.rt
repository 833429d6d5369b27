// Which CronJobs `why` is asked about, and what is said of a name that none has.
ghost use Rattle.std.specs.Prelude.{◌≡◌, ◌++◌, IfOk, OnOk, codes, filter, option_map, string_bytes, unwrap_or};
ghost use Rattle.std.specs.List.{list_any};
ghost use Rattle.std.specs.FinMap as map;
ghost use Rattle.cj_cluster.specs.kubectl.Named.{key_text};
ghost use Rattle.cj_inspect.specs.Why.{chosen, is_called, is_meant, is_near, is_noted, is_nothing, is_told, is_unknown, is_within, line_of, line_where, meant_of, narrowed, unknown_end, unknown_line, unknown_lines, unknown_of};

use cj_args::WhyRequest;
use cj_cluster::{ClusterCron, ClusterList, CronName, ItemNote, ItemNotes};
use cj_types::{Key, Refusal, Shared};
use std::alloc::{AllocError, Global};
use std::slice;

fn key_text(alloc: Global, key: &Key) -> Result<String, AllocError>
    ensures { IfOk result (λ s. string_bytes s ≡ key_text key.now.namespace key.now.name) }
{
    let namespace = key.namespace();
    let name = key.name();
    format!(in alloc; "{namespace}/{name}")
}

/// Namespace and name.
pub fn key_text_of(alloc: Global, namespace: &str, name: &str) -> Result<String, AllocError>
    ensures { IfOk result (λ s. string_bytes s ≡ key_text namespace.now name.now) }
{
    format!(in alloc; "{namespace}/{name}")
}

/// Whether the namespace is the one that is given, if one is.
pub fn is_within(within: Option<&str>, namespace: &str) -> bool
    ensures { result ≡ is_within (option_map (λ s. s.now) within.entry) namespace.now }
{
    match within {
        Some(given) => namespace == given,
        None => true,
    }
}

// The namespace of a name alone.
fn home<'a>(within: Option<&'a str>) -> &'a str
    ensures { result.now ≡ unwrap_or (option_map (λ s. s.now) within.entry) (codes "default") }
{
    match within {
        Some(given) => given,
        None => "default",
    }
}

fn is_called(within: Option<&str>, text: &str, key: &str, namespace: &str, name: &str) -> bool
    ensures { result ≡ is_called (option_map (λ s. s.now) within.entry) text.now key.now
        namespace.now name.now }
{
    let is_key = key == text;
    let is_name = name == text;
    let is_at_home = namespace == home(within);
    is_key || (is_name && is_at_home)
}

/// Whether the CronJob is called one of the texts.
pub fn is_called_one(
    within: Option<&str>,
    texts: &[&str],
    key: &str,
    namespace: &str,
    name: &str,
) -> bool
    ensures { result ≡ list_any
        (λ t. is_called (option_map (λ s. s.now) within.entry) t.now key.now namespace.now name.now)
        texts.now }
{
    texts
        .iter()
        .any(|text| is_called(within, text, key, namespace, name))
}

/// Whether no CronJob is named.
pub fn has_no_text(texts: &[&str]) -> bool
    ensures { result ≡ is_nothing texts.now }
{
    texts.is_empty()
}

fn is_meant(
    alloc: Global,
    within: Option<&str>,
    texts: &[&str],
    cron: &ClusterCron,
) -> Result<bool, AllocError>
    ensures { IfOk result (λ b. b
        ≡ is_meant (option_map (λ s. s.now) within.entry) texts.now cron.now) }
{
    let key = cron.cron.key.key();
    let text = key_text(alloc, key)?;
    let (namespace, name) = (key.namespace(), key.name());
    let is_within = is_within(within, namespace);
    let has_no_text = has_no_text(texts);
    let is_called = is_called_one(within, texts, text.as_str(), namespace, name);
    Ok(is_within && (has_no_text || is_called))
}

// Those of the CronJobs that are meant.
pub(crate) fn chosen(
    alloc: Global,
    within: Option<&str>,
    texts: &[&str],
    crons: &[Shared<ClusterCron>],
) -> Result<Vec<Shared<ClusterCron>>, Refusal>
    ensures { IfOk result (λ v. v.items
        ≡ chosen (option_map (λ s. s.now) within.entry) texts.now crons.now) }
{
    let mut meant = Vec::new(alloc);
    for cron in crons {
        if is_meant(alloc, within, texts, cron.get())? {
            meant.push(cron.share()?).map_err(|_| Refusal::OutOfMemory)?;
        }
    }
    Ok(meant)
}

fn is_noted(within: Option<&str>, text: &str, cron: &Option<CronName>) -> bool
    ensures { result ≡ is_noted (option_map (λ s. s.now) within.entry) text.now cron.now }
{
    match cron {
        None => false,
        Some(cron) => {
            let namespace = cron.namespace.as_str();
            let is_within = is_within(within, namespace);
            let is_called = is_called(
                within,
                text,
                cron.key.as_str(),
                namespace,
                cron.name.as_str(),
            );
            is_within && is_called
        }
    }
}

pub(crate) fn is_noted_one(within: Option<&str>, text: &str, notes: &[ItemNote]) -> bool
    ensures { result ≡ list_any
        (λ note. is_noted (option_map (λ s. s.now) within.entry) text.now note.cron) notes.now }
{
    notes.iter().any(|note| is_noted(within, text, &note.cron))
}

pub(crate) fn has_none(crons: &[Shared<ClusterCron>]) -> bool
    ensures { result ≡ is_nothing crons.now }
{
    crons.is_empty()
}

fn is_unknown(
    alloc: Global,
    within: Option<&str>,
    text: &&str,
    crons: &[Shared<ClusterCron>],
    notes: &[ItemNote],
) -> Result<bool, Refusal>
    ensures { IfOk result (λ b. b
        ≡ is_unknown (option_map (λ s. s.now) within.entry) crons.now notes.now text.now) }
{
    let named = chosen(alloc, within, slice::from_ref(text), crons)?;
    let has_none = has_none(named.as_slice());
    let is_noted = is_noted_one(within, text, notes);
    Ok(has_none && !is_noted)
}

/// The end of the line on a text that no CronJob is called.
#[tactic(auto, unfolding(crate::specs::Why::unknown_end))]
pub fn unknown_end() -> &'static str
    ensures { result.now ≡ unknown_end }
{
    "; want NAMESPACE/NAME, or NAME in the namespace of -n, else in default\n"
}

fn unknown_line(alloc: Global, text: &str) -> Result<String, AllocError>
    ensures { IfOk result (λ s. string_bytes s ≡ unknown_line text.now) }
{
    let end = unknown_end();
    format!(in alloc; "--cron: no CronJob of the list is {text}{end}")
}

pub(crate) fn push_where(
    alloc: Global,
    lines: &mut String,
    text: &str,
    is_unknown: bool,
) -> Result<(), AllocError>
    ensures { OnOk result (string_bytes lines.new
        ≡ string_bytes lines.old ++ line_where is_unknown text.now) }
{
    if is_unknown {
        let line = unknown_line(alloc, text)?;
        lines.push_str(line.as_str())?;
    }
    Ok(())
}

fn push_unknown(
    alloc: Global,
    lines: &mut String,
    within: Option<&str>,
    text: &&str,
    crons: &[Shared<ClusterCron>],
    notes: &[ItemNote],
) -> Result<(), Refusal>
    ensures { OnOk result (string_bytes lines.new ≡ string_bytes lines.old
        ++ line_of (option_map (λ s. s.now) within.entry) crons.now notes.now text.now) }
{
    let is_unknown = is_unknown(alloc, within, text, crons, notes)?;
    push_where(alloc, lines, text, is_unknown)?;
    Ok(())
}

// A line for each text that no CronJob is called.
pub(crate) fn unknown_lines(
    alloc: Global,
    within: Option<&str>,
    texts: &[&str],
    crons: &[Shared<ClusterCron>],
    notes: &[ItemNote],
) -> Result<String, Refusal>
    ensures { IfOk result (λ s. string_bytes s
        ≡ unknown_lines (option_map (λ s. s.now) within.entry) crons.now notes.now texts.now) }
{
    let mut lines = String::new(alloc);
    for text in texts {
        push_unknown(alloc, &mut lines, within, text, crons, notes)?;
    }
    Ok(lines)
}

// Whether one of the texts names the CronJob.
fn is_named(within: Option<&str>, texts: &[&str], cron: &Option<CronName>) -> bool
    ensures { result ≡ list_any
        (λ t. is_noted (option_map (λ s. s.now) within.entry) t.now cron.now) texts.now }
{
    texts.iter().any(|text| is_noted(within, text, cron))
}

// Whether it may be a CronJob of the namespace, if one is given.
fn is_near(within: Option<&str>, cron: &Option<CronName>) -> bool
    ensures { result ≡ is_near (option_map (λ s. s.now) within.entry) cron.now }
{
    match within {
        None => true,
        Some(namespace) => match cron {
            None => true,
            Some(cron) => cron.namespace.as_str() == namespace,
        },
    }
}

fn is_told(within: Option<&str>, texts: &[&str], note: &ItemNote) -> bool
    ensures { result
        ≡ is_told (option_map (λ s. s.now) within.entry) texts.now note.now }
{
    let has_no_text = has_no_text(texts);
    let is_near = is_near(within, &note.cron);
    let is_near_enough = has_no_text && is_near;
    let is_named = is_named(within, texts, &note.cron);
    is_near_enough || is_named
}

// Those of the notes that are told of.
pub(crate) fn told_items(
    within: Option<&str>,
    texts: &[&str],
    mut items: Vec<ItemNote>,
) -> Vec<ItemNote>
    ensures { result.items
        ≡ filter (is_told (option_map (λ s. s.now) within.entry) texts.now) items.items }
{
    items.retain(|note| is_told(within, texts, note));
    items
}

/// The list with the notes of the items that are told of.
pub(crate) fn narrowed(why: &WhyRequest<'_>, list: ClusterList) -> ClusterList
    ensures { result ≡ narrowed why.now list }
{
    let (cluster, notes) = list.into_parts();
    let items = told_items(why.namespace, why.crons.as_slice(), notes.into_items());
    ClusterList {
        cluster,
        notes: ItemNotes::of(items),
    }
}

/// Those of the list's CronJobs that are meant.
pub(crate) fn meant_of(
    alloc: Global,
    why: &WhyRequest<'_>,
    list: &ClusterList,
    crons: &[Shared<ClusterCron>],
) -> Result<Vec<Shared<ClusterCron>>, Refusal>
    requires { crons.now ≡ map.values list.now.cluster.crons }
    ensures { IfOk result (λ v. v.items ≡ meant_of why.now list.now) }
{
    chosen(alloc, why.namespace, why.crons.as_slice(), crons)
}

/// The lines of those that are named and unknown.
pub(crate) fn unknown_of(
    alloc: Global,
    why: &WhyRequest<'_>,
    list: &ClusterList,
    crons: &[Shared<ClusterCron>],
) -> Result<String, Refusal>
    requires { crons.now ≡ map.values list.now.cluster.crons }
    ensures { IfOk result (λ s. string_bytes s ≡ unknown_of why.now list.now) }
{
    let texts = why.crons.as_slice();
    unknown_lines(alloc, why.namespace, texts, crons, list.notes.as_slice())
}
