// The lanes: one for each CronJob.
ghost use Rattle.std.specs.Prelude.{◌<◌, IfSome, length, ◌≡◌, IfErr};
ghost use Rattle.cj_base.specs.declared.refusal.Refusal.TheVariants.{OutOfMemory};

use crate::short::shortened;
use crate::svg::escaped;
use cj_types::{CronJob, Key, Policy, Refusal, Shared};
use std::alloc::Global;

/// The lane of a CronJob.
pub(crate) struct Lane {
    pub(crate) cron: Shared<CronJob>,
    /// Where the last bar of each row ends, in seconds.
    pub(crate) rows: Vec<u64>,
    /// Whether there is anything to show in it.
    pub(crate) told: bool,
    /// Where it begins, and how high it is.
    pub(crate) y: u64,
    pub(crate) height: u64,
}

impl Drop for Lane {
    fn drop(self) {
        let Lane {
            cron: _,
            rows: _,
            told: _,
            y: _,
            height: _,
        } = self;
    }
}

/// How the lanes are laid out.
#[derive(Clone, Copy, Debug)]
pub(crate) struct Layout {
    /// Whether there are enough that each gets one line, and those with nothing to show none.
    pub(crate) dense: bool,
    /// How many aren't shown.
    pub(crate) hidden: u64,
    /// Where the last one ends.
    pub(crate) bottom: u64,
}

// Where the first lane begins.
const TOP: u64 = 85;

// More lanes than these are laid out densely.
const MANY: usize = 40;

// No lane has more rows; more bars beside one another cover each other.
const MOST_ROWS: usize = 12;

impl Lane {
    /// An empty lane of the CronJob.
    pub(crate) fn new(alloc: Global, cron: Shared<CronJob>) -> Lane {
        Lane {
            cron,
            rows: Vec::new(alloc),
            told: false,
            y: 0,
            height: 0,
        }
    }
}

fn is_of(lane: &Lane, namespace: &str, name: &str) -> bool {
    let key = lane.cron.get().key.key();
    key.name() == name && key.namespace() == namespace
}

/// The number of the lane of the CronJob with that key, if there is one.
pub(crate) fn lane_at(lanes: &[Lane], namespace: &str, name: &str) -> Option<usize>
    ensures { IfSome result (λ n. n < length lanes.now) }
{
    for (n, lane) in lanes.iter().enumerate() {
        if is_of(lane, namespace, name) {
            return Some(n);
        }
    }
    None
}

impl Lane {
    // The first row that is free at the moment.
    fn free_row(&self, from: u64) -> Option<usize>
        ensures { IfSome result (λ n. n < length self.now.rows.items) }
    {
        for (n, end) in self.rows.iter().enumerate() {
            if *end <= from {
                return Some(n);
            }
        }
        None
    }

    // A row more, unless there are too many.
    fn grow(&mut self) -> Result<(), Refusal>
        ensures err { IfErr result (λ e. e ≡ OutOfMemory) }
    {
        if self.rows.len() < MOST_ROWS {
            self.rows.push(0).map_err(|_| Refusal::OutOfMemory)?;
        }
        Ok(())
    }

    /// The row in which a bar goes that takes that long, and which has its end then. Bars come in
    /// the order of their ends.
    pub(crate) fn place(&mut self, from: u64, to: u64) -> Result<usize, Refusal>
        ensures err { IfErr result (λ e. e ≡ OutOfMemory) }
    {
        self.told = true;
        if self.free_row(from).is_none() {
            self.grow()?;
        }
        let last = self.rows.len().saturating_sub(1);
        let row = self.free_row(from).unwrap_or(last);
        if row < self.rows.len() {
            self.rows[row] = to;
        }
        Ok(row)
    }

    // Puts the lane below what is laid out so far.
    fn lay(&mut self, layout: Layout) -> Layout {
        if layout.dense && !self.told {
            return Layout {
                hidden: layout.hidden.saturating_add(1),
                ..layout
            };
        }
        let (least, edges, gap) = if layout.dense { (1, 12, 3) } else { (2, 24, 6) };
        let rows = self.rows.len().max(least) as u64;
        self.y = layout.bottom;
        self.height = rows.saturating_mul(12).saturating_add(edges);
        Layout {
            bottom: self.y.saturating_add(self.height).saturating_add(gap),
            ..layout
        }
    }
}

/// Lays the lanes out, one below the other.
pub(crate) fn lay_out(lanes: &mut [Lane]) -> Layout {
    let mut layout = Layout {
        dense: lanes.len() > MANY,
        hidden: 0,
        bottom: TOP,
    };
    for lane in lanes.iter_mut() {
        layout = lane.lay(layout);
    }
    layout
}

fn push_ground(alloc: Global, text: &mut String, lane: &Lane) -> Result<(), Refusal>
    ensures err { IfErr result (λ e. e ≡ OutOfMemory) }
{
    let y = lane.y;
    let height = lane.height;
    let ground = format!(in alloc;
        "<rect class=\"lane\" x=\"8\" y=\"{y}\" width=\"944\" height=\"{height}\" rx=\"4\"/>\n"
    )?;
    Ok(text.push_str(ground.as_str())?)
}

/// The grounds of the lanes that are shown.
pub(crate) fn push_grounds(alloc: Global, text: &mut String, lanes: &[Lane]) -> Result<(), Refusal>
    ensures err { IfErr result (λ e. e ≡ OutOfMemory) }
{
    for lane in lanes {
        if lane.height > 0 {
            push_ground(alloc, text, lane)?;
        }
    }
    Ok(())
}

// Its policy, and whether it is suspended.
fn policy_words(cron: &CronJob) -> &'static str {
    match (cron.spec.get().policy, cron.spec.get().suspend) {
        (Policy::Allow, false) => "Allow",
        (Policy::Forbid, false) => "Forbid",
        (Policy::Replace, false) => "Replace",
        (Policy::Allow, true) => "suspended, Allow",
        (Policy::Forbid, true) => "suspended, Forbid",
        (Policy::Replace, true) => "suspended, Replace",
    }
}

fn key_text(alloc: Global, key: &Key) -> Result<String, Refusal>
    ensures err { IfErr result (λ e. e ≡ OutOfMemory) }
{
    let namespace = key.namespace();
    let name = key.name();
    Ok(format!(in alloc; "{namespace}/{name}")?)
}

// Its schedule, and the zone whose clock it goes by, if it names one.
fn schedule_text(alloc: Global, cron: &CronJob) -> Result<String, Refusal>
    ensures err { IfErr result (λ e. e ≡ OutOfMemory) }
{
    let spec = cron.spec.get();
    let mut text = escaped(alloc, spec.schedule.as_str())?;
    if let Some(zone) = &spec.time_zone {
        let zone = escaped(alloc, zone.as_str())?;
        text.push_str(" ")?;
        text.push_str(zone.as_str())?;
    }
    Ok(text)
}

fn push_dense_head(alloc: Global, text: &mut String, lane: &Lane) -> Result<(), Refusal>
    ensures err { IfErr result (λ e. e ≡ OutOfMemory) }
{
    let y = lane.y.saturating_add(16);
    let key = lane.cron.get().key.key();
    let name = key_text(alloc, key)?;
    let name = name.as_str();
    let short = shortened(alloc, name)?;
    let short = short.as_str();
    let policy = policy_words(lane.cron.get());
    let schedule = schedule_text(alloc, lane.cron.get())?;
    let schedule = schedule.as_str();
    let head = format!(in alloc;
        "<text class=\"h\" x=\"16\" y=\"{y}\"><title>{name}, {policy}, {schedule}</title>{short}</text>\n"
    )?;
    Ok(text.push_str(head.as_str())?)
}

fn push_name(alloc: Global, text: &mut String, y: u64, key: &Key) -> Result<(), Refusal>
    ensures err { IfErr result (λ e. e ≡ OutOfMemory) }
{
    let y = y.saturating_add(20);
    let name = key_text(alloc, key)?;
    let name = name.as_str();
    let short = shortened(alloc, name)?;
    let short = short.as_str();
    let head = format!(in alloc;
        "<text class=\"h\" x=\"16\" y=\"{y}\"><title>{name}</title>{short}</text>"
    )?;
    Ok(text.push_str(head.as_str())?)
}

fn push_spec(alloc: Global, text: &mut String, y: u64, cron: &CronJob) -> Result<(), Refusal>
    ensures err { IfErr result (λ e. e ≡ OutOfMemory) }
{
    let y = y.saturating_add(37);
    let policy = policy_words(cron);
    let schedule = schedule_text(alloc, cron)?;
    let schedule = schedule.as_str();
    let head = format!(in alloc;
        "<text class=\"dim\" x=\"16\" y=\"{y}\"><title>{schedule}</title>{policy}  {schedule}</text>\n"
    )?;
    Ok(text.push_str(head.as_str())?)
}

fn push_head(alloc: Global, text: &mut String, dense: bool, lane: &Lane) -> Result<(), Refusal>
    ensures err { IfErr result (λ e. e ≡ OutOfMemory) }
{
    if dense {
        return push_dense_head(alloc, text, lane);
    }
    push_name(alloc, text, lane.y, lane.cron.get().key.key())?;
    push_spec(alloc, text, lane.y, lane.cron.get())
}

/// The heads of the lanes that are shown: name, policy and schedule with the zone, cut off where
/// the bars begin. A long name has `…` for its middle; all of it shows under the pointer.
pub(crate) fn push_heads(
    alloc: Global,
    text: &mut String,
    layout: Layout,
    lanes: &[Lane],
) -> Result<(), Refusal>
    ensures err { IfErr result (λ e. e ≡ OutOfMemory) }
{
    let bottom = layout.bottom;
    let open = format!(in alloc;
        "<clipPath id=\"heads\"><rect x=\"8\" y=\"0\" width=\"214\" height=\"{bottom}\"/></clipPath>\n<g clip-path=\"url(#heads)\">\n"
    )?;
    text.push_str(open.as_str())?;
    for lane in lanes {
        if lane.height > 0 {
            push_head(alloc, text, layout.dense, lane)?;
        }
    }
    Ok(text.push_str("</g>\n")?)
}
