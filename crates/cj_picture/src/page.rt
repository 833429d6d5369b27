// The page around a picture.
ghost use Rattle.std.specs.Prelude.{◌≡◌, IfErr};
ghost use Rattle.cj_base.specs.declared.refusal.Refusal.TheVariants.{OutOfMemory};

use crate::axis::{Axis, moment_text};
use crate::blocks::{Block, push_blocks};
use crate::crosses::{Cross, push_crosses};
use crate::lanes::{Lane, Layout, push_grounds, push_heads};
use crate::style::STYLE;
use crate::svg::escaped;
use crate::ticks::push_ticks;
use cj_types::Refusal;
use cj_zone::Zone;
use std::alloc::Global;

/// What is drawn in lanes, and where.
pub(crate) struct Page {
    pub(crate) axis: Axis,
    pub(crate) layout: Layout,
    pub(crate) lanes: Vec<Lane>,
    pub(crate) blocks: Vec<Block>,
    pub(crate) crosses: Vec<Cross>,
}

impl Drop for Page {
    fn drop(self) {
        let Page {
            axis: _,
            layout: _,
            lanes: _,
            blocks: _,
            crosses: _,
        } = self;
    }
}

/// The frame of a picture: its size, what it is called, its style and its ground.
pub(crate) fn push_frame(
    alloc: Global,
    text: &mut String,
    width: u64,
    height: u64,
    called: &str,
) -> Result<(), Refusal>
    ensures err { IfErr result (λ e. e ≡ OutOfMemory) }
{
    let open = format!(in alloc;
        "<svg xmlns=\"http://www.w3.org/2000/svg\" viewBox=\"0 0 {width} {height}\" width=\"{width}\" height=\"{height}\" role=\"img\" aria-label=\"{called}\">\n"
    )?;
    text.push_str(open.as_str())?;
    text.push_str(STYLE)?;
    Ok(text.push_str("<rect class=\"bg\" width=\"100%\" height=\"100%\"/>\n")?)
}

// From when to when it is.
fn span_text(alloc: Global, axis: Axis) -> Result<String, Refusal>
    ensures err { IfErr result (λ e. e ≡ OutOfMemory) }
{
    if axis.is_empty() {
        return Ok(String::from_str(alloc, "Nothing to show")?);
    }
    let start = moment_text(alloc, axis.start)?;
    let end = moment_text(alloc, axis.end)?;
    let (start, end) = (start.as_str(), end.as_str());
    Ok(format!(in alloc; "{start} to {end}")?)
}

// From when to when, and how much there is to see.
fn push_caption(alloc: Global, text: &mut String, page: &Page) -> Result<(), Refusal>
    ensures err { IfErr result (λ e. e ≡ OutOfMemory) }
{
    let span = span_text(alloc, page.axis)?;
    let span = span.as_str();
    let crons = page.lanes.len();
    let jobs = page.blocks.len();
    let caption = format!(in alloc;
        "<text class=\"h\" x=\"16\" y=\"22\">{span}</text><text class=\"dim\" x=\"16\" y=\"40\">CronJobs: {crons}, Jobs: {jobs}</text>\n"
    )?;
    Ok(text.push_str(caption.as_str())?)
}

/// How many lines these words have.
pub(crate) fn line_count(words: &str) -> u64 {
    let mut count: u64 = 0;
    for _ in words.lines() {
        count = count.saturating_add(1);
    }
    count
}

fn push_note(alloc: Global, text: &mut String, y: u64, words: &str) -> Result<(), Refusal>
    ensures err { IfErr result (λ e. e ≡ OutOfMemory) }
{
    let words = escaped(alloc, words)?;
    let words = words.as_str();
    let note = format!(in alloc; "<text class=\"dim\" x=\"16\" y=\"{y}\">{words}</text>\n")?;
    Ok(text.push_str(note.as_str())?)
}

/// Words below what is drawn, line by line.
pub(crate) fn push_notes(
    alloc: Global,
    text: &mut String,
    top: u64,
    words: &str,
) -> Result<(), Refusal>
    ensures err { IfErr result (λ e. e ≡ OutOfMemory) }
{
    let mut y = top;
    for line in words.lines() {
        push_note(alloc, text, y, line)?;
        y = y.saturating_add(16);
    }
    Ok(())
}

// How many CronJobs aren't shown.
fn push_hidden(alloc: Global, text: &mut String, layout: Layout) -> Result<(), Refusal>
    ensures err { IfErr result (λ e. e ≡ OutOfMemory) }
{
    if layout.hidden == 0 {
        return Ok(());
    }
    let hidden = layout.hidden;
    let words = format!(in alloc; "CronJobs with nothing to show: {hidden}")?;
    push_note(
        alloc,
        text,
        layout.bottom.saturating_add(28),
        words.as_str(),
    )
}

impl Page {
    // What is behind the bars.
    fn push_ground(
        &self,
        alloc: Global,
        text: &mut String,
        clock: Option<&Zone>,
        called: &str,
        lines: u64,
    ) -> Result<(), Refusal>
        ensures err { IfErr result (λ e. e ≡ OutOfMemory) }
    {
        let below = lines.saturating_mul(16).saturating_add(40);
        let height = self.layout.bottom.saturating_add(below);
        push_frame(alloc, text, 960, height, called)?;
        push_caption(alloc, text, self)?;
        push_grounds(alloc, text, self.lanes.as_slice())?;
        if !self.axis.is_empty() {
            push_ticks(alloc, text, self.axis, clock, self.layout.bottom)?;
        }
        push_heads(alloc, text, self.layout, self.lanes.as_slice())
    }

    // The bars and the crosses.
    fn push_front(&self, alloc: Global, text: &mut String) -> Result<(), Refusal>
        ensures err { IfErr result (λ e. e ≡ OutOfMemory) }
    {
        let lanes = self.lanes.as_slice();
        let blocks = self.blocks.as_slice();
        push_blocks(alloc, text, self.axis, self.layout, lanes, blocks)?;
        push_crosses(alloc, text, self.axis, lanes, self.crosses.as_slice())?;
        push_hidden(alloc, text, self.layout)
    }

    /// The page as SVG, by a zone's clock or else by UTC, with what it is called, the meaning of
    /// its colours, and words below, line by line.
    pub(crate) fn text(
        &self,
        alloc: Global,
        clock: Option<&Zone>,
        called: &str,
        legend: &str,
        words: &str,
    ) -> Result<String, Refusal>
        ensures err { IfErr result (λ e. e ≡ OutOfMemory) }
    {
        let mut text = String::new(alloc);
        self.push_ground(alloc, &mut text, clock, called, line_count(words))?;
        text.push_str(legend)?;
        self.push_front(alloc, &mut text)?;
        let top = self.layout.bottom.saturating_add(44);
        push_notes(alloc, &mut text, top, words)?;
        text.push_str("</svg>\n")?;
        Ok(text)
    }
}
