// The controller: lines in, lines out.
ghost use Rattle.std.specs.Prelude.{◌≡◌, [], IfOk, IfErr, map, string_bytes};
ghost use Rattle.cj_base.specs.declared.refusal.Refusal.TheVariants.{OutOfMemory};
ghost use Rattle.cj_control.specs.Syncs.{IsNew};
ghost use Rattle.cj_machine.specs.Out.{AreLines};

mod choice;
mod choosing;
mod clearing;
mod clock;
mod driver;
mod error_log;
mod errors;
mod event_log;
mod events;
mod finishing;
mod hearing;
mod lasting;
mod listing;
mod making;
mod measures;
mod memo;
mod numbers;
mod options;
mod others;
mod out;
mod planning;
mod reading;
mod saying;
mod starting;
mod steps;
mod strangers;
mod syncing;
mod task;
mod view;
mod walking;

use crate::machine::driver::Driver;
use crate::machine::events::tell_event;
use crate::machine::finishing::end_stuck;
use crate::machine::measures::measures_of;
use crate::machine::out::lines_of;
use crate::machine::syncing::{answered, begin_next};
use crate::remark::Remark;
use crate::source::Source;
use cj_base::{Refusal, Text};
use cj_control::{Ledger, Line, LineFault, LineKind, read_line};
use cj_queue::Secret;
use cj_zone::ZoneTable;
pub use options::ControlOptions;
use serde_json::Value;
use std::alloc::Global;
use std::marker::Model;
use std::mem;

/// More syncs than begin at one line.
const MOST_SYNCS: u64 = 1_000_000;

/// A controller of CronJobs: a line in, and then the requests that are to be sent. Contracts see
/// its ledger.
pub struct Machine {
    ledger: Ledger,
    driver: Driver,
}

impl Drop for Machine {
    fn drop(self) {
        let Machine { ledger, driver } = self;
        drop(ledger);
        drop(driver);
    }
}

impl Model for Machine {
    ghost use Rattle.cj_control.specs.Syncs.{LedgerView, coded_ledger};

    ghost Value = { LedgerView };

    ghost coded = { coded_ledger };

    ghost view = { λ m. m.ledger };
}

impl Machine {
    /// A controller that has heard nothing yet. The secret is that of the hashes of its queue.
    pub fn new(alloc: Global, options: ControlOptions, secret: Secret) -> Result<Machine, Refusal>
        ensures ok { IfOk result (IsNew options.workers) }
        ensures err { IfErr result (λ e. e ≡ OutOfMemory) }
    {
        let ledger = Ledger::new(alloc, options.workers);
        let driver = Driver::new(alloc, options, secret)?;
        Ok(Machine { ledger, driver })
    }

    /// Takes a line, without its end. A line that is none is told to people. Where memory is
    /// wanting, what the line said may be lost: a sync then ends, and a list begins anew.
    pub fn line(&mut self, alloc: Global, bytes: &[u8], zones: &ZoneTable) -> Result<(), Refusal> {
        let (ledger, driver) = (&mut self.ledger, &mut self.driver);
        match read_line(alloc, bytes) {
            Ok(line) => take(ledger, driver, alloc, zones, &line),
            Err(LineFault::Memory) => Err(Refusal::OutOfMemory),
            Err(_) => driver.warn(String::from_str(alloc, "ignored a malformed line")?),
        }
    }

    /// The lines of the requests since the last call, without their ends. Where memory is wanting,
    /// they are lost: a sync that asked ends after five minutes, and the lists begin anew.
    pub fn take_out(&mut self, alloc: Global) -> Result<Vec<String>, Refusal>
        ensures ok { IfOk result (λ ls. AreLines self.old.deeds (map string_bytes ls.items)) }
        ensures err { IfErr result (λ e. e ≡ OutOfMemory) }
        ensures after { self.new ≡ record self.old { deeds = [] } }
    {
        let lines = lines_of(alloc, self.ledger.take_deeds(alloc));
        if lines.is_err() {
            self.driver.forget_feeds();
        }
        lines
    }

    /// The lines for people since the last call.
    pub fn take_told(&mut self, alloc: Global) -> Vec<Remark> {
        mem::replace(&mut self.driver.told, Vec::new(alloc))
    }

    /// What this machine's clock said last, in seconds since 1970; 0 before the first time.
    pub fn local_time(&self) -> u64 {
        self.driver.local()
    }

    /// What it has counted, and how it is, as a JSON value.
    pub fn measures(&self, alloc: Global) -> Result<Value, Refusal> {
        measures_of(alloc, &self.driver)
    }

    /// The names of zones that are wanted since the last call.
    pub fn take_zones(&mut self, alloc: Global) -> Vec<Text> {
        mem::replace(&mut self.driver.wanted, Vec::new(alloc))
    }

    /// Whether it was told to stop, and no sync is under way any more.
    pub fn is_done(&self) -> bool {
        self.driver.is_stopping && self.driver.tasks.is_empty()
    }
}

// What a line says is done, and then what can begin.
fn take(
    ledger: &mut Ledger,
    driver: &mut Driver,
    alloc: Global,
    zones: &ZoneTable,
    line: &Line,
) -> Result<(), Refusal> {
    came(ledger, driver, alloc, zones, line)?;
    begin_all(ledger, driver, alloc, zones)?;
    follow(ledger, driver, alloc)
}

fn came(
    ledger: &mut Ledger,
    driver: &mut Driver,
    alloc: Global,
    zones: &ZoneTable,
    line: &Line,
) -> Result<(), Refusal> {
    if let Some(id) = unsent(ledger, line.kind) {
        return driver.warn(format!(in alloc;
            "ignored an answer to request {id}, which was never sent"
        )?);
    }
    driver.hear_clock(line);
    match line.kind {
        LineKind::Clock(now) => pass_time(ledger, driver, alloc, now),
        LineKind::Stop => {
            driver.is_stopping = true;
            Ok(())
        }
        LineKind::Answered(id, _) => came_for(ledger, driver, alloc, zones, id, line),
        LineKind::Failed(id) => came_for(ledger, driver, alloc, zones, id, line),
        LineKind::Told(id) => driver.told_for(alloc, id, line),
    }
}

// The number of a request that a line is about though it was never sent.
fn unsent(ledger: &Ledger, kind: LineKind) -> Option<u64> {
    let id = match kind {
        LineKind::Answered(id, _) | LineKind::Failed(id) | LineKind::Told(id) => id,
        LineKind::Clock(_) | LineKind::Stop => return None,
    };
    if ledger.has_sent(id) { None } else { Some(id) }
}

// An answer to the request of a number, or that none came.
fn came_for(
    ledger: &mut Ledger,
    driver: &mut Driver,
    alloc: Global,
    zones: &ZoneTable,
    id: u64,
    line: &Line,
) -> Result<(), Refusal> {
    if driver.version_id == Some(id) {
        return driver.hear_version(alloc, line);
    }
    match driver.feed_of(id) {
        Some(source) => driver.hear_feed(alloc, source, line),
        None => answered(ledger, driver, alloc, zones, id, line),
    }
}

// The clock is at this second.
fn pass_time(
    ledger: &mut Ledger,
    driver: &mut Driver,
    alloc: Global,
    now: u64,
) -> Result<(), Refusal> {
    ledger.tick(now)?;
    driver.set_clock(alloc, now)?;
    driver.tell_clocks(alloc)?;
    end_stuck(ledger, driver, alloc)?;
    driver.tick()
}

// Syncs begin, as many as there are keys in line and workers.
fn begin_all(
    ledger: &mut Ledger,
    driver: &mut Driver,
    alloc: Global,
    zones: &ZoneTable,
) -> Result<(), Refusal> {
    for _ in 0..MOST_SYNCS {
        if !begin_next(ledger, driver, alloc, zones)? {
            return Ok(());
        }
    }
    Ok(())
}

// What is to be read of the cluster is asked for.
fn follow(ledger: &mut Ledger, driver: &mut Driver, alloc: Global) -> Result<(), Refusal> {
    if driver.is_stopping || driver.local() == 0 {
        return Ok(());
    }
    if driver.by.is_none() || driver.clock.is_in_doubt() {
        ask_version(ledger, driver, alloc)?;
    }
    if driver.by.is_none() {
        return Ok(());
    }
    follow_source(ledger, driver, alloc, Source::Crons)?;
    follow_source(ledger, driver, alloc, Source::Jobs)?;
    tell_events(ledger, driver, alloc)
}

// The Events that are to be told are told, as many as this minute has room for.
fn tell_events(ledger: &mut Ledger, driver: &mut Driver, alloc: Global) -> Result<(), Refusal> {
    for _ in 0..MOST_SYNCS {
        if !tell_event(ledger, driver, alloc)? {
            return Ok(());
        }
    }
    Ok(())
}

// The server's version is asked for.
fn ask_version(ledger: &mut Ledger, driver: &mut Driver, alloc: Global) -> Result<(), Refusal> {
    if driver.version_id.is_some() || driver.local() < driver.version_at {
        return Ok(());
    }
    driver.version_id = steps::read(ledger, Text::new(alloc, "/version")?)?;
    Ok(())
}

// What a feed asks next is asked.
fn follow_source(
    ledger: &mut Ledger,
    driver: &mut Driver,
    alloc: Global,
    source: Source,
) -> Result<(), Refusal> {
    let Some(path) = driver.next_path(alloc, source)? else {
        return Ok(());
    };
    match steps::read(ledger, path) {
        Ok(id) => {
            driver.set_feed(source, id);
            Ok(())
        }
        Err(refusal) => {
            let now = driver.local();
            driver.feeds.forget_answer(source, now);
            Err(refusal)
        }
    }
}
