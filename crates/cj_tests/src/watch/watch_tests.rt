use crate::watch::events::added;
use cj_types::{Event, Max, Refusal, Version};
use cj_watch::{WatchLog, Window};
use std::alloc::Global;

// One write more, with the next version.
fn write(alloc: Global, log: &mut WatchLog) -> Result<(), Refusal> {
    let next = log.version().get().checked_add(1);
    let event = added(alloc, next.ok_or(Refusal::HistoryFull)?)?;
    log.make_room();
    log.push(event);
    Ok(())
}

fn log_of(alloc: Global, window: u32) -> Result<WatchLog, Refusal> {
    let window = Window::new(window).ok_or(Refusal::NotFound)?;
    WatchLog::new(alloc, window)
}

fn write_all(alloc: Global, log: &mut WatchLog, writes: u16) -> Result<(), Refusal> {
    for _ in 0..writes {
        write(alloc, log)?;
    }
    Ok(())
}

// What the log tells.
#[derive(Clone, Copy, PartialEq, Eq)]
enum Told {
    // So many events, of which the first has this version and each other the next one.
    Events(u64, usize),
    // The oldest version served.
    Expired(u64),
    Other,
}

fn refused(refusal: &Refusal) -> Told {
    match refusal {
        Refusal::Expired(oldest) => Told::Expired(oldest.get()),
        _ => Told::Other,
    }
}

// Whether the versions of the events are these, one after the other.
fn rise(events: &[Event], first: u64) -> bool {
    let mut number = first;
    for event in events {
        if event.version().get() != number {
            return false;
        }
        number = number.saturating_add(1);
    }
    true
}

fn told_of(events: &[Event]) -> Told {
    let Some(event) = events.first() else {
        return Told::Events(0, 0);
    };
    let first = event.version().get();
    if rise(events, first) {
        Told::Events(first, events.len())
    } else {
        Told::Other
    }
}

fn answer(alloc: Global, log: &WatchLog, version: u64, max: Max) -> Told {
    match log.since(alloc, Version::new(version), max) {
        Ok(events) => told_of(events.as_slice()),
        Err(refusal) => refused(&refusal),
    }
}

// The window, the number of writes, the version, the most events, and the answer.
type Row = (u32, u16, u64, u16, Told);

const ROWS: [Row; 17] = [
    (3, 6, 3, 500, Told::Events(4, 3)),
    (3, 6, 2, 500, Told::Expired(3)),
    (3, 6, 0, 500, Told::Expired(3)),
    (3, 6, 4, 500, Told::Events(5, 2)),
    (3, 6, 6, 500, Told::Events(0, 0)),
    (3, 6, 7, 500, Told::Events(0, 0)),
    (3, 6, 18_446_744_073_709_551_615, 500, Told::Events(0, 0)),
    (3, 6, 3, 1, Told::Events(4, 1)),
    (3, 6, 3, 2, Told::Events(4, 2)),
    (3, 6, 5, 2, Told::Events(6, 1)),
    (3, 3, 0, 500, Told::Events(1, 3)),
    (3, 4, 0, 500, Told::Expired(1)),
    (1, 0, 0, 500, Told::Events(0, 0)),
    (1, 1, 0, 500, Told::Events(1, 1)),
    (1, 6, 5, 500, Told::Events(6, 1)),
    (1, 6, 4, 500, Told::Expired(5)),
    (1_000, 6, 0, 500, Told::Events(1, 6)),
];

fn is_right(alloc: Global, row: &Row) -> Result<bool, Refusal> {
    let (window, writes, version, max, wanted) = *row;
    let max = Max::new(max).ok_or(Refusal::NotFound)?;
    let mut log = log_of(alloc, window)?;
    write_all(alloc, &mut log, writes)?;
    Ok(answer(alloc, &log, version, max) == wanted)
}

// The first row that is answered otherwise.
fn first_wrong(alloc: Global) -> Result<Option<usize>, Refusal> {
    for (place, row) in ROWS.iter().enumerate() {
        if !is_right(alloc, row)? {
            return Ok(Some(place));
        }
    }
    Ok(None)
}

// rule: watch-window
#[test]
fn tells_what_came_after_a_version(rt: HostRuntime) {
    let wrong = first_wrong(rt.alloc()).unwrap_or(Some(99));
    assert_eq!(rt; wrong, None);
}

// The window of so many events, 0 for none.
fn window(events: u32) -> u32 {
    match Window::new(events) {
        Some(window) => window.get(),
        None => 0,
    }
}

// rule: watch-window
#[test]
fn a_window_has_1_to_100000_events(rt: HostRuntime) {
    let windows = [window(0), window(1), window(100_000), window(100_001)];
    assert_eq!(rt; windows, [0, 1, 100_000, 0]);
}
