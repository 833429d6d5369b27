// What starts in a window of time, of the CronJobs of a list.
ghost use Rattle.std.specs.Prelude.{◌≡◌, ◌∷◌, ℕ, List, [], IfOk, IfErr, string_bytes};
ghost use Rattle.std.specs.FinMap as finmap;
ghost use Rattle.cj_base.specs.declared.refusal.Refusal.TheVariants.{OutOfMemory};
ghost use Rattle.cj_zone.specs.Table.{zones_of};
ghost use Rattle.serde_json.specs.Data.{array};
ghost use Rattle.serde_json.specs.View.{items_of, view};
ghost use Rattle.cj_c.specs.answers.Buffers.{IsTold};
ghost use Rattle.cj_c.specs.answers.Upcoming.{AreParts, IsForetold, IsIdleData, IsTooMany, IsUpcomingAnswered, IsUpcomingRefusal, IsWindowAnswered, IsWindowTold, TellsStarts, file_object, files_data, told_in, upcoming_data, upcoming_object};
ghost use Rattle.cj_c.specs.answers.Zones.{AreZonesOf};

use crate::answers::buffer::leave;
use crate::answers::lists::refused_list;
use crate::answers::text::{json_text, one_fault_text};
use crate::answers::told::Told;
use crate::answers::zones::{refused_zones, zones_of_text};
use crate::status::RANGE;
use cj_audit::others_value;
use cj_base::{Refusal, Seconds, all_four, both};
use cj_cluster::{ClusterCron, ClusterList, ItemNote, read_cluster};
use cj_explain::refused_value;
use cj_json::{object_of, time_value};
use cj_types::Shared;
use cj_upcoming::{
    Start, StartsFault, Window, peaks_value, standing_values, starts_value, upcoming,
    zone_changes_value,
};
use cj_zone::ZoneTable;
use serde_json::{Value, json};
use std::alloc::{AllocError, Global};

/// The greatest number of starts that are told.
const MOST_STARTS: usize = 4_000_000;

fn files_object(alloc: Global, others: Value, refused: Value) -> Result<Value, AllocError>
    ensures { IfOk result (λ v. view v
        ≡ array (items_of (file_object (view others) (view refused) ∷ []))) }
{
    let name = Value::Null;
    json!(in alloc; [{"file": name, "others": others, "refused": refused}])
}

// The items of the list that can't be used.
fn files_value(alloc: Global, notes: &[ItemNote]) -> Result<Value, Refusal>
    ensures ok { IfOk result (λ v. view v ≡ files_data notes.now) }
    ensures err { IfErr result (λ e. e ≡ OutOfMemory) }
{
    let (others, refused) = both(others_value(alloc, notes), refused_value(alloc, notes))?;
    Ok(files_object(alloc, others, refused)?)
}

fn idle_value(
    alloc: Global,
    zones: &ZoneTable,
    from: Seconds,
    crons: &[Shared<ClusterCron>],
) -> Result<Value, Refusal>
    ensures ok { IfOk result (λ v. IsIdleData (zones_of zones.now) from crons.now (view v)) }
    ensures err { IfErr result (λ e. e ≡ OutOfMemory) }
{
    Ok(Value::Array(standing_values(alloc, zones, from, crons)?))
}

// What a window's value is made of.
#[derive(Drop)]
struct Parts {
    changes: Value,
    idle: Value,
    all_minutes: Value,
    peaks: Value,
}

// The members of the value for these starts.
fn parts_of(
    alloc: Global,
    zones: &ZoneTable,
    window: &Window,
    crons: &[Shared<ClusterCron>],
    starts: &[Start],
    most: usize,
) -> Result<Parts, Refusal>
    ensures ok { IfOk result (λ p. AreParts (zones_of zones.now) window.now crons.now most
        starts.now (told_in p)) }
    ensures err { IfErr result (λ e. e ≡ OutOfMemory) }
{
    let (changes, idle, all_minutes, peaks) = all_four(
        zone_changes_value(alloc, zones, window, crons),
        idle_value(alloc, zones, window.from(), crons),
        starts_value(alloc, crons, starts),
        peaks_value(alloc, crons, starts, most),
    )?;
    Ok(Parts {
        changes,
        idle,
        all_minutes,
        peaks,
    })
}

// The names of its members.
const UPCOMING_NAMES: &[&str] = &[
    "changes", "cronJobs", "files", "from", "idle", "minutes", "peaks", "starts", "to",
];

fn upcoming_object(
    alloc: Global,
    ends: (Value, Value),
    counts: (usize, usize),
    files: Value,
    parts: Parts,
) -> Result<Value, AllocError>
    ensures { IfOk result (λ v. view v ≡ upcoming_object (view ends.0) (view ends.1) counts.0
        counts.1 (view files) (told_in parts)) }
{
    let (from, to) = ends;
    let (crons, starts) = (Value::from(counts.0), Value::from(counts.1));
    let Parts {
        changes,
        idle,
        all_minutes,
        peaks,
    } = parts;
    let values = [
        changes,
        crons,
        files,
        from,
        idle,
        all_minutes,
        peaks,
        starts,
        to,
    ];
    object_of(alloc, UPCOMING_NAMES, values)
}

fn upcoming_value(
    alloc: Global,
    window: &Window,
    counts: (usize, usize),
    files: Value,
    parts: Parts,
) -> Result<Value, Refusal>
    ensures ok { IfOk result (λ v. view v
        ≡ upcoming_data window.now counts.0 counts.1 (view files) (told_in parts)) }
    ensures err { IfErr result (λ e. e ≡ OutOfMemory) }
{
    let ends = both(
        time_value(alloc, window.from()),
        time_value(alloc, window.end()),
    )?;
    Ok(upcoming_object(alloc, ends, counts, files, parts)?)
}

// The text of these starts of a window.
fn starts_text(
    alloc: Global,
    zones: &ZoneTable,
    window: &Window,
    crons: &[Shared<ClusterCron>],
    notes: &[ItemNote],
    starts: &[Start],
    most: usize,
) -> Result<String, Refusal>
    ensures ok { IfOk result (λ s. TellsStarts (zones_of zones.now) window.now crons.now notes.now
        most starts.now (string_bytes s)) }
    ensures err { IfErr result (λ e. e ≡ OutOfMemory) }
{
    let files = files_value(alloc, notes)?;
    let parts = parts_of(alloc, zones, window, crons, starts, most)?;
    let counts = (crons.len(), starts.len());
    let value = upcoming_value(alloc, window, counts, files, parts)?;
    json_text(alloc, &value)
}

// What is told of a window for these CronJobs.
fn window_told(
    alloc: Global,
    zones: &ZoneTable,
    window: &Window,
    crons: &[Shared<ClusterCron>],
    notes: &[ItemNote],
    most: usize,
) -> Result<Told, Refusal>
    ensures ok { IfOk result (IsTold (IsWindowTold (zones_of zones.now) window.now crons.now
        notes.now most) (IsTooMany (zones_of zones.now) window.now crons.now)) }
    ensures err { IfErr result (λ e. e ≡ OutOfMemory) }
{
    match upcoming(alloc, zones, window, crons, MOST_STARTS) {
        Ok(starts) => {
            let starts = starts.as_slice();
            let text = starts_text(alloc, zones, window, crons, notes, starts, most)?;
            Ok(Told::Done(text))
        }
        Err(StartsFault::TooMany) => Ok(Told::Refused(one_fault_text(alloc, "TooMany", "$")?)),
        Err(StartsFault::Memory) => Err(Refusal::OutOfMemory),
    }
}

// The same for the CronJobs of a list.
fn list_told(
    alloc: Global,
    zones: &ZoneTable,
    window: &Window,
    list: &ClusterList,
    most: usize,
) -> Result<Told, Refusal>
    ensures ok { IfOk result (IsTold (IsWindowTold (zones_of zones.now) window.now
        (finmap.values list.now.cluster.crons) list.now.notes most)
        (IsTooMany (zones_of zones.now) window.now (finmap.values list.now.cluster.crons))) }
    ensures err { IfErr result (λ e. e ≡ OutOfMemory) }
{
    let crons = list.cluster.crons(alloc)?;
    let notes = list.notes.as_slice();
    window_told(alloc, zones, window, crons.as_slice(), notes, most)
}

// The answer for the bytes of a list under these zones.
fn foretold_under(
    alloc: Global,
    bytes: &[u8],
    zones: &ZoneTable,
    window: &Window,
    most: usize,
) -> Result<Told, Refusal>
    ensures ok { (zones_text : List ℕ) → AreZonesOf zones_text (zones_of zones.now) →
        IfOk result (IsTold (IsForetold bytes.now zones_text window.now most)
        (IsUpcomingRefusal bytes.now zones_text window.now)) }
    ensures err { IfErr result (λ e. e ≡ OutOfMemory) }
{
    match read_cluster(alloc, bytes, zones) {
        Ok(list) => list_told(alloc, zones, window, &list, most),
        Err(fault) => Ok(Told::Refused(refused_list(alloc, fault)?)),
    }
}

fn foretold(
    alloc: Global,
    bytes: &[u8],
    zones: &[u8],
    window: &Window,
    most: usize,
) -> Result<Told, Refusal>
    ensures ok { IfOk result (IsTold (IsForetold bytes.now zones.now window.now most)
        (IsUpcomingRefusal bytes.now zones.now window.now)) }
    ensures err { IfErr result (λ e. e ≡ OutOfMemory) }
{
    match zones_of_text(alloc, zones) {
        Ok(zones) => foretold_under(alloc, bytes, &zones, window, most),
        Err(fault) => Ok(Told::Refused(refused_zones(alloc, fault)?)),
    }
}

// Leaves what is answered for a window in the caller's buffer.
fn leave_window(
    alloc: Global,
    list: &[u8],
    zones: &[u8],
    window: &Window,
    most: usize,
    answer: &mut [u8],
    length: &mut usize,
) -> u32
    ensures { IsWindowAnswered list.now zones.now window.now most answer.old answer.new length.old
        length.new result }
{
    leave(foretold(alloc, list, zones, window, most), answer, length)
}

/// What the CronJobs in what `kubectl get cronjobs,jobs -o json` prints start in the `span` seconds
/// from an instant on, under UTC and the zones of an object from names to POSIX rules, or no text:
/// each minute with its CronJobs, the `peaks` fullest minutes, where clocks are put, and the
/// CronJobs that start nothing, as JSON; or why that isn't told.
#[unsafe(no_mangle)]
pub extern "C" fn cronsim_upcoming(
    alloc: Global,
    list: &[u8],
    zones: &[u8],
    from: u64,
    span: u64,
    peaks: u32,
    answer: &mut [u8],
    length: &mut usize,
) -> u32
    ensures { IsUpcomingAnswered list.now zones.now from span peaks answer.old answer.new length.old
        length.new result }
{
    let Some(from) = Seconds::new(from) else {
        return RANGE;
    };
    let Some(window) = Window::new(from, span) else {
        return RANGE;
    };
    leave_window(alloc, list, zones, &window, peaks as usize, answer, length)
}
