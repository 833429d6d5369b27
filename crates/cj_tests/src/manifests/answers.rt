use cj_manifest::{Warning, read_cronjob, read_job};
use cj_types::{Key, Refusal};
use cj_zone::ZoneTable;
use std::alloc::{AllocError, Global};

// UTC and one more zone.
pub fn zones(alloc: Global) -> Result<ZoneTable, Refusal> {
    let mut zones = ZoneTable::new(alloc)?;
    zones.add_rule("Europe/Rome", "CET-1CEST,M3.5.0,M10.5.0/3")?;
    Ok(zones)
}

fn refused(alloc: Global, refusal: Refusal) -> Result<String, AllocError> {
    let Refusal::Invalid(faults) = refusal else {
        return format!(in alloc; "{refusal}");
    };
    let mut text = String::new(alloc);
    for fault in faults.as_slice() {
        let line = format!(in alloc; "{fault}, ")?;
        text.push_str(line.as_str())?;
    }
    String::from_str(alloc, text.as_str().strip_suffix(", ").unwrap_or("none"))
}

fn accepted(alloc: Global, key: &Key, warnings: &[Warning]) -> Result<String, AllocError> {
    let mut text = format!(in alloc; "ok {}/{}", key.namespace(), key.name())?;
    for warning in warnings {
        let line = format!(in alloc; " warning {warning}")?;
        text.push_str(line.as_str())?;
    }
    Ok(text)
}

// What the text of a CronJob is answered.
pub fn cron_answer(alloc: Global, zones: &ZoneTable, text: &str) -> Result<String, AllocError> {
    match read_cronjob(alloc, text.as_bytes(), zones) {
        Ok((draft, warnings)) => accepted(alloc, draft.key.key(), warnings.as_slice()),
        Err(refusal) => refused(alloc, refusal),
    }
}

// What the text of a Job is answered.
pub fn job_answer(alloc: Global, text: &str) -> Result<String, AllocError> {
    match read_job(alloc, text.as_bytes()) {
        Ok((draft, warnings)) => accepted(alloc, &draft.key, warnings.as_slice()),
        Err(refusal) => refused(alloc, refusal),
    }
}
