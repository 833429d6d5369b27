// The zones that a crontab names.
use crate::crontab::setting::setting_of;
use cj_types::{Refusal, Text};
use std::alloc::Global;

// The most zones of a crontab whose files are read.
const MOST_ZONES: usize = 256;

fn is_among(names: &[Text], name: &str) -> bool {
    names.iter().any(|known| known.as_str() == name)
}

// The zone that a line names.
fn zone_in(line: &[u8]) -> Option<&str> {
    let text = str::from_utf8(line).ok()?;
    let setting = setting_of(text.trim_ascii())?;
    if setting.name == "CRON_TZ" {
        Some(setting.value)
    } else {
        None
    }
}

fn push_zone(alloc: Global, names: &mut Vec<Text>, line: &[u8]) -> Result<(), Refusal> {
    let Some(name) = zone_in(line) else {
        return Ok(());
    };
    if names.len() >= MOST_ZONES || is_among(names.as_slice(), name) {
        return Ok(());
    }
    let name = Text::new(alloc, name)?;
    names.push(name).map_err(|_| Refusal::OutOfMemory)
}

/// The zones that a crontab's lines name by `CRON_TZ`, each once.
pub fn crontab_zones(alloc: Global, bytes: &[u8]) -> Result<Vec<Text>, Refusal> {
    let mut names = Vec::new(alloc);
    for line in bytes.split(|byte| *byte == b'\n') {
        push_zone(alloc, &mut names, line)?;
    }
    Ok(names)
}
