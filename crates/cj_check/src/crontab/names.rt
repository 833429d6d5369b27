// The names of CronJobs, made of their commands.
use crate::crontab::when::next_word;
use std::alloc::{AllocError, Global};
use std::collections::BTreeMap;

// The most characters of a CronJob's name (Kubernetes CronJob, "Writing a CronJob spec").
const MOST_NAME: usize = 52;

/// The names that are taken, each with the number that the next CronJob with that name gets.
#[derive(Drop)]
pub(crate) struct Names {
    numbers: BTreeMap<String, u32>,
}

// The character of a name that stands for a byte of a command.
fn name_byte(byte: u8) -> char {
    if byte.is_ascii_alphanumeric() {
        char::from(byte.to_ascii_lowercase())
    } else {
        '-'
    }
}

// The first so many characters of a name in ASCII, without dashes at its ends.
fn trimmed(text: &str, most: usize) -> &str {
    let text = text.trim_start_matches('-');
    let front = match text.split_at_checked(most) {
        Some((front, _)) => front,
        None => text,
    };
    front.trim_end_matches('-')
}

// The name of the file that a command begins with.
fn file_name(command: &str) -> &str {
    let (word, _) = next_word(command);
    match word.rsplit_once('/') {
        Some((_, name)) => name,
        None => word,
    }
}

/// A DNS label made of the name of the file that a command begins with; `job` where nothing is left
/// of it.
fn label_of(alloc: Global, command: &str) -> Result<String, AllocError> {
    let mut text = String::new(alloc);
    for byte in file_name(command).as_bytes().iter().take(MOST_NAME) {
        text.push(name_byte(*byte))?;
    }
    let label = trimmed(text.as_str(), MOST_NAME);
    String::from_str(alloc, if label.is_empty() { "job" } else { label })
}

// The label with a number behind it.
fn numbered(alloc: Global, label: &str, number: u32) -> Result<String, AllocError> {
    let end = format!(in alloc; "-{number}")?;
    let front = trimmed(label, MOST_NAME.saturating_sub(end.len()));
    let end = end.as_str();
    format!(in alloc; "{front}{end}")
}

impl Names {
    /// None is taken.
    pub(crate) fn new(alloc: Global) -> Names {
        Names {
            numbers: BTreeMap::new(alloc),
        }
    }

    fn number_of(&self, name: &str) -> Option<u32> {
        self.numbers.get(name).copied()
    }

    fn take(&mut self, alloc: Global, name: &str, next: u32) -> Result<(), AllocError> {
        let key = String::from_str(alloc, name)?;
        match self.numbers.insert(key, next) {
            Ok(_) => Ok(()),
            Err(_) => Err(AllocError),
        }
    }

    // The label with the first number from that on with which it is free.
    fn free_name(
        &self,
        alloc: Global,
        label: &str,
        from: u32,
    ) -> Result<(String, u32), AllocError> {
        for number in from..u32::MAX {
            let name = numbered(alloc, label, number)?;
            if self.number_of(name.as_str()).is_none() {
                return Ok((name, number));
            }
        }
        Ok((String::from_str(alloc, label)?, from))
    }

    /// A name for the CronJob of a command, which no other has.
    pub(crate) fn name_for(&mut self, alloc: Global, command: &str) -> Result<String, AllocError> {
        let label = label_of(alloc, command)?;
        let Some(from) = self.number_of(label.as_str()) else {
            self.take(alloc, label.as_str(), 2)?;
            return Ok(label);
        };
        let (name, number) = self.free_name(alloc, label.as_str(), from)?;
        self.take(alloc, label.as_str(), number.saturating_add(1))?;
        self.take(alloc, name.as_str(), 2)?;
        Ok(name)
    }
}
