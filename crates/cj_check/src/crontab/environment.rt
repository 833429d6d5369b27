// The variables that the lines above have set.
use crate::crontab::setting::Setting;
use std::alloc::{AllocError, Global};

// The most variables that a crontab may set.
const MOST_VARIABLES: usize = 256;

/// The variables that are set, in the order in which their names came.
#[derive(Drop)]
pub(crate) struct Environment<'a> {
    settings: Vec<Setting<'a>>,
}

impl<'a> Environment<'a> {
    /// None yet.
    pub(crate) fn new(alloc: Global) -> Environment<'a> {
        Environment {
            settings: Vec::new(alloc),
        }
    }

    fn place_of(&self, name: &str) -> Option<usize> {
        self.settings
            .iter()
            .position(|setting| setting.name == name)
    }

    /// Sets a variable. Answers whether there was room for its name.
    pub(crate) fn set(&mut self, setting: Setting<'a>) -> Result<bool, AllocError> {
        if let Some(place) = self.place_of(setting.name) {
            if place < self.settings.len() {
                self.settings[place] = setting;
            }
            return Ok(true);
        }
        if self.settings.len() >= MOST_VARIABLES {
            return Ok(false);
        }
        self.settings.push(setting).map_err(AllocError::from)?;
        Ok(true)
    }

    /// The value of a variable, if it is set.
    pub(crate) fn value(&self, name: &str) -> Option<&'a str> {
        for setting in &self.settings {
            if setting.name == name {
                return Some(setting.value);
            }
        }
        None
    }

    /// The variables.
    pub(crate) fn settings(&self) -> &[Setting<'a>] {
        self.settings.as_slice()
    }
}
