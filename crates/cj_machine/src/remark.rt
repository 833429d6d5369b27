// What people are told.

/// How much a line matters.
#[derive(Clone, Copy, Debug, PartialEq, Eq)]
pub enum Level {
    /// What happened.
    Info,
    /// Something that somebody should look at.
    Warning,
}

impl Level {
    /// Its name, as lines have it.
    pub fn name(self) -> &'static str {
        match self {
            Level::Info => "info",
            Level::Warning => "warning",
        }
    }
}

/// A line for people.
pub struct Remark {
    pub level: Level,
    pub text: String,
}

impl Drop for Remark {
    fn drop(self) {
        let Remark { level: _, text } = self;
        drop(text);
    }
}

impl Remark {
    /// That something happened.
    pub(crate) fn info(text: String) -> Remark {
        Remark {
            level: Level::Info,
            text,
        }
    }

    /// That somebody should look.
    pub(crate) fn warning(text: String) -> Remark {
        Remark {
            level: Level::Warning,
            text,
        }
    }
}
