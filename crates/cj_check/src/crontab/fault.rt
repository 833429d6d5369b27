// Why a line is refused.
use std::alloc::AllocError;
use thiserror::Error;

/// Why a line of a crontab is refused, and what to do.
#[derive(Debug, Drop, Error)]
pub(crate) enum LineFault {
    #[error("no UTF-8, so no manifest can have it: convert it, as iconv -t UTF-8 does")]
    NotUtf8,
    #[error("a carriage return, which cron takes for part of a command: sed 's/\\r//' removes it")]
    CarriageReturn,
    #[error("a control character: remove it")]
    Control,
    #[error("neither NAME=value nor five fields and a command")]
    Fields,
    #[error("no value: write \"\" for an empty one")]
    NoValue,
    #[error("no command behind the schedule")]
    NoCommand,
    #[error("with --system a user and a command are wanted behind the schedule")]
    NoUser,
    #[error("with --system a user is wanted behind the schedule; without it the command is")]
    BadUser,
    #[error("~ lets cron pick a time, and a CronJob can't: write the time, such as 17")]
    Random,
    #[error("cron knows no ?: write *")]
    Question,
    #[error("no macro of cron: write the five fields, such as * * * * * for every minute")]
    Macro,
    #[error("no such zone: name a zone file, as Europe/Berlin, or give --zone NAME=RULE")]
    Zone,
    #[error("more than 256 variables: set fewer")]
    Variables,
    #[error("more than 100,000 lines: give the rest in another file")]
    Lines,
    #[error("{0}")]
    Schedule(String),
}

/// Why a line couldn't be read.
#[derive(Debug, Drop)]
pub(crate) enum LineError {
    Fault(LineFault),
    OutOfMemory,
}

impl From<LineFault> for LineError {
    fn from(fault: LineFault) -> LineError {
        LineError::Fault(fault)
    }
}

impl From<AllocError> for LineError {
    fn from(_error: AllocError) -> LineError {
        LineError::OutOfMemory
    }
}
