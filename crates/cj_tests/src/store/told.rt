use cj_types::{CronJob, Refusal, Shared, Version};

/// What a call is answered, in numbers.
#[derive(Clone, Copy, PartialEq, Eq)]
pub enum Answer {
    // The uid, version, generation and moment of making of the CronJob.
    Done([u64; 4]),
    // The version of a deletion.
    Gone(u64),
    // The refusal's number, and the version that it names.
    Refused(u64, u64),
}

fn refused(refusal: &Refusal) -> Answer {
    match refusal {
        Refusal::Invalid(_) => Answer::Refused(2, 0),
        Refusal::NotFound => Answer::Refused(4, 0),
        Refusal::AlreadyExists => Answer::Refused(5, 0),
        Refusal::Conflict(current) => Answer::Refused(6, current.get()),
        _ => Answer::Refused(14, 0),
    }
}

fn plain(cron: &CronJob) -> Answer {
    Answer::Done([
        cron.meta.uid.get(),
        cron.meta.version.get(),
        cron.meta.generation,
        cron.meta.created.get(),
    ])
}

pub fn done(answer: Result<Shared<CronJob>, Refusal>) -> Answer {
    match answer {
        Ok(cron) => plain(cron.get()),
        Err(refusal) => refused(&refusal),
    }
}

pub fn gone(answer: Result<Version, Refusal>) -> Answer {
    match answer {
        Ok(version) => Answer::Gone(version.get()),
        Err(refusal) => refused(&refusal),
    }
}
