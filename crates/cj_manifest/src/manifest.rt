ghost use Rattle.std.specs.Prelude.{◌≡◌};
ghost use Rattle.cj_manifest.specs.Either.{kind_of, key_of};

use cj_types::{CronJobDraft, JobDraft, Key};

/// The draft of a manifest, by its kind.
#[derive(Debug, Drop)]
pub enum Manifest {
    /// The manifest of a CronJob.
    CronJob(CronJobDraft),
    /// The manifest of a Job.
    Job(JobDraft),
}

impl Manifest {
    /// `CronJob` or `Job`.
    pub fn kind(&self) -> &'static str
        ensures { result.now ≡ kind_of self.now }
    {
        match self {
            Manifest::CronJob(_) => "CronJob",
            Manifest::Job(_) => "Job",
        }
    }

    /// The namespace and the name in the manifest.
    pub fn key(&self) -> &Key
        ensures { result.now ≡ key_of self.now }
    {
        match self {
            Manifest::CronJob(draft) => draft.key.key(),
            Manifest::Job(draft) => &draft.key,
        }
    }
}
