// The two kinds of objects that are followed.
ghost use Rattle.std.specs.Prelude.{◌≡◌};
ghost use Rattle.cj_machine.specs.Mirror as mirror;

use cj_control::ApiVersion;

/// What a feed follows.
#[derive(Clone, Copy, Debug, PartialEq, Eq)]
pub enum Source {
    /// The CronJobs.
    Crons,
    /// The Jobs.
    Jobs,
}

impl Source {
    /// The `kind` of its objects.
    pub(crate) fn kind(self) -> &'static str
        ensures { result.now ≡ mirror.kind self }
    {
        match self {
            Source::Crons => "CronJob",
            Source::Jobs => "Job",
        }
    }

    /// The `apiVersion` of its objects, where CronJobs are of `api`.
    pub(crate) fn version(self, api: ApiVersion) -> &'static str
        ensures { result.now ≡ mirror.version api self }
    {
        match self {
            Source::Crons => api.text(),
            Source::Jobs => "batch/v1",
        }
    }

    /// The resource, as paths have it.
    pub(crate) fn resource(self) -> &'static str
        ensures { result.now ≡ mirror.resource self }
    {
        match self {
            Source::Crons => "cronjobs",
            Source::Jobs => "jobs",
        }
    }
}
