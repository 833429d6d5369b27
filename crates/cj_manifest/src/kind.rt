ghost use Rattle.std.specs.Prelude.{◌≡◌};
ghost use Rattle.cj_manifest.specs.Table as fields;

/// The kind of object as which a manifest is read.
#[derive(Clone, Copy)]
pub(crate) enum ObjectKind {
    Cron,
    Job,
}

impl ObjectKind {
    /// `CronJob` or `Job`.
    pub fn name(self) -> &'static str
        ensures { result.now ≡ fields.kind_name self }
    {
        match self {
            ObjectKind::Cron => "CronJob",
            ObjectKind::Job => "Job",
        }
    }

    /// The most characters of a name: the names of a CronJob's Jobs are up to 11 characters longer
    /// than its own.
    pub fn name_limit(self) -> usize
        ensures { result ≡ fields.name_limit self }
    {
        match self {
            ObjectKind::Cron => 52,
            ObjectKind::Job => 63,
        }
    }
}
