ghost use Rattle.std.specs.Prelude.{◌≡◌};
ghost use Rattle.cj_manifest.specs.Warnings as table;

use crate::values::same_text;

/// An object of a manifest whose unknown members are dropped with a warning.
#[derive(Clone, Copy)]
pub(crate) enum Level {
    Top,
    CronMetadata,
    JobMetadata,
    CronSpec,
    Template,
    TemplateMetadata,
}

fn is_metadata_name(key: &str) -> bool
    ensures { result ≡ table.is_metadata_name key.now }
{
    same_text(key, "name")
        || same_text(key, "namespace")
        || same_text(key, "labels")
        || same_text(key, "annotations")
        || same_text(key, "uid")
        || same_text(key, "resourceVersion")
}

fn is_set_by_server(key: &str) -> bool
    ensures { result ≡ table.is_set_by_server key.now }
{
    same_text(key, "managedFields")
        || same_text(key, "creationTimestamp")
        || same_text(key, "generation")
        || same_text(key, "selfLink")
}

fn is_top_name(key: &str) -> bool
    ensures { result ≡ table.is_top_name key.now }
{
    same_text(key, "apiVersion")
        || same_text(key, "kind")
        || same_text(key, "metadata")
        || same_text(key, "spec")
        || same_text(key, "status")
}

fn is_cron_spec_name(key: &str) -> bool
    ensures { result ≡ table.is_cron_spec_name key.now }
{
    same_text(key, "schedule")
        || same_text(key, "timeZone")
        || same_text(key, "concurrencyPolicy")
        || same_text(key, "suspend")
        || same_text(key, "startingDeadlineSeconds")
        || same_text(key, "successfulJobsHistoryLimit")
        || same_text(key, "failedJobsHistoryLimit")
        || same_text(key, "jobTemplate")
}

impl Level {
    /// Whether a member of that name is known: read, or dropped without a warning.
    pub fn knows(self, key: &str) -> bool
        ensures { result ≡ table.is_known self key.now }
    {
        match self {
            Level::Top => is_top_name(key),
            Level::CronMetadata => is_metadata_name(key) || is_set_by_server(key),
            Level::JobMetadata => {
                same_text(key, "ownerReferences") || is_metadata_name(key) || is_set_by_server(key)
            }
            Level::CronSpec => is_cron_spec_name(key),
            Level::Template => same_text(key, "metadata") || same_text(key, "spec"),
            Level::TemplateMetadata => same_text(key, "labels") || same_text(key, "annotations"),
        }
    }

    /// The path of the level, with which the paths of its members begin.
    pub fn prefix(self) -> &'static str
        ensures { result.now ≡ table.prefix self }
    {
        match self {
            Level::Top => "",
            Level::CronMetadata => "metadata.",
            Level::JobMetadata => "metadata.",
            Level::CronSpec => "spec.",
            Level::Template => "spec.jobTemplate.",
            Level::TemplateMetadata => "spec.jobTemplate.metadata.",
        }
    }
}
