ghost use Rattle.std.specs.Prelude.{◌≡◌};
ghost use Rattle.cj_base.specs.Field.{path_of};

use std::fmt;

/// A field that may have a fault, named by its path in the manifest or in an object of a cluster.
#[derive(Clone, Copy, Debug, PartialEq, Eq)]
pub enum Field {
    /// The whole manifest.
    Whole,
    ApiVersion,
    Kind,
    Metadata,
    Name,
    Namespace,
    Labels,
    Annotations,
    Uid,
    ResourceVersion,
    OwnerReferences,
    /// When the server made the object.
    CreationTimestamp,
    /// The annotation of a Job with the time for which it was made.
    ScheduledTimestamp,
    Spec,
    ScheduleText,
    TimeZone,
    ConcurrencyPolicy,
    Suspend,
    StartingDeadlineSeconds,
    SuccessfulJobsHistoryLimit,
    FailedJobsHistoryLimit,
    JobTemplate,
    JobTemplateMetadata,
    JobTemplateLabels,
    JobTemplateAnnotations,
    JobTemplateSpec,
    /// The pods' template in a CronJob's `jobTemplate`.
    JobTemplatePods,
    JobTemplatePodSpec,
    JobTemplateRestartPolicy,
    /// The pods' template of a Job.
    Pods,
    PodSpec,
    RestartPolicy,
    Status,
    Active,
    LastScheduleTime,
    LastSuccessfulTime,
    Conditions,
    CompletionTime,
    /// The table of zones.
    Zones,
}

impl Field {
    /// The dotted path, `$` for the whole.
    pub fn path(self) -> &'static str
        ensures { result.now ≡ path_of self }
    {
        match self {
            Field::Whole => "$",
            Field::ApiVersion => "apiVersion",
            Field::Kind => "kind",
            Field::Metadata => "metadata",
            Field::Name => "metadata.name",
            Field::Namespace => "metadata.namespace",
            Field::Labels => "metadata.labels",
            Field::Annotations => "metadata.annotations",
            Field::Uid => "metadata.uid",
            Field::ResourceVersion => "metadata.resourceVersion",
            Field::OwnerReferences => "metadata.ownerReferences",
            Field::CreationTimestamp => "metadata.creationTimestamp",
            Field::ScheduledTimestamp => {
                "metadata.annotations.batch.kubernetes.io/cronjob-scheduled-timestamp"
            }
            Field::Spec => "spec",
            Field::ScheduleText => "spec.schedule",
            Field::TimeZone => "spec.timeZone",
            Field::ConcurrencyPolicy => "spec.concurrencyPolicy",
            Field::Suspend => "spec.suspend",
            Field::StartingDeadlineSeconds => "spec.startingDeadlineSeconds",
            Field::SuccessfulJobsHistoryLimit => "spec.successfulJobsHistoryLimit",
            Field::FailedJobsHistoryLimit => "spec.failedJobsHistoryLimit",
            Field::JobTemplate => "spec.jobTemplate",
            Field::JobTemplateMetadata => "spec.jobTemplate.metadata",
            Field::JobTemplateLabels => "spec.jobTemplate.metadata.labels",
            Field::JobTemplateAnnotations => "spec.jobTemplate.metadata.annotations",
            Field::JobTemplateSpec => "spec.jobTemplate.spec",
            Field::JobTemplatePods => "spec.jobTemplate.spec.template",
            Field::JobTemplatePodSpec => "spec.jobTemplate.spec.template.spec",
            Field::JobTemplateRestartPolicy => "spec.jobTemplate.spec.template.spec.restartPolicy",
            Field::Pods => "spec.template",
            Field::PodSpec => "spec.template.spec",
            Field::RestartPolicy => "spec.template.spec.restartPolicy",
            Field::Status => "status",
            Field::Active => "status.active",
            Field::LastScheduleTime => "status.lastScheduleTime",
            Field::LastSuccessfulTime => "status.lastSuccessfulTime",
            Field::Conditions => "status.conditions",
            Field::CompletionTime => "status.completionTime",
            Field::Zones => "zones",
        }
    }
}

impl fmt::Display for Field {
    ghost use Rattle.std.specs.Prelude.{Some};

    ghost output = { λ x. Some (path_of x) };

    fn fmt<W: fmt::Write>(&self, f: &mut fmt::Formatter<W>) -> fmt::Result {
        write!(f, "{}", self.path())
    }
}
