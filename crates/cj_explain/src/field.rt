// What each field of a manifest wants.
ghost use Rattle.std.specs.Prelude.{◌≡◌};
ghost use Rattle.cj_explain.specs.Fields.{choices, form, most, need, numbers, text_form};

use cj_base::Field;

/// The JSON type of a field's value.
pub(crate) fn form(field: Field) -> &'static str
    ensures { result.now ≡ form field }
{
    match field {
        Field::Labels
        | Field::Annotations
        | Field::JobTemplateLabels
        | Field::JobTemplateAnnotations
        | Field::Zones => "an object of texts",
        Field::OwnerReferences => "a list of owner references",
        Field::ApiVersion
        | Field::Kind
        | Field::Name
        | Field::Namespace
        | Field::Uid
        | Field::ResourceVersion
        | Field::ScheduleText
        | Field::TimeZone
        | Field::ConcurrencyPolicy
        | Field::JobTemplateRestartPolicy
        | Field::RestartPolicy => "a text",
        Field::CreationTimestamp
        | Field::ScheduledTimestamp
        | Field::LastScheduleTime
        | Field::LastSuccessfulTime
        | Field::CompletionTime => "a time",
        Field::Active => "a list of objects, each with a name",
        Field::Conditions => "a list of objects, each with a type and a status",
        Field::Suspend => "true or false",
        Field::StartingDeadlineSeconds
        | Field::SuccessfulJobsHistoryLimit
        | Field::FailedJobsHistoryLimit => "a whole number",
        _ => "an object",
    }
}

/// The texts that a field may have.
pub(crate) fn choices(field: Field) -> &'static str
    ensures { result.now ≡ choices field }
{
    match field {
        Field::ApiVersion => "batch/v1",
        Field::Kind => "CronJob or Job",
        Field::ConcurrencyPolicy => "Allow, Forbid or Replace",
        Field::JobTemplateRestartPolicy | Field::RestartPolicy => "Never or OnFailure",
        _ => "another text",
    }
}

/// What a field wants that is left out.
pub(crate) fn need(field: Field) -> &'static str
    ensures { result.now ≡ need field }
{
    match field {
        Field::ApiVersion | Field::Kind | Field::JobTemplateRestartPolicy | Field::RestartPolicy =>
            choices(field),
        Field::Uid => {
            "the text that the cluster gives it; kubectl get -o json prints it, and a manifest has none"
        }
        Field::ScheduleText => "a schedule like */15 * * * *",
        _ => form(field),
    }
}

/// The numbers that a field may have.
pub(crate) fn numbers(field: Field) -> &'static str
    ensures { result.now ≡ numbers field }
{
    match field {
        Field::StartingDeadlineSeconds => "0 to 9223372036854775807",
        Field::SuccessfulJobsHistoryLimit | Field::FailedJobsHistoryLimit => "0 to 2147483647",
        _ => "another number",
    }
}

/// Of what form a field's text is.
pub(crate) fn text_form(field: Field) -> &'static str
    ensures { result.now ≡ text_form field }
{
    match field {
        Field::CreationTimestamp
        | Field::LastScheduleTime
        | Field::LastSuccessfulTime
        | Field::CompletionTime => "a time like 2024-01-01T00:00:00Z",
        Field::ScheduledTimestamp => {
            "a time like 2024-01-01T00:00:00Z or 2024-01-01T01:00:00+01:00"
        }
        Field::Conditions => "a lastTransitionTime like 2024-01-01T00:00:00Z",
        _ => "a to z, 0 to 9, - and in a name dots, with a letter or a digit at both ends",
    }
}

/// How long a field's text may be.
pub(crate) fn most(field: Field) -> &'static str
    ensures { result.now ≡ most field }
{
    match field {
        Field::Name => "at most 63 characters, in a CronJob 52",
        _ => "at most 63 characters",
    }
}
