use cj_base::Field;

/// The fields below a Job's `spec`, which has one of two paths.
#[derive(Clone, Copy)]
pub(crate) struct PodFields {
    pub template: Field,
    pub spec: Field,
    pub restart_policy: Field,
}

/// The fields below `spec.jobTemplate.spec`.
pub(crate) const TEMPLATE_FIELDS: PodFields = PodFields {
    template: Field::JobTemplatePods,
    spec: Field::JobTemplatePodSpec,
    restart_policy: Field::JobTemplateRestartPolicy,
};

/// The fields below a Job's own `spec`.
pub(crate) const JOB_FIELDS: PodFields = PodFields {
    template: Field::Pods,
    spec: Field::PodSpec,
    restart_policy: Field::RestartPolicy,
};
