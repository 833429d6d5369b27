// The kinds of findings in the order in which the page has them, and what to do about each.
use cj_audit::FindingKind;

/// What findings have in common, whatever the policy.
#[derive(Clone, Copy, Debug, PartialEq, Eq)]
pub(crate) enum Group {
    Twice,
    Beside,
    Stuck,
    Missing,
    Early,
    Undue,
    Stray,
}

/// All of them.
pub(crate) const GROUPS: [Group; 7] = [
    Group::Twice,
    Group::Beside,
    Group::Stuck,
    Group::Missing,
    Group::Early,
    Group::Undue,
    Group::Stray,
];

/// The group of a kind.
pub(crate) fn group_of(kind: FindingKind) -> Group {
    match kind {
        FindingKind::Twice => Group::Twice,
        FindingKind::Beside(_) => Group::Beside,
        FindingKind::Undue => Group::Undue,
        FindingKind::Early => Group::Early,
        FindingKind::Missing => Group::Missing,
        FindingKind::Stray => Group::Stray,
        FindingKind::Stuck => Group::Stuck,
    }
}

impl Group {
    /// The word that `audit` prints.
    pub(crate) fn word(self) -> &'static str {
        match self {
            Group::Twice => "twice",
            Group::Beside => "beside",
            Group::Stuck => "stuck",
            Group::Missing => "missing",
            Group::Early => "early",
            Group::Undue => "undue",
            Group::Stray => "stray",
        }
    }

    /// What it is, for people.
    pub(crate) fn title(self) -> &'static str {
        match self {
            Group::Twice => "Two Jobs for one time",
            Group::Beside => "Jobs that overlapped",
            Group::Stuck => "CronJobs that are stuck",
            Group::Missing => "Due times without a Job",
            Group::Early => "Jobs made before their time",
            Group::Undue => "Jobs for times that aren't due",
            Group::Stray => "Jobs without their CronJob",
        }
    }

    /// Whether the sentence of such a finding leaves its Jobs without their names.
    pub(crate) fn leaves_jobs(self) -> bool {
        match self {
            Group::Twice | Group::Undue => true,
            Group::Beside | Group::Stuck | Group::Missing | Group::Early | Group::Stray => false,
        }
    }

    /// What to do about it.
    pub(crate) fn advice(self) -> &'static str {
        match self {
            Group::Twice => {
                "Look whether the work was done twice, and undo what must not be there twice. Find out whether two controllers ran, or one was restarted then: Kubernetes' own controller can create two Jobs for one time. Work that may be done twice without harm is the surest remedy."
            }
            Group::Beside => {
                "Look whether the two Jobs got in each other's way. If spec.concurrencyPolicy was another then, nothing is wrong; else find out which second controller ran. spec.activeDeadlineSeconds of the Job template ends a Job before the next is due."
            }
            Group::Stuck => {
                "Take the reference without a name out of status.active, as the sentence says. Until then no Job is started."
            }
            Group::Missing => {
                "Find out whether the work of this time has to be made up for: kubectl create job NEW-NAME --from=cronjob/NAME -n NAMESPACE does it by hand. Then look at the controller's log of that time, and at whether the CronJob was suspended or changed."
            }
            Group::Early => {
                "Set the clock of the machine that runs the controller: it is ahead. Look whether the Job worked on data that weren't whole yet."
            }
            Group::Undue => {
                "If spec.schedule or spec.timeZone was changed since, nothing is wrong. Else find out who creates Jobs for this CronJob beside its controller."
            }
            Group::Stray => {
                "If the list lacks CronJobs, list all of them. If the CronJob was deleted or made anew, kubectl delete job NAME -n NAMESPACE deletes what it left."
            }
        }
    }
}
