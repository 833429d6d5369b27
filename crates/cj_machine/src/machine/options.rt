use cj_base::Text;
use cj_control::ApiVersion;

/// What a controller is told when it begins.
pub struct ControlOptions {
    /// How many syncs may be under way at a time.
    pub workers: u64,
    /// Whether it only says what it would write.
    pub dry_run: bool,
    /// The one namespace that it looks after; none for all.
    pub namespace: Option<Text>,
    /// The label selector of the CronJobs that it looks after.
    pub selector: Option<Text>,
    /// Whether it looks only after CronJobs that carry the annotation `cronsim/run: "true"`, of
    /// which `spec.suspend` is then ignored.
    pub only_annotated: bool,
    /// The version of the API that CronJobs are served in.
    pub api: ApiVersion,
    /// What tells this replica from others; empty where there is one alone.
    pub replica: Text,
}

impl Drop for ControlOptions {
    fn drop(self) {
        let ControlOptions {
            workers: _,
            dry_run: _,
            namespace: _,
            selector: _,
            only_annotated: _,
            api: _,
            replica,
        } = self;
        drop(replica);
    }
}
