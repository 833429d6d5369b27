// Versions of the API.
ghost use Rattle.std.specs.Prelude.{◌≡◌};
ghost use Rattle.cj_control.specs.Api.{api_text};

/// The version of the API in which a server has CronJobs. Jobs are of `batch/v1` in each.
#[derive(Clone, Copy, Debug, PartialEq, Eq)]
pub enum ApiVersion {
    /// `batch/v1`, since Kubernetes 1.21.
    BatchV1,
    /// `batch/v1beta1`, up to Kubernetes 1.24.
    BatchV1Beta1,
}

impl ApiVersion {
    /// The version as `apiVersion` and paths have it.
    pub fn text(self) -> &'static str
        ensures { result.now ≡ api_text self }
    {
        match self {
            ApiVersion::BatchV1 => "batch/v1",
            ApiVersion::BatchV1Beta1 => "batch/v1beta1",
        }
    }
}
