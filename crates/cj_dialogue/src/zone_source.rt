// Where the zones of CronJobs come from.
use cj_io::{Failure, FileBytes};

/// What has the files of zones.
pub trait ZoneSource {
    /// The compiled file (RFC 8536) of the zone of that name, if there is one.
    ///
    /// `Memory` where memory was wanting, `Device` never.
    fn find(&mut self, name: &str) -> Result<Option<FileBytes>, Failure>;
}
