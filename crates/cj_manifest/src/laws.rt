ghost use Rattle.cj_manifest.specs.Laws.{CronReadsBack, JobReadsBack};

/// The law of reading and writing. Take a manifest without a fault, and an object that has what its
/// draft says, as the object that a create makes of it. That object as it is written has no fault
/// and no warning under the same zones, and reads as that draft with the object's uid and version.
pub fn manifest_laws()
    ensures cron_reads_back { CronReadsBack }
    ensures job_reads_back { JobReadsBack }
{}
