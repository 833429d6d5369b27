ghost use Rattle.cj_history.specs.manifests.Created.{CreatedCronReadsBack, CreatedJobReadsBack};

use cj_manifest::manifest_laws;

/// The law of a created object: where a manifest was read without a fault and the store makes an
/// object of its draft, what is written of that object has no fault and no warning under the same
/// zones, and its draft is the first one with the object's uid and version.
pub fn created_laws()
    ensures cron_reads_back { CreatedCronReadsBack }
    ensures job_reads_back { CreatedJobReadsBack }
{
    manifest_laws();
}
