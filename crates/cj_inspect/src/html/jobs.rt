// The time line of the Jobs.
ghost use Rattle.std.specs.Prelude.{◌≡◌, IfErr};
ghost use Rattle.cj_base.specs.declared.refusal.Refusal.TheVariants.{OutOfMemory};

use crate::html::pictures::push_picture;
use crate::html::since::cluster_since;
use cj_audit::Finding;
use cj_cluster::Cluster;
use cj_picture::{Window, cluster_picture};
use cj_types::Refusal;
use std::alloc::Global;

const HEAD: &str = "<section id=\"jobs\">
<h2>Jobs over time</h2>
<p>A bar is a Job, from its creation to its end; a tick is its scheduled time, a cross a finding. The times are in UTC.</p>
";

/// The section of the Jobs that were made or ended in the window, or haven't ended.
pub(crate) fn push_jobs(
    alloc: Global,
    text: &mut String,
    cluster: &Cluster,
    window: Window,
    findings: &[Finding],
) -> Result<(), Refusal>
    ensures err { IfErr result (λ e. e ≡ OutOfMemory) }
{
    let seen = cluster_since(alloc, window.since, cluster)?;
    let picture = cluster_picture(alloc, &seen, window, findings, "", None)?;
    text.push_str(HEAD)?;
    push_picture(text, "Time line of the Jobs", picture.as_str())?;
    Ok(text.push_str("</section>\n")?)
}
