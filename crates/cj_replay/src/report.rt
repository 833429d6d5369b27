// The report of a world.
ghost use Rattle.std.specs.Prelude.{◌≡◌, IfOk, IfErr, string_bytes};
ghost use Rattle.cj_base.specs.declared.refusal.Refusal.TheVariants.{OutOfMemory};
ghost use Rattle.cj_report.specs.Reports.{report_of};

use cj_report::report_text;
use cj_types::Refusal;
use cj_world::World;
use std::alloc::Global;

/// The report of the world.
#[tactic(auto, unfolding(cj_report::specs::Reports::report_of))]
pub(crate) fn world_report(alloc: Global, world: &World) -> Result<String, Refusal>
    ensures ok { IfOk result (λ s. string_bytes s
        ≡ report_of world.now.limits.window world.now.history) }
    ensures err { IfErr result (λ e. e ≡ OutOfMemory) }
{
    let (crons, jobs) = world.objects()?;
    report_text(alloc, crons.as_slice(), jobs.as_slice(), world.history())
}
