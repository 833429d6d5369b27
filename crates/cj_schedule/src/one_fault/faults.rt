ghost use Rattle.std.specs.Prelude.{◌≡◌, Some, IfSome, IfNone};
ghost use Rattle.cj_base.specs.declared.schedule_fault.ScheduleFault.{ScheduleFault};
ghost use Rattle.cj_schedule.specs.Grammar.{IsSchedule};
ghost use Rattle.cj_schedule.specs.Matches.{Sets};
ghost use Rattle.cj_schedule.specs.one_fault.OneFault.{IsFaultOf, NoTwoFaults, FaultyIsNoSchedule, ToldIsFault};

use crate::schedule::Schedule;
use cj_base::ScheduleFault;

/// No text has two faults; a text with a fault is no schedule; a text is refused with the fault
/// that it has.
pub fn fault_laws()
    ensures one { NoTwoFaults }
    ensures faulty { FaultyIsNoSchedule }
    ensures told { ToldIsFault }
{}

/// The one fault of a text, or none where it is a schedule.
pub fn fault_in(text: &str) -> Option<ScheduleFault>
    ensures found { IfSome result (λ fault. IsFaultOf text.now fault) }
    ensures only { (fault : ScheduleFault) → IsFaultOf text.now fault → result ≡ Some fault }
    ensures schedule { IfNone result ((s : Sets) × IsSchedule text.now s) }
{
    fault_laws();
    Schedule::parse(text).err()
}
