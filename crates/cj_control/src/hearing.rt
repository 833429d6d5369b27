// A sync hears a line.
ghost use Rattle.std.specs.Prelude.{◌≡◌, ◌↔◌, IsTrue, IfErr, OnErr, OnOk, option_map};
ghost use Rattle.serde_json.specs.View.{view};
ghost use Rattle.cj_base.specs.declared.refusal.Refusal.TheVariants.{OutOfMemory};
ghost use Rattle.cj_control.specs.Heard.{HearsLine, WaitsFor, answered_id};
ghost use Rattle.cj_control.specs.Syncs.{GaveUp};

use crate::ledger::Ledger;
use crate::line::LineKind;
use crate::reply::answer_in;
use cj_base::Refusal;
use serde_json::Value;
use std::alloc::Global;

/// The number of the request that a line answers.
pub fn answered_id(kind: LineKind) -> Option<u64>
    ensures { result ≡ answered_id kind }
{
    match kind {
        LineKind::Answered(id, _) => Some(id),
        LineKind::Failed(id) => Some(id),
        LineKind::Told(_) => None,
        LineKind::Clock(_) => None,
        LineKind::Stop => None,
    }
}

impl Ledger {
    /// Whether a sync waits for what a line answers.
    pub fn waits_for(&self, number: u64, kind: LineKind) -> bool
        ensures { IsTrue result ↔ WaitsFor number kind self.now }
    {
        let Some(id) = answered_id(kind) else {
            return false;
        };
        match self.get(number) {
            Some(sync) => sync.asked.is_some() && sync.id == Some(id),
            None => false,
        }
    }

    /// A sync hears a line with this body, as the answer to what it asked. Where memory is wanting,
    /// the sync is given up, or nothing changed.
    pub fn hear_line(
        &mut self,
        alloc: Global,
        number: u64,
        kind: LineKind,
        body: Option<&Value>,
    ) -> Result<(), Refusal>
        requires { WaitsFor number kind self.old }
        ensures ok { OnOk result (HearsLine number kind
            (option_map (λ v. view v.now) body.entry) self.old self.new) }
        ensures err { OnErr result (GaveUp number self.old self.new) }
        ensures memory { IfErr result (λ e. e ≡ OutOfMemory) }
    {
        let call = self.asked(number)?;
        let answer = answer_in(alloc, call.get(), kind, body)?;
        self.hear(alloc, number, answer)
    }
}
