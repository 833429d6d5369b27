// What is wrong in the list of a cluster's objects.
ghost use Rattle.std.specs.Prelude.{◌≡◌, ℕ, List, IfOk, IfErr, string_bytes};
ghost use Rattle.cj_audit.specs.Findings.{IsAudit};
ghost use Rattle.cj_audit.specs.declared.finding.Finding.{Finding};
ghost use Rattle.cj_base.specs.declared.refusal.Refusal.TheVariants.{OutOfMemory};
ghost use Rattle.cj_zone.specs.Table.{zones_of};
ghost use Rattle.cj_audit.specs.Audit.{audit_data};
ghost use Rattle.cj_explain.specs.RefusedItems.{refused_data};
ghost use Rattle.serde_json.specs.View.{view};
ghost use Rattle.cj_c.specs.answers.Audit.{IsAudited};
ghost use Rattle.cj_c.specs.answers.Buffers.{IsAnswered, IsTold};
ghost use Rattle.cj_c.specs.answers.Lists.{IsListRefusal};
ghost use Rattle.cj_c.specs.answers.Texts.{IsJsonText};
ghost use Rattle.cj_c.specs.answers.Zones.{AreZonesOf};

use crate::answers::buffer::leave;
use crate::answers::lists::refused_list;
use crate::answers::text::json_text;
use crate::answers::told::Told;
use crate::answers::zones::{refused_zones, zones_of_text};
use cj_audit::{Findings, audit, audit_value};
use cj_base::Refusal;
use cj_cluster::{ClusterList, read_cluster};
use cj_explain::refused_value;
use cj_zone::ZoneTable;
use serde_json::Value;
use std::alloc::Global;

// The value for these findings in a list.
fn found_value(alloc: Global, list: &ClusterList, findings: &Findings) -> Result<Value, Refusal>
    ensures ok { IfOk result (λ v. view v
        ≡ audit_data list.now findings.now (refused_data list.now.notes)) }
    ensures err { IfErr result (λ e. e ≡ OutOfMemory) }
{
    let refused = refused_value(alloc, list.notes.as_slice())?;
    audit_value(alloc, list, findings, refused)
}

// The text for a list under these zones.
fn audit_text(alloc: Global, list: &ClusterList, zones: &ZoneTable) -> Result<String, Refusal>
    ensures ok { IfOk result (λ s. (findings : List Finding)
        × IsAudit (zones_of zones.now) list.now.cluster list.now.notes findings
        × IsJsonText (audit_data list.now findings (refused_data list.now.notes))
        (string_bytes s)) }
    ensures err { IfErr result (λ e. e ≡ OutOfMemory) }
{
    let findings = audit(alloc, zones, &list.cluster, list.notes.as_slice())?;
    let value = found_value(alloc, list, &findings)?;
    json_text(alloc, &value)
}

// The answer for the bytes of a list under these zones.
fn audited_under(alloc: Global, bytes: &[u8], zones: &ZoneTable) -> Result<Told, Refusal>
    ensures ok { (zones_text : List ℕ) → AreZonesOf zones_text (zones_of zones.now) →
        IfOk result (IsTold (IsAudited bytes.now zones_text)
        (IsListRefusal bytes.now zones_text)) }
    ensures err { IfErr result (λ e. e ≡ OutOfMemory) }
{
    match read_cluster(alloc, bytes, zones) {
        Ok(list) => Ok(Told::Done(audit_text(alloc, &list, zones)?)),
        Err(fault) => Ok(Told::Refused(refused_list(alloc, fault)?)),
    }
}

fn audited(alloc: Global, bytes: &[u8], zones: &[u8]) -> Result<Told, Refusal>
    ensures ok { IfOk result (IsTold (IsAudited bytes.now zones.now)
        (IsListRefusal bytes.now zones.now)) }
    ensures err { IfErr result (λ e. e ≡ OutOfMemory) }
{
    match zones_of_text(alloc, zones) {
        Ok(zones) => audited_under(alloc, bytes, &zones),
        Err(fault) => Ok(Told::Refused(refused_zones(alloc, fault)?)),
    }
}

/// What is wrong in what `kubectl get cronjobs,jobs -o json` prints, under UTC and the zones of an
/// object from names to POSIX rules, or no text: each Job, and each two, that a correct controller
/// would not have made, as JSON; or why there is no such list.
#[unsafe(no_mangle)]
pub extern "C" fn cronsim_audit(
    alloc: Global,
    list: &[u8],
    zones: &[u8],
    answer: &mut [u8],
    length: &mut usize,
) -> u32
    ensures { IsAnswered (IsAudited list.now zones.now) (IsListRefusal list.now zones.now)
        answer.old answer.new length.old length.new result }
{
    leave(audited(alloc, list, zones), answer, length)
}
