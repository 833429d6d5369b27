// A manifest that is checked.
ghost use Rattle.std.specs.Prelude.{◌≡◌, ℕ, List, map, IfOk, IfErr, codes, string_bytes};
ghost use Rattle.cj_base.specs.declared.refusal.Refusal.TheVariants.{OutOfMemory};
ghost use Rattle.cj_manifest.specs.Either as either;
ghost use Rattle.cj_manifest.specs.Reading.{IsRefused};
ghost use Rattle.cj_zone.specs.Table.{zones_of};
ghost use Rattle.cj_zone.specs.declared.zone.Zone.{Zone};
ghost use Rattle.serde_json.specs.Data.{string};
ghost use Rattle.serde_json.specs.View.{view};
ghost use Rattle.cj_c.specs.answers.Buffers.{IsAnswered, IsTold};
ghost use Rattle.cj_c.specs.answers.Check.{IsCheckRefusal, IsSound, sound_data, sound_object};
ghost use Rattle.cj_audit.specs.Faults.{faults_data, one_fault};
ghost use Rattle.cj_c.specs.answers.Texts.{IsJsonText};
ghost use Rattle.cj_c.specs.answers.Zones.{AreZonesOf};

use crate::answers::buffer::leave;
use crate::answers::text::{json_text, one_fault_text};
use crate::answers::told::Told;
use crate::answers::zones::{refused_zones, zones_of_text};
use cj_audit::faults_value;
use cj_base::{FieldFault, Refusal};
use cj_json::push_value;
use cj_manifest::{Manifest, Warning, read_manifest};
use cj_types::Key;
use cj_zone::ZoneTable;
use serde_json::{Value, json};
use std::alloc::{AllocError, Global};

fn warning_value(alloc: Global, warning: &Warning) -> Result<Value, Refusal>
    ensures ok { IfOk result (λ v. view v ≡ string warning.now) }
    ensures err { IfErr result (λ e. e ≡ OutOfMemory) }
{
    Ok(Value::try_from_str(alloc, warning.path())?)
}

fn warning_values(alloc: Global, warnings: &[Warning]) -> Result<Vec<Value>, Refusal>
    ensures ok { IfOk result (λ v. map view v.items ≡ map string warnings.now) }
    ensures err { IfErr result (λ e. e ≡ OutOfMemory) }
{
    let mut values = Vec::new(alloc);
    for warning in warnings {
        let value = warning_value(alloc, warning)?;
        push_value(&mut values, value)?;
    }
    Ok(values)
}

fn sound_object(alloc: Global, kind: &str, key: &Key, warnings: Value) -> Result<Value, AllocError>
    ensures { IfOk result (λ v. view v ≡ sound_object kind.now key.now (view warnings)) }
{
    json!(in alloc; {
        "kind": kind,
        "name": key.name(),
        "namespace": key.namespace(),
        "warnings": warnings
    })
}

fn sound_value(alloc: Global, manifest: &Manifest, warnings: &[Warning]) -> Result<Value, Refusal>
    ensures ok { IfOk result (λ v. view v ≡ sound_data manifest.now warnings.now) }
    ensures err { IfErr result (λ e. e ≡ OutOfMemory) }
{
    let warnings = Value::Array(warning_values(alloc, warnings)?);
    Ok(sound_object(alloc, manifest.kind(), manifest.key(), warnings)?)
}

// The text for a manifest without a fault.
fn sound_text(alloc: Global, manifest: &Manifest, warnings: &[Warning]) -> Result<String, Refusal>
    ensures ok { IfOk result (λ s. IsJsonText (sound_data manifest.now warnings.now)
        (string_bytes s)) }
    ensures err { IfErr result (λ e. e ≡ OutOfMemory) }
{
    let value = sound_value(alloc, manifest, warnings)?;
    json_text(alloc, &value)
}

fn faulty_text(alloc: Global, faults: &[FieldFault]) -> Result<String, Refusal>
    ensures ok { IfOk result (λ s. IsJsonText (faults_data faults.now) (string_bytes s)) }
    ensures err { IfErr result (λ e. e ≡ OutOfMemory) }
{
    let value = faults_value(alloc, faults)?;
    json_text(alloc, &value)
}

/// The text for bytes that are no JSON.
pub(crate) fn no_json(alloc: Global) -> Result<String, Refusal>
    ensures ok { IfOk result (λ s. IsJsonText (one_fault (codes "Syntax") (codes "$"))
        (string_bytes s)) }
    ensures err { IfErr result (λ e. e ≡ OutOfMemory) }
{
    one_fault_text(alloc, "Syntax", "$")
}

// The text for a manifest that is refused.
fn refused_text(alloc: Global, refusal: &Refusal) -> Result<String, Refusal>
    ensures ok { (bytes zones_text : List ℕ) (zones : List Zone) → AreZonesOf zones_text zones →
        IsRefused (either.manifest_faults zones) bytes refusal.now →
        IfOk result (λ s. IsCheckRefusal bytes zones_text (string_bytes s)) }
    ensures err { IfErr result (λ e. e ≡ OutOfMemory) }
{
    match refusal {
        Refusal::Syntax => no_json(alloc),
        Refusal::Invalid(faults) => faulty_text(alloc, faults.as_slice()),
        _ => Err(Refusal::OutOfMemory),
    }
}

// The answer for a manifest under these zones.
fn checked_under(alloc: Global, bytes: &[u8], zones: &ZoneTable) -> Result<Told, Refusal>
    ensures ok { (zones_text : List ℕ) → AreZonesOf zones_text (zones_of zones.now) →
        IfOk result (IsTold (IsSound bytes.now zones_text) (IsCheckRefusal bytes.now zones_text)) }
    ensures err { IfErr result (λ e. e ≡ OutOfMemory) }
{
    match read_manifest(alloc, bytes, zones) {
        Ok((manifest, warnings)) => {
            let text = sound_text(alloc, &manifest, warnings.as_slice())?;
            Ok(Told::Done(text))
        }
        Err(refusal) => Ok(Told::Refused(refused_text(alloc, &refusal)?)),
    }
}

fn checked(alloc: Global, bytes: &[u8], zones: &[u8]) -> Result<Told, Refusal>
    ensures ok { IfOk result (IsTold (IsSound bytes.now zones.now)
        (IsCheckRefusal bytes.now zones.now)) }
    ensures err { IfErr result (λ e. e ≡ OutOfMemory) }
{
    match zones_of_text(alloc, zones) {
        Ok(zones) => checked_under(alloc, bytes, &zones),
        Err(fault) => Ok(Told::Refused(refused_zones(alloc, fault)?)),
    }
}

/// Checks the manifest of a CronJob or a Job, as JSON, under UTC and the zones of an object from
/// names to POSIX rules, or no text: its kind, namespace and name, with the members that are
/// dropped; or all its faults.
#[unsafe(no_mangle)]
pub extern "C" fn cronsim_check(
    alloc: Global,
    manifest: &[u8],
    zones: &[u8],
    answer: &mut [u8],
    length: &mut usize,
) -> u32
    ensures { IsAnswered (IsSound manifest.now zones.now) (IsCheckRefusal manifest.now zones.now)
        answer.old answer.new length.old length.new result }
{
    leave(checked(alloc, manifest, zones), answer, length)
}
