// What `check` finds in one manifest: its answer in lines, and its JSON value. Each text is read
// once for both.
ghost use Rattle.std.specs.Prelude.{◌≡◌, ℕ, List, IfOk};
ghost use Rattle.cj_manifest.specs.Either.{manifest_draft, manifest_faults, manifest_warnings};
ghost use Rattle.cj_manifest.specs.Reading.{IsReading, IsRefused};
ghost use Rattle.cj_manifest.specs.declared.manifest.Manifest.{Manifest as Said};
ghost use Rattle.cj_zone.specs.Table.{zones_of};
ghost use Rattle.serde_json.specs.View.{view};
ghost use Rattle.cj_check.specs.Reports.{IsReport};

use crate::as_json::{fine_item, refused_value};
use crate::manifest::{fine_answer, refused_answer};
use cj_answers::Answer;
use cj_args::CheckRequest;
use cj_base::Refusal;
use cj_io::Failure;
use cj_manifest::{Manifest, Warning, read_manifest};
use cj_zone::ZoneTable;
use serde_json::Value;
use std::alloc::Global;

/// What is found in one manifest.
#[derive(Drop)]
pub(crate) struct Report {
    /// The answer in lines.
    pub answer: Answer,
    /// The value of the item.
    pub value: Value,
}

/// The report of a manifest without a fault.
pub(crate) fn fine_report(
    alloc: Global,
    check: &CheckRequest<'_>,
    alone: bool,
    zones: &ZoneTable,
    place: Value,
    manifest: &Manifest,
    warnings: &[Warning],
) -> Result<Report, Failure>
    ensures { (bytes : List ℕ) → IsReading Said (manifest_faults (zones_of zones.now))
        manifest_draft manifest_warnings bytes manifest.now warnings.now →
        IfOk result (IsReport check.now alone (zones_of zones.now) (view place) bytes) }
{
    let answer = fine_answer(alloc, check, alone, zones, manifest, warnings)?;
    let value = fine_item(alloc, place, manifest, warnings)?;
    Ok(Report { answer, value })
}

/// The report of bytes that are refused.
pub(crate) fn refused_report(
    alloc: Global,
    check: &CheckRequest<'_>,
    alone: bool,
    zones: &ZoneTable,
    place: Value,
    bytes: &[u8],
    refusal: &Refusal,
) -> Result<Report, Failure>
    requires { IsRefused (manifest_faults (zones_of zones.now)) bytes.now refusal.now }
    ensures { IfOk result (IsReport check.now alone (zones_of zones.now) (view place) bytes.now) }
{
    let answer = refused_answer(alloc, check, alone, zones, bytes, refusal)?;
    let value = refused_value(alloc, place, zones, bytes, refusal)?;
    Ok(Report { answer, value })
}

/// The report of the bytes of one manifest.
pub(crate) fn manifest_report(
    alloc: Global,
    check: &CheckRequest<'_>,
    alone: bool,
    zones: &ZoneTable,
    place: Value,
    bytes: &[u8],
) -> Result<Report, Failure>
    ensures { IfOk result (IsReport check.now alone (zones_of zones.now) (view place) bytes.now) }
{
    match read_manifest(alloc, bytes, zones) {
        Ok((manifest, warnings)) => {
            fine_report(
                alloc,
                check,
                alone,
                zones,
                place,
                &manifest,
                warnings.as_slice(),
            )
        }
        Err(refusal) => refused_report(alloc, check, alone, zones, place, bytes, &refusal),
    }
}
