// The warnings of a manifest: of the older version of the API, and of the members that are dropped.
ghost use Rattle.std.specs.Prelude.{◌≡◌, ◌++◌, ◌∷◌, [], option_map, IfOk, IfErr, OnOk};
ghost use Rattle.cj_base.specs.declared.refusal.Refusal.TheVariants.{OutOfMemory};
ghost use Rattle.serde_json.specs.View.{view, members_view};
ghost use Rattle.cj_manifest.specs.Warnings as table;

use crate::kind::ObjectKind;
use crate::level::Level;
use crate::metadata_fields::{api_version, metadata, spec};
use crate::spec_fields::{job_template, template_metadata};
use crate::values::same_text;
use crate::warning::Warning;
use cj_base::{all_three, both};
use cj_types::Refusal;
use serde_json::{Map, Value};
use std::alloc::Global;

// Notes the warning of a member, by the path of its object and its name.
fn push_warning(
    warnings: &mut Vec<Warning>,
    alloc: Global,
    prefix: &str,
    key: &str,
) -> Result<(), Refusal>
    ensures ok { OnOk result (warnings.new.items
        ≡ warnings.old.items ++ (prefix.now ++ key.now) ∷ []) }
    ensures err { IfErr result (λ e. e ≡ OutOfMemory) }
{
    let warning = Warning::new(alloc, prefix, key)?;
    warnings.push(warning).map_err(|_| Refusal::OutOfMemory)
}

fn note_unknown(
    warnings: &mut Vec<Warning>,
    alloc: Global,
    level: Level,
    members: &Map<String, Value>,
) -> Result<(), Refusal>
    ensures ok { OnOk result (warnings.new.items
        ≡ warnings.old.items ++ table.unknown level (members_view members.now.entries)) }
    ensures err { IfErr result (λ e. e ≡ OutOfMemory) }
{
    for (key, member) in members.iter() {
        if !level.knows(key.as_str()) && !member.is_null() {
            push_warning(warnings, alloc, level.prefix(), key.as_str())?;
        }
    }
    Ok(())
}

fn note_dropped(
    warnings: &mut Vec<Warning>,
    alloc: Global,
    level: Level,
    value: Option<&Value>,
) -> Result<(), Refusal>
    ensures ok { OnOk result (warnings.new.items ≡ warnings.old.items
        ++ table.dropped level (option_map (λ v. view v.now) value.entry)) }
    ensures err { IfErr result (λ e. e ≡ OutOfMemory) }
{
    let Some(value) = value else {
        return Ok(());
    };
    match value.as_object() {
        Some(members) => note_unknown(warnings, alloc, level, members),
        None => Ok(()),
    }
}

fn template_in(value: &Value) -> Option<&Value>
    ensures { option_map (λ v. view v.now) result ≡ table.template_in (view value.now) }
{
    let spec = spec(value).ok()?;
    job_template(spec).ok()
}

fn template_metadata_in(value: &Value) -> Option<&Value>
    ensures { option_map (λ v. view v.now) result ≡ table.template_metadata_in (view value.now) }
{
    let template = template_in(value)?;
    template_metadata(template).unwrap_or(None)
}

fn is_beta(version: Option<&str>) -> bool
    ensures { result ≡ table.is_beta (option_map (λ s. s.now) version.entry) }
{
    match version {
        Some(version) => same_text(version, "batch/v1beta1"),
        None => false,
    }
}

// Notes the warning of the older version of the API: the object is stored and written as
// `batch/v1`.
fn note_version(warnings: &mut Vec<Warning>, alloc: Global, value: &Value) -> Result<(), Refusal>
    ensures ok { OnOk result (warnings.new.items
        ≡ warnings.old.items ++ table.version_warnings (view value.now)) }
    ensures err { IfErr result (λ e. e ≡ OutOfMemory) }
{
    if is_beta(api_version(ObjectKind::Cron, value).ok()) {
        push_warning(warnings, alloc, "", "apiVersion")?;
    }
    Ok(())
}

/// The warnings of a CronJob's manifest: of the older version of the API, if it is given in that,
/// then of the members that are dropped. The only error is `OutOfMemory`.
pub fn cron_warnings(alloc: Global, value: &Value) -> Result<Vec<Warning>, Refusal>
    ensures ok { IfOk result (λ v. v.items ≡ table.cron_warnings (view value.now)) }
    ensures err { IfErr result (λ e. e ≡ OutOfMemory) }
{
    let mut found = Vec::new(alloc);
    let version = note_version(&mut found, alloc, value);
    let top = note_dropped(&mut found, alloc, Level::Top, Some(value));
    let metadata = note_dropped(&mut found, alloc, Level::CronMetadata, metadata(value).ok());
    let spec = note_dropped(&mut found, alloc, Level::CronSpec, spec(value).ok());
    let template = note_dropped(&mut found, alloc, Level::Template, template_in(value));
    let inner = note_dropped(
        &mut found,
        alloc,
        Level::TemplateMetadata,
        template_metadata_in(value),
    );
    all_three(
        both(version, top),
        both(metadata, spec),
        both(template, inner),
    )?;
    Ok(found)
}

/// The warnings of a Job's manifest.
pub(crate) fn job_warnings(alloc: Global, value: &Value) -> Result<Vec<Warning>, Refusal>
    ensures ok { IfOk result (λ v. v.items ≡ table.job_warnings (view value.now)) }
    ensures err { IfErr result (λ e. e ≡ OutOfMemory) }
{
    let mut found = Vec::new(alloc);
    let top = note_dropped(&mut found, alloc, Level::Top, Some(value));
    let metadata = note_dropped(&mut found, alloc, Level::JobMetadata, metadata(value).ok());
    both(top, metadata)?;
    Ok(found)
}
