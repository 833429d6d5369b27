// What the requests of a CronJob need, read from it.
ghost use Rattle.std.specs.Prelude.{◌≡◌, Ok, IfOk, IfErr, IfSome};
ghost use Rattle.cj_base.specs.declared.refusal.Refusal.TheVariants.{OutOfMemory};
ghost use Rattle.serde_json.specs.View.{view};
ghost use Rattle.cj_control.specs.Objects.{head};
ghost use Rattle.cj_control.specs.Parts.{ArePartsOf};

use crate::api::ApiVersion;
use crate::calls::CronParts;
use crate::objects::{Head, read_head, spec};
use crate::request::HeldBy;
use cj_base::{Refusal, Shared, Text};
use serde_json::Value;
use sha2::{Digest, Sha256};
use std::alloc::Global;

// The first six bytes of a digest, as twelve digits of hexadecimal.
fn digits(alloc: Global, bytes: &[u8]) -> Result<String, Refusal>
    ensures { IfErr result (λ e. e ≡ OutOfMemory) }
{
    let mut text = String::new(alloc);
    for byte in bytes.iter().take(6) {
        let pair = format!(in alloc; "{byte:02x}")?;
        text.push_str(pair.as_str())?;
    }
    Ok(text)
}

/// What tells a text from others: twelve digits of its SHA-256.
pub fn mark_of(alloc: Global, text: &str) -> Result<Text, Refusal>
    ensures { IfErr result (λ e. e ≡ OutOfMemory) }
{
    let digest = Sha256::digest(text.as_bytes());
    Ok(Text::from_string(digits(alloc, &digest)?))
}

// The head of an object, where it has one.
fn some_head(alloc: Global, value: &Value) -> Result<Option<Head>, Refusal>
    ensures ok { IfOk result (λ o. IfSome o (λ h. head (view value.now) ≡ Ok h)) }
    ensures err { IfErr result (λ e. e ≡ OutOfMemory) }
{
    match read_head(alloc, value) {
        Ok(head) => Ok(Some(head)),
        Err(Refusal::OutOfMemory) => Err(Refusal::OutOfMemory),
        Err(_) => Ok(None),
    }
}

/// What the requests of a CronJob need; none where it has no template or no head.
pub fn parts_of(
    alloc: Global,
    value: &Value,
    api: ApiVersion,
    by: HeldBy,
) -> Result<Option<CronParts>, Refusal>
    ensures ok { IfOk result (λ o. IfSome o (ArePartsOf api by (view value.now))) }
    ensures err { IfErr result (λ e. e ≡ OutOfMemory) }
{
    let Some(template) = spec(value, "jobTemplate") else {
        return Ok(None);
    };
    let text = template.to_string(alloc)?;
    let Some(head) = some_head(alloc, value)? else {
        return Ok(None);
    };
    Ok(Some(CronParts {
        api,
        by,
        hold: by.hold(),
        head,
        template: Shared::new(alloc, template.clone()?)?,
        mark: mark_of(alloc, text.as_str())?,
    }))
}
