// Readers of members, one for each kind of value.
ghost use Rattle.std.specs.Prelude.{◌≡◌, ◌≤◌, IfOk, option_map};
ghost use Rattle.std.specs.Result.{result_ok, result_err};
ghost use Rattle.std.specs.Str.{bytes_eq};
ghost use Rattle.serde_json.specs.View.{view, members_view};
ghost use Rattle.cj_zone.specs.Table.{zones_of};
ghost use Rattle.cj_manifest.specs.Members.{present as member_at};
ghost use Rattle.cj_manifest.specs.Values as read;

use cj_schedule::Schedule;
use cj_types::{Cause, Policy, name_cause, namespace_cause};
use cj_zone::ZoneTable;
use serde_json::{Map, Value};

/// Whether the texts are equal.
pub(crate) fn same_text(one: &str, other: &str) -> bool
    ensures { result ≡ bytes_eq one.now other.now }
{
    one == other
}

/// The value of a member; null counts as absent.
pub fn present<'v>(value: &'v Value, name: &str) -> Option<&'v Value>
    ensures { option_map (λ v. view v.now) result ≡ member_at name.now (view value.now) }
{
    match value.get(name) {
        None => None,
        Some(Value::Null) => None,
        Some(found) => Some(found),
    }
}

/// The value as a text.
pub fn text(value: &Value) -> Result<&str, Cause>
    ensures fault { result_err result ≡ result_err (read.text (view value.now)) }
    ensures value { option_map (λ s. s.now) (result_ok result)
        ≡ result_ok (read.text (view value.now)) }
{
    match value.as_str() {
        Some(found) => Ok(found),
        None => Err(Cause::WrongType),
    }
}

pub(crate) fn truth(value: &Value) -> Result<bool, Cause>
    ensures { result ≡ read.truth (view value.now) }
{
    match value.as_bool() {
        Some(found) => Ok(found),
        None => Err(Cause::WrongType),
    }
}

/// The value, which must be an object.
pub fn object(value: &Value) -> Result<&Value, Cause>
    ensures fault { result_err result ≡ result_err (read.an_object (view value.now)) }
    ensures value { option_map (λ v. view v.now) (result_ok result)
        ≡ result_ok (read.an_object (view value.now)) }
{
    if value.is_object() {
        Ok(value)
    } else {
        Err(Cause::WrongType)
    }
}

/// The value of a required member, which must be an object.
pub(crate) fn required_object<'v>(value: &'v Value, name: &str) -> Result<&'v Value, Cause>
    ensures fault { result_err result
        ≡ result_err (read.required read.an_object (member_at name.now (view value.now))) }
    ensures value { option_map (λ v. view v.now) (result_ok result)
        ≡ result_ok (read.required read.an_object (member_at name.now (view value.now))) }
{
    match present(value, name) {
        Some(found) => object(found),
        None => Err(Cause::Required),
    }
}

/// The value, which must be the one supported text.
pub(crate) fn choice<'v>(value: &'v Value, only: &str) -> Result<&'v str, Cause>
    ensures fault { result_err result ≡ result_err (read.choice only.now (view value.now)) }
    ensures value { option_map (λ s. s.now) (result_ok result)
        ≡ result_ok (read.choice only.now (view value.now)) }
{
    let found = text(value)?;
    if same_text(found, only) {
        Ok(found)
    } else {
        Err(Cause::NotSupported)
    }
}

/// The value, which must be one of two texts.
pub(crate) fn either<'v>(value: &'v Value, one: &str, other: &str) -> Result<&'v str, Cause>
    ensures fault { result_err result
        ≡ result_err (read.either one.now other.now (view value.now)) }
    ensures value { option_map (λ s. s.now) (result_ok result)
        ≡ result_ok (read.either one.now other.now (view value.now)) }
{
    let found = text(value)?;
    if same_text(found, one) || same_text(found, other) {
        Ok(found)
    } else {
        Err(Cause::NotSupported)
    }
}

fn policy_named(name: &str) -> Result<Policy, Cause>
    ensures { result ≡ read.policy_named name.now }
{
    if name.is_empty() || same_text(name, "Allow") {
        Ok(Policy::Allow)
    } else if same_text(name, "Forbid") {
        Ok(Policy::Forbid)
    } else if same_text(name, "Replace") {
        Ok(Policy::Replace)
    } else {
        Err(Cause::NotSupported)
    }
}

pub(crate) fn policy(value: &Value) -> Result<Policy, Cause>
    ensures { result ≡ read.policy (view value.now) }
{
    policy_named(text(value)?)
}

/// The value as a whole number from 0 to `most`.
pub(crate) fn range(value: &Value, most: u64) -> Result<u64, Cause>
    ensures row { result ≡ read.range most (view value.now) }
    ensures in_range { IfOk result (λ n. n ≤ most) }
{
    let Some(number) = value.as_number() else {
        return Err(Cause::WrongType);
    };
    if number.is_f64() {
        return Err(Cause::WrongType);
    }
    match number.as_u64() {
        Some(n) if n <= most => Ok(n),
        _ => Err(Cause::Range),
    }
}

/// The value as a name of an object of at most `limit` characters.
pub(crate) fn name(value: &Value, limit: usize) -> Result<&str, Cause>
    ensures fault { result_err result ≡ result_err (read.name limit (view value.now)) }
    ensures value { option_map (λ s. s.now) (result_ok result)
        ≡ result_ok (read.name limit (view value.now)) }
{
    let found = text(value)?;
    match name_cause(limit, found) {
        None => Ok(found),
        Some(cause) => Err(cause),
    }
}

pub(crate) fn namespace(value: &Value) -> Result<&str, Cause>
    ensures fault { result_err result ≡ result_err (read.namespace (view value.now)) }
    ensures value { option_map (λ s. s.now) (result_ok result)
        ≡ result_ok (read.namespace (view value.now)) }
{
    let found = text(value)?;
    match namespace_cause(found) {
        None => Ok(found),
        Some(cause) => Err(cause),
    }
}

/// The value as a schedule's text.
pub(crate) fn schedule(value: &Value) -> Result<&str, Cause>
    ensures fault { result_err result ≡ result_err (read.schedule (view value.now)) }
    ensures value { option_map (λ s. s.now) (result_ok result)
        ≡ result_ok (read.schedule (view value.now)) }
{
    let found = text(value)?;
    match Schedule::parse(found) {
        Ok(_) => Ok(found),
        Err(fault) => Err(Cause::Schedule(fault)),
    }
}

/// The value as the name of a zone in the table.
pub(crate) fn zone<'v>(value: &'v Value, zones: &ZoneTable) -> Result<&'v str, Cause>
    ensures fault { result_err result ≡ result_err
        (read.zone (zones_of zones.now) (view value.now)) }
    ensures value { option_map (λ s. s.now) (result_ok result)
        ≡ result_ok (read.zone (zones_of zones.now) (view value.now)) }
{
    let found = text(value)?;
    if zones.get(found).is_some() {
        Ok(found)
    } else {
        Err(Cause::Zone)
    }
}

fn all_texts(members: &Map<String, Value>) -> bool
    ensures { result ≡ read.all_texts (members_view members.now.entries) }
{
    for (_key, member) in members.iter() {
        if !member.is_null() && !member.is_string() {
            return false;
        }
    }
    true
}

/// The value as an object whose members are texts.
pub(crate) fn texts(value: &Value) -> Result<&Map<String, Value>, Cause>
    ensures fault { result_err result ≡ result_err (read.texts (view value.now)) }
    ensures value { option_map (λ m. members_view m.now.entries) (result_ok result)
        ≡ result_ok (read.texts (view value.now)) }
{
    let Some(members) = value.as_object() else {
        return Err(Cause::WrongType);
    };
    if all_texts(members) {
        Ok(members)
    } else {
        Err(Cause::WrongType)
    }
}
