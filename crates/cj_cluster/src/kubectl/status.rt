// The status of an object, and what is in it.
ghost use Rattle.std.specs.Prelude.{◌≡◌, option_map};
ghost use Rattle.std.specs.Result.{result_ok, result_err};
ghost use Rattle.serde_json.specs.View.{view};
ghost use Rattle.cj_cluster.specs.kubectl.Rows.{member_of, status_row, status_of};

use cj_manifest::{object, present};
use cj_types::Cause;
use serde_json::Value;

/// A member of an object, where both are there.
pub(crate) fn member<'v>(value: Option<&'v Value>, name: &str) -> Option<&'v Value>
    ensures { option_map (λ v. view v.now) result
        ≡ member_of name.now (option_map (λ v. view v.now) value.entry) }
{
    present(value?, name)
}

/// The row of the status.
pub(crate) fn status_row(value: &Value) -> Result<Option<&Value>, Cause>
    ensures fault { result_err result ≡ result_err (status_row (view value.now)) }
    ensures value { option_map (option_map (λ v. view v.now)) (result_ok result)
        ≡ result_ok (status_row (view value.now)) }
{
    match present(value, "status") {
        Some(found) => Ok(Some(object(found)?)),
        None => Ok(None),
    }
}

/// The status, where it is there.
pub(crate) fn status_of(value: &Value) -> Option<&Value>
    ensures { option_map (λ v. view v.now) result ≡ status_of (view value.now) }
{
    status_row(value).unwrap_or(None)
}
