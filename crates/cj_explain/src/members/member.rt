// One member of an object.
ghost use Rattle.std.specs.Prelude.{◌≡◌, ◌≢◌, Ok, Err, IfOk, IfErr};
ghost use Rattle.serde_json.specs.View.{view};
ghost use Rattle.cj_explain.specs.declared.members.wrong.Wrong.TheVariants.{Member, Memory};
ghost use Rattle.cj_explain.specs.members.Members as said;
ghost use Rattle.cj_explain.specs.members.Wants.{words};

use crate::members::want::Want;
use crate::members::wrong::{Wrong, told};
use cj_script::present;
use serde_json::Value;
use std::alloc::Global;

// A member that must be there isn't.
fn missing(alloc: Global, path: &str, name: &str, want: Want) -> Wrong
    ensures { result ≢ Memory →
        result ≡ Member (said.line path.now name.now said.missing (words want)) }
{
    told(alloc, path, name, ": missing, want ", want.words())
}

/// A member that is there isn't what is wanted.
pub(crate) fn other(alloc: Global, path: &str, name: &str, want: Want) -> Wrong
    ensures { result ≢ Memory →
        result ≡ Member (said.line path.now name.now said.other (words want)) }
{
    told(alloc, path, name, ": want ", want.words())
}

/// A value that is there has to be what is wanted.
pub(crate) fn checked(
    alloc: Global,
    path: &str,
    name: &str,
    want: Want,
    value: &Value,
) -> Result<(), Wrong>
    ensures ok { IfOk result (λ _. said.checked path.now name.now want (view value.now) ≡ Ok tt) }
    ensures err { IfErr result (λ e. e ≢ Memory →
        said.checked path.now name.now want (view value.now) ≡ Err e) }
{
    if want.fits(alloc, value)? {
        Ok(())
    } else {
        Err(other(alloc, path, name, want))
    }
}

/// A member that must be there.
pub(crate) fn must(
    alloc: Global,
    path: &str,
    whole: &Value,
    name: &str,
    want: Want,
) -> Result<(), Wrong>
    ensures ok { IfOk result (λ _. said.must path.now (view whole.now) name.now want ≡ Ok tt) }
    ensures err { IfErr result (λ e. e ≢ Memory →
        said.must path.now (view whole.now) name.now want ≡ Err e) }
{
    match present(whole, name) {
        Some(found) => checked(alloc, path, name, want, found),
        None => Err(missing(alloc, path, name, want)),
    }
}

/// A member that may be there.
pub(crate) fn may(
    alloc: Global,
    path: &str,
    whole: &Value,
    name: &str,
    want: Want,
) -> Result<(), Wrong>
    ensures ok { IfOk result (λ _. said.may path.now (view whole.now) name.now want ≡ Ok tt) }
    ensures err { IfErr result (λ e. e ≢ Memory →
        said.may path.now (view whole.now) name.now want ≡ Err e) }
{
    match present(whole, name) {
        Some(found) => checked(alloc, path, name, want, found),
        None => Ok(()),
    }
}
