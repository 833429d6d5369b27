ghost use Rattle.std.specs.Prelude.{◌≡◌, ◌++◌, IfOk, IfErr};
ghost use Rattle.cj_base.specs.declared.refusal.Refusal.TheVariants.{OutOfMemory};

use cj_types::{Refusal, Text};
use std::alloc::Global;
use std::fmt;
use std::marker::Model;

/// A warning about a member of a manifest, by its dotted path: the member was dropped, or it is an
/// `apiVersion` that is read as `batch/v1`. Contracts see the bytes of the path.
#[derive(Debug, Drop)]
pub struct Warning {
    path: Text,
}

impl Model for Warning {
    ghost use Rattle.std.specs.Prelude.{ℕ, List};

    ghost Value = { List ℕ };

    ghost view = { λ w. w.path };
}

impl Warning {
    // The warning of a member, by the path of its object and its name.
    pub(crate) fn new(alloc: Global, prefix: &str, key: &str) -> Result<Warning, Refusal>
        ensures ok { IfOk result (λ w. w ≡ prefix.now ++ key.now) }
        ensures err { IfErr result (λ e. e ≡ OutOfMemory) }
    {
        let mut path = String::with_capacity(alloc, prefix.len() + key.len())?;
        path.push_str(prefix)?;
        path.push_str(key)?;
        Ok(Warning {
            path: Text::from_string(path),
        })
    }

    /// The path, as `spec.foo`.
    pub fn path(&self) -> &str
        ensures { result.now ≡ self.now }
    {
        self.path.as_str()
    }
}

impl fmt::Display for Warning {
    ghost use Rattle.std.specs.Prelude.{Some};

    ghost output = { λ w. Some w };

    fn fmt<W: fmt::Write>(&self, f: &mut fmt::Formatter<W>) -> fmt::Result {
        write!(f, "{}", self.path())
    }
}
