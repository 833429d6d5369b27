ghost use Rattle.std.specs.Prelude.{◌≡◌, ◌==◌, ◌++◌, IfOk, IfErr, string_bytes};
ghost use Rattle.std.proofs.Common.{rules};
ghost use Rattle.std.specs.Cmp.Rules.{comparing, hashing};
ghost use Rattle.std.specs.Cmp.Lexicographic.{pointwise};
ghost use Rattle.cj_base.specs.declared.refusal.Refusal.TheVariants.{OutOfMemory};

use crate::{Refusal, TryCopy};
use std::alloc::Global;
use std::marker::Model;

/// A text, which contracts see as its bytes.
#[derive(Debug)]
pub struct Text {
    inner: String,
}

impl Drop for Text {
    fn drop(self) {
        let Text { inner: _ } = self;
    }
}

impl Model for Text {
    ghost use Rattle.std.specs.Prelude.{ℕ, List, string_bytes};

    ghost Value = { List ℕ };

    ghost view = { λ t. string_bytes t.inner };
}

impl Text {
    /// A text of these bytes.
    pub fn new(alloc: Global, text: &str) -> Result<Text, Refusal>
        ensures ok { IfOk result (λ t. t ≡ text.now) }
        ensures err { IfErr result (λ e. e ≡ OutOfMemory) }
    {
        let inner = String::from_str(alloc, text).map_err(|_| Refusal::OutOfMemory)?;
        Ok(Text { inner })
    }

    /// The text of a string, which it takes over.
    pub fn from_string(inner: String) -> Text
        ensures { result ≡ string_bytes inner }
    {
        Text { inner }
    }

    /// The bytes of the text.
    pub fn as_str(&self) -> &str
        ensures { result.now ≡ self.now }
    {
        self.inner.as_str()
    }
}

impl TryCopy for Text {
    fn try_copy(&self, alloc: Global) -> Result<Text, Refusal> {
        Text::new(alloc, self.inner.as_str())
    }
}

impl PartialEq for Text {
    ghost eq = { pointwise ◌==◌ };

    ghost laws = { Prim.search (comparing, rules) };

    fn eq(&self, other: &Text) -> bool {
        self.inner.as_str() == other.inner.as_str()
    }
}

impl Eq for Text {
    ghost laws = { Prim.search (comparing, rules) };
}
