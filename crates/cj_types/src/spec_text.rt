ghost use Rattle.std.specs.Prelude.{◌≡◌, IfOk, IfErr};
ghost use Rattle.cj_base.specs.declared.refusal.Refusal.TheVariants.{OutOfMemory};

use cj_base::{Refusal, Same, Shared, Text, TryCopy};
use std::alloc::Global;
use std::marker::Model;

/// The `spec` of a Job, kept as the compact text of its JSON value: two specs are equal where these
/// texts are. Copies share the text.
///
/// Contracts see the bytes of the text.
#[derive(Debug)]
pub struct SpecText {
    text: Shared<Text>,
}

impl Drop for SpecText {
    fn drop(self) {
        let SpecText { text } = self;
        drop(text);
    }
}

impl Model for SpecText {
    ghost use Rattle.std.specs.Prelude.{ℕ, List};

    ghost Value = { List ℕ };

    ghost view = { λ t. t.text };
}

impl SpecText {
    /// The spec of this text.
    pub fn new(alloc: Global, text: Text) -> Result<SpecText, Refusal>
        ensures ok { IfOk result (λ s. s ≡ text) }
        ensures err { IfErr result (λ e. e ≡ OutOfMemory) }
    {
        let text = Shared::new(alloc, text)?;
        Ok(SpecText { text })
    }

    /// The text of the spec.
    pub fn as_str(&self) -> &str
        ensures { result.now ≡ self.now }
    {
        self.text.get().as_str()
    }
}

impl TryCopy for SpecText {
    fn try_copy(&self, alloc: Global) -> Result<SpecText, Refusal> {
        Ok(SpecText {
            text: self.text.try_copy(alloc)?,
        })
    }
}

impl Same for SpecText {
    fn same(&self, other: &SpecText) -> bool {
        self.text.same(&other.text)
    }
}
