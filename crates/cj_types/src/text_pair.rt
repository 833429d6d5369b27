ghost use Rattle.std.specs.Prelude.{◌≡◌, ◌++◌, length, IfOk, IfErr, string_bytes, IsCharBoundary};
ghost use Rattle.cj_base.specs.declared.refusal.Refusal.TheVariants.{OutOfMemory};

use cj_base::{Refusal, TryCopy};
use std::alloc::{AllocError, Global};
use std::marker::Model;

/// Two texts in one piece of memory. Contracts see both.
#[derive(Debug)]
pub(crate) struct TextPair {
    text: String,
    // Where the second text begins.
    split: usize,
}

impl Drop for TextPair {
    fn drop(self) {
        let TextPair { text: _, split: _ } = self;
    }
}

impl Model for TextPair {
    ghost use Rattle.std.specs.Prelude.{ℕ, List, take, drop, string_bytes, IsCharBoundary};

    ghost Value = { List ℕ × List ℕ };

    ghost view = { λ p. (take p.split (string_bytes p.text), drop p.split (string_bytes p.text)) };

    ghost invariant = { λ p. IsCharBoundary (string_bytes p.text) p.split };
}

// The second text appended to the first, in memory of just their size.
fn joined(alloc: Global, first: &str, second: &str) -> Result<String, AllocError>
    ensures bytes { IfOk result (λ t. string_bytes t ≡ first.now ++ second.now) }
    ensures seam { IfOk result (λ t. IsCharBoundary (string_bytes t) (length first.now)) }
{
    let mut text = String::with_capacity(alloc, first.len() + second.len())?;
    text.push_str(first)?;
    text.push_str(second)?;
    Ok(text)
}

impl TextPair {
    /// The pair of these texts.
    pub(crate) fn new(alloc: Global, first: &str, second: &str) -> Result<TextPair, Refusal>
        ensures ok { IfOk result (λ p. p ≡ (first.now, second.now)) }
        ensures err { IfErr result (λ e. e ≡ OutOfMemory) }
    {
        let text = joined(alloc, first, second)?;
        let split = first.len();
        Ok(TextPair { text, split })
    }

    /// The first text and the second.
    pub(crate) fn parts(&self) -> (&str, &str)
        ensures first { result.0.now ≡ self.now.0 }
        ensures second { result.1.now ≡ self.now.1 }
    {
        self.text.as_str().split_at(self.split)
    }
}

impl TryCopy for TextPair {
    fn try_copy(&self, alloc: Global) -> Result<TextPair, Refusal> {
        let text = String::from_str(alloc, self.text.as_str())?;
        let split = self.split;
        Ok(TextPair { text, split })
    }
}
