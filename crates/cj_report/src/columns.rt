// Columns of text, and keys in them.
ghost use Rattle.std.specs.Prelude.{◌≡◌, ◌++◌, IfOk, IfErr, OnOk, option_copied, replicate, string_bytes};
ghost use Rattle.cj_base.specs.declared.refusal.Refusal.TheVariants.{OutOfMemory};
ghost use Rattle.cj_report.specs.Columns as said;

use cj_types::{Key, Refusal};
use std::alloc::{AllocError, Global};

fn push_blanks(text: &mut String, count: usize) -> Result<(), AllocError>
    ensures { OnOk result (string_bytes text.new ≡ string_bytes text.old ++ replicate count 32) }
{
    for _ in 0..count {
        text.push_str(" ")?;
    }
    Ok(())
}

/// A cell, filled up with blanks.
pub(crate) fn push_cell(text: &mut String, width: usize, cell: &str) -> Result<(), AllocError>
    ensures { OnOk result (string_bytes text.new
        ≡ string_bytes text.old ++ said.cell width cell.now) }
{
    text.push_str(cell)?;
    push_blanks(text, width.saturating_sub(cell.len()))
}

/// `NAMESPACE/NAME`, or `-` where there is no key.
pub(crate) fn key_word(alloc: Global, key: Option<&Key>) -> Result<String, Refusal>
    ensures ok { IfOk result (λ s. string_bytes s ≡ said.key_word (option_copied key.entry)) }
    ensures err { IfErr result (λ e. e ≡ OutOfMemory) }
{
    let Some(key) = key else {
        return Ok(String::from_str(alloc, "-")?);
    };
    let namespace = key.namespace();
    let name = key.name();
    Ok(format!(in alloc; "{namespace}/{name}")?)
}
