// The lines of what a ledger sends.
ghost use Rattle.std.specs.Prelude.{◌≡◌, ◌++◌, IfOk, IfErr, OnOk, map, option_map, string_bytes};
ghost use Rattle.cj_base.specs.declared.refusal.Refusal.TheVariants.{OutOfMemory};
ghost use Rattle.cj_machine.specs.Out.{AreLines, IsLine, IsLineOf, listed, sent_by};

use cj_base::Refusal;
use cj_control::{Deed, Request, request_line};
use std::alloc::Global;

// The line of a request.
fn line_text(alloc: Global, id: u64, request: Request) -> Result<String, Refusal>
    ensures ok { IfOk result (λ s. IsLine id request (string_bytes s)) }
    ensures err { IfErr result (λ e. e ≡ OutOfMemory) }
{
    let line = request_line(alloc, id, request)?;
    Ok(line.to_string(alloc)?)
}

// The line of a deed that sends a request.
fn deed_line(alloc: Global, deed: Deed) -> Result<Option<String>, Refusal>
    ensures ok { IfOk result (λ o. IsLineOf (sent_by deed) (option_map string_bytes o)) }
    ensures err { IfErr result (λ e. e ≡ OutOfMemory) }
{
    match deed {
        Deed::Sends(_, id, _, _, request) => Ok(Some(line_text(alloc, id, request)?)),
        Deed::Reads(id, request) => Ok(Some(line_text(alloc, id, request)?)),
        Deed::Begins(_, _)
        | Deed::Asks(_, _)
        | Deed::Hears(_, _)
        | Deed::Ends(_)
        | Deed::Ticks(_) => Ok(None),
    }
}

fn push_line(lines: &mut Vec<String>, line: Option<String>) -> Result<(), Refusal>
    ensures ok { OnOk result (map string_bytes lines.new.items
        ≡ map string_bytes lines.old.items ++ listed (option_map string_bytes line)) }
    ensures err { IfErr result (λ e. e ≡ OutOfMemory) }
{
    match line {
        Some(line) => lines.push(line).map_err(|_| Refusal::OutOfMemory),
        None => Ok(()),
    }
}

/// The lines of the requests that these deeds send.
#[tactic(auto, using(crate::proofs::OutLemmas::lines_more))]
pub(crate) fn lines_of(alloc: Global, deeds: Vec<Deed>) -> Result<Vec<String>, Refusal>
    ensures ok { IfOk result (λ ls. AreLines deeds.items (map string_bytes ls.items)) }
    ensures err { IfErr result (λ e. e ≡ OutOfMemory) }
{
    let mut lines = Vec::new(alloc);
    for deed in deeds {
        push_line(&mut lines, deed_line(alloc, deed)?)?;
    }
    Ok(lines)
}
