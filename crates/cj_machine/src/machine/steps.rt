// What a sync does, by the ledger alone.
ghost use Rattle.std.specs.Prelude.{IfOk};
ghost use Rattle.cj_control.specs.SentFor.{IsOfNoSync};

use cj_base::{Refusal, Shared, Text, TryCopy};
use cj_control::{
    CronParts, Ledger, LineKind, Request, event_patch, event_request, get_path, request_of,
};
use cj_fence::{Answer, Call};
use serde_json::Value;
use std::alloc::Global;

/// A sync asks what lists and watches told, and hears it; whether the protocol lets it.
pub(crate) fn look(
    ledger: &mut Ledger,
    alloc: Global,
    number: u64,
    call: Call,
    answer: Answer,
) -> Result<bool, Refusal> {
    let call = Shared::new(alloc, call)?;
    if !ledger.may_ask(number, call.get()) {
        return Ok(false);
    }
    ledger.ask(number, call)?;
    ledger.hear(alloc, number, answer)?;
    Ok(true)
}

/// A sync asks the API server, by what its requests need; the number of the request, if there is
/// one for the call and the protocol lets it.
pub(crate) fn send(
    ledger: &mut Ledger,
    alloc: Global,
    number: u64,
    call: Call,
    parts: &CronParts,
) -> Result<Option<u64>, Refusal> {
    let parts = Shared::new(alloc, parts.try_copy(alloc)?)?;
    let Some(request) = request_of(alloc, parts.get(), &call)? else {
        return Ok(None);
    };
    let call = Shared::new(alloc, call)?;
    if !ledger.has_number() || !ledger.may_ask(number, call.get()) {
        return Ok(None);
    }
    Ok(Some(ledger.send(number, parts, call, request)?))
}

/// What is at a path is read, for no sync; the number of the request.
pub(crate) fn read(ledger: &mut Ledger, path: Text) -> Result<Option<u64>, Refusal> {
    if !ledger.has_number() {
        return Ok(None);
    }
    Ok(Some(ledger.read(get_path(path))?))
}

/// A sync hears a line as the answer to what it asked; whether it waited for one.
pub(crate) fn hear(
    ledger: &mut Ledger,
    alloc: Global,
    number: u64,
    kind: LineKind,
    body: Option<&Value>,
) -> Result<bool, Refusal> {
    if !ledger.waits_for(number, kind) {
        return Ok(false);
    }
    ledger.hear_line(alloc, number, kind, body)?;
    Ok(true)
}

/// A sync of the CronJob begins, where there is room and none of it is under way; its number.
pub(crate) fn begin(
    ledger: &mut Ledger,
    alloc: Global,
    name: &Text,
) -> Result<Option<u64>, Refusal> {
    if !ledger.has_room() || !ledger.is_free(name) {
        return Ok(None);
    }
    let name = name.try_copy(alloc)?;
    Ok(Some(ledger.begin(alloc, name)?))
}

/// A sync ends, if it is under way.
pub(crate) fn end(ledger: &mut Ledger, number: u64) -> Result<(), Refusal> {
    if ledger.get(number).is_none() {
        return Ok(());
    }
    ledger.end(number)
}

/// What a sync waits for the answer to, if it waits.
pub(crate) fn asked(ledger: &Ledger, number: u64) -> Result<Option<Shared<Call>>, Refusal> {
    match ledger.get(number) {
        Some(row) => match &row.asked {
            Some(call) => Ok(Some(call.share()?)),
            None => Ok(None),
        },
        None => Ok(None),
    }
}

/// An Event is told, while there are numbers for requests.
pub(crate) fn tell(
    ledger: &mut Ledger,
    alloc: Global,
    namespace: &str,
    body: Value,
) -> Result<(), Refusal> {
    let request = event_request(alloc, namespace, body)?;
    if ledger.has_number() {
        ledger.read(request)?;
    }
    Ok(())
}

/// It is told how often an Event came, while there are numbers for requests; the number of the
/// request.
pub(crate) fn count(
    ledger: &mut Ledger,
    alloc: Global,
    namespace: &str,
    name: &str,
    body: Value,
) -> Result<Option<u64>, Refusal> {
    let request = event_patch(alloc, namespace, name, body)?;
    if !ledger.has_number() {
        return Ok(None);
    }
    Ok(Some(ledger.read(request)?))
}
