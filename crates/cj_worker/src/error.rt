ghost use Rattle.std.specs.Prelude.{◌≡◌, Err, IsTrue};
ghost use Rattle.cj_worker.specs.Errors.{end_of, end_by, error_of, is_plain, why_of, IsPlainError};

use crate::ending::SyncEnd;
use cj_calls::Answer;
use cj_hub::{CallError, Receipt};
use cj_types::Refusal;

/// Why a sync that holds a key doesn't go on.
#[derive(Drop)]
pub(crate) enum SyncError {
    /// A call was refused, as its entry says.
    Refused(Refusal),
    /// Memory was lacking.
    Starved,
    /// The history takes nothing more of this caller.
    Lost(Refusal),
}

/// The refusal of an answer, copied without memory.
pub(crate) fn refusal_of(answer: &Answer) -> Refusal
    requires { IsTrue (is_plain answer.now) }
    ensures { answer.now ≡ Err result }
{
    match answer {
        Err(Refusal::Syntax) => Refusal::Syntax,
        Err(Refusal::NotPermitted) => Refusal::NotPermitted,
        Err(Refusal::NotFound) => Refusal::NotFound,
        Err(Refusal::AlreadyExists) => Refusal::AlreadyExists,
        Err(Refusal::Conflict(current)) => Refusal::Conflict(*current),
        Err(Refusal::Expired(oldest)) => Refusal::Expired(*oldest),
        Err(Refusal::OutOfPhase) => Refusal::OutOfPhase,
        Err(Refusal::Stale) => Refusal::Stale,
        Err(Refusal::Empty) => Refusal::Empty,
        Err(Refusal::ShutDown) => Refusal::ShutDown,
        Err(Refusal::HistoryFull) => Refusal::HistoryFull,
        Err(Refusal::Estranged) => Refusal::Estranged,
        Err(Refusal::OutOfMemory) => Refusal::OutOfMemory,
        Err(Refusal::AlreadyFinished) => Refusal::AlreadyFinished,
        _ => unreachable!(),
    }
}

/// The error by a refusal of a call that wasn't entered.
pub(crate) fn error_of(refusal: Refusal) -> SyncError
    ensures { result ≡ error_of refusal }
{
    match refusal {
        Refusal::HistoryFull => SyncError::Lost(Refusal::HistoryFull),
        Refusal::Estranged => SyncError::Lost(Refusal::Estranged),
        _ => SyncError::Starved,
    }
}

/// The refusal that an error comes from.
pub(crate) fn why_of(error: SyncError) -> Refusal
    ensures { result ≡ why_of error }
{
    match error {
        SyncError::Refused(refusal) => refusal,
        SyncError::Starved => Refusal::OutOfMemory,
        SyncError::Lost(refusal) => refusal,
    }
}

fn end_by(receipt: &Receipt) -> SyncEnd
    requires { IsTrue (is_plain receipt.now.entry.answer) }
    ensures { result ≡ end_by receipt.now.entry.answer }
{
    match refusal_of(receipt.answer()) {
        Refusal::ShutDown => SyncEnd::ShutDown,
        refusal => SyncEnd::Broken(refusal),
    }
}

/// The end of a sync that took no key.
pub(crate) fn end_of(error: CallError) -> SyncEnd
    requires { IsPlainError error }
    ensures { result ≡ end_of error }
{
    match error {
        CallError::Refused(receipt) => end_by(&receipt),
        CallError::Unentered(Refusal::Empty) => SyncEnd::Idle,
        CallError::Unentered(refusal) => SyncEnd::Broken(refusal),
    }
}
