ghost use Rattle.std.specs.Prelude.{◌≡◌, ◌≢◌, MatchBool};

use crate::{Cause, Field, FieldFault, FieldFaults, Refusal, Text};

/// Equality as contracts have it, down to the last byte.
pub trait Same {
    /// Whether the two values are equal in contracts.
    fn same(&self, other: &Self) -> bool
        ensures { MatchBool result (self.now ≡ other.now) (self.now ≢ other.now) };
}

impl Same for Text {
    fn same(&self, other: &Text) -> bool {
        self.as_str() == other.as_str()
    }
}

impl<T: Same> Same for Option<T> {
    fn same(&self, other: &Option<T>) -> bool {
        match (self, other) {
            (Some(a), Some(b)) => a.same(b),
            (None, None) => true,
            _ => false,
        }
    }
}

impl<A: Same, B: Same> Same for (A, B) {
    fn same(&self, other: &(A, B)) -> bool {
        let first = self.0.same(&other.0);
        let second = self.1.same(&other.1);
        first && second
    }
}

/// Whether two lists have the same values in the same order.
pub fn same_all<T: Same>(a: &[T], b: &[T]) -> bool
    ensures { MatchBool result (a.now ≡ b.now) (a.now ≢ b.now) }
{
    if a.len() != b.len() {
        return false;
    }
    for (i, x) in a.iter().enumerate() {
        if !x.same(&b[i]) {
            return false;
        }
    }
    true
}

impl Same for Field {
    fn same(&self, other: &Field) -> bool {
        self == other
    }
}

impl Same for Cause {
    fn same(&self, other: &Cause) -> bool {
        self == other
    }
}

impl Same for FieldFault {
    fn same(&self, other: &FieldFault) -> bool {
        let field = self.field.same(&other.field);
        let cause = self.cause.same(&other.cause);
        field && cause
    }
}

impl Same for FieldFaults {
    fn same(&self, other: &FieldFaults) -> bool {
        same_all(self.as_slice(), other.as_slice())
    }
}

impl Same for Refusal {
    fn same(&self, other: &Refusal) -> bool {
        match (self, other) {
            (Refusal::Syntax, Refusal::Syntax) => true,
            (Refusal::Invalid(a), Refusal::Invalid(b)) => a.same(b),
            (Refusal::NotPermitted, Refusal::NotPermitted) => true,
            (Refusal::NotFound, Refusal::NotFound) => true,
            (Refusal::AlreadyExists, Refusal::AlreadyExists) => true,
            (Refusal::Conflict(a), Refusal::Conflict(b)) => a == b,
            (Refusal::Expired(a), Refusal::Expired(b)) => a == b,
            (Refusal::OutOfPhase, Refusal::OutOfPhase) => true,
            (Refusal::Stale, Refusal::Stale) => true,
            (Refusal::Empty, Refusal::Empty) => true,
            (Refusal::ShutDown, Refusal::ShutDown) => true,
            (Refusal::HistoryFull, Refusal::HistoryFull) => true,
            (Refusal::Estranged, Refusal::Estranged) => true,
            (Refusal::OutOfMemory, Refusal::OutOfMemory) => true,
            (Refusal::AlreadyFinished, Refusal::AlreadyFinished) => true,
            _ => false,
        }
    }
}
