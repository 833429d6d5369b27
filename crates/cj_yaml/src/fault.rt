use crate::place::Place;
use std::alloc::{AllocError, AllocFailed};
use thiserror::Error;

/// Why bytes aren't read. The section is the one of YAML 1.2.2 that has the rule.
#[derive(Clone, Copy, Debug, Error)]
pub enum FaultKind {
    /// A byte that is part of no UTF-8 text (5.2).
    #[error("the bytes aren't UTF-8")]
    NotUtf8,
    /// A control character that YAML has none of (5.1).
    #[error("a control character")]
    Control,
    /// A tab where only spaces indent (6.1).
    #[error("a tab in the indentation")]
    Tab,
    /// A line whose indentation fits no collection that is open (6.1).
    #[error("the indentation fits no mapping or list that is open")]
    Indentation,
    /// Something behind a value on its line (8.2).
    #[error("something follows the value on its line")]
    Trailing,
    /// A mapping that begins where only a scalar may (7.4).
    #[error("a mapping can't begin here")]
    MappingHere,
    /// An item of a list that begins where none may (8.2.1).
    #[error("an item of a list can't begin here")]
    ItemHere,
    /// A line of a mapping with no `: ` behind the key (8.2.2).
    #[error("a key without `: `")]
    NoColon,
    /// A key that a mapping has already (3.2.1.1).
    #[error("a key that the mapping has already")]
    DuplicateKey,
    /// An empty key, or one that is null: JSON has none.
    #[error("a key that is null")]
    NullKey,
    /// A key that is a float, or a whole number above those of 64 bits with a sign: readers make
    /// different texts of it.
    #[error("a key that is a float or too large a number; quote it")]
    NumberKey,
    /// A key that is a mapping or a list, or begins with `? `: JSON has none.
    #[error("a key that isn't a plain or quoted text")]
    ComplexKey,
    /// An anchor, a tag or an alias at a key.
    #[error("an anchor, a tag or an alias at a key")]
    KeyProperty,
    /// The merge key `<<` of YAML 1.1.
    #[error("the merge key `<<`")]
    MergeKey,
    /// A tag other than `!!str`, `!!int`, `!!bool`, `!!null` and `!!float`.
    #[error("a tag other than !!str, !!int, !!bool, !!null and !!float")]
    Tag,
    /// A value that isn't of the tag's kind (10.3).
    #[error("a value that its tag doesn't fit")]
    TagMismatch,
    /// An anchor or alias whose name isn't of letters, digits, `-` and `_` (6.9.2).
    #[error("an anchor or alias needs a name of letters, digits, - and _")]
    AnchorName,
    /// An alias of no anchor before it (7.1).
    #[error("an alias of no anchor")]
    UnknownAlias,
    /// Aliases that repeat more than the input's size allows.
    #[error("the aliases repeat too much")]
    AliasBomb,
    /// Collections nested deeper than 127.
    #[error("nested too deep")]
    TooDeep,
    /// A character that no plain text begins with (5.3).
    #[error("a plain text can't begin with this character")]
    Indicator,
    /// A quoted text, a flow mapping or a flow list that doesn't end.
    #[error("the text ends inside quotes or brackets")]
    Unclosed,
    /// A character that is out of place between brackets (7.4).
    #[error("out of place between brackets")]
    FlowSyntax,
    /// A pair `key: value` that is an item of a flow list (7.4.1).
    #[error("a pair in a flow list; write it in braces")]
    PairInList,
    /// An escape that YAML has none of (5.7).
    #[error("an unknown escape")]
    Escape,
    /// The head of a literal or folded text that isn't one (8.1.1).
    #[error("| and > take an indentation from 1 to 9, and + or -")]
    BlockHead,
    /// A number that is infinite, not a number, or above what a float holds: JSON has none.
    #[error("a number that JSON can't write")]
    NoJsonNumber,
    /// A document behind the first that `---` doesn't begin (9.1.2 has it after `...`).
    #[error("a document behind the first has to begin with ---")]
    NoMarker,
    /// A directive, as `%YAML` (6.8).
    #[error("a directive")]
    Directive,
    /// Memory was asked for and refused.
    #[error("out of memory")]
    OutOfMemory,
}

/// Why and where bytes aren't read.
#[derive(Clone, Copy, Debug, Error)]
#[error("{place}: {kind}")]
pub struct Fault {
    pub kind: FaultKind,
    pub place: Place,
}

/// A fault inside the reader, at an offset in the text.
#[derive(Clone, Copy)]
pub(crate) struct Stop {
    pub kind: FaultKind,
    pub at: usize,
}

impl Stop {
    ghost use Rattle.std.specs.Prelude.{◌≡◌};

    pub(crate) fn new(kind: FaultKind, at: usize) -> Stop
        ensures { result.kind ≡ kind }
    {
        Stop { kind, at }
    }
}

impl From<AllocError> for Stop {
    ghost use Rattle.std.specs.Prelude.{◌≡◌};
    ghost use Rattle.cj_yaml.specs.declared.fault.FaultKind.TheVariants.{OutOfMemory};

    ghost from_gives = { λ _ stop. stop.kind ≡ OutOfMemory };

    fn from(_refused: AllocError) -> Stop {
        Stop::new(FaultKind::OutOfMemory, 0)
    }
}

impl<T: Drop> From<AllocFailed<T>> for Stop {
    ghost use Rattle.std.specs.Prelude.{◌≡◌};
    ghost use Rattle.cj_yaml.specs.declared.fault.FaultKind.TheVariants.{OutOfMemory};

    ghost from_gives = { λ _ stop. stop.kind ≡ OutOfMemory };

    fn from(_refused: AllocFailed<T>) -> Stop {
        Stop::new(FaultKind::OutOfMemory, 0)
    }
}
