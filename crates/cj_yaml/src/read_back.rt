// A text is given only once it was read, and as the value that it was made of.
ghost use Rattle.std.specs.Prelude.{◌≡◌, [], ◌∷◌, IfOk, ℕ, List, Some, string_bytes, true};
ghost use Rattle.cj_yaml.specs.BlockStyle.{IsBlock};
ghost use Rattle.cj_yaml.specs.ReadOf.{IsReadOf, values};
ghost use Rattle.serde_json.specs.Data.{Data};
ghost use Rattle.serde_json.specs.Read as json;
ghost use Rattle.serde_json.specs.View.{view};

use crate::document::Document;
use crate::fault::{Fault, FaultKind};
use crate::notes::nests_within;
use crate::stream::{MAX_DEPTH, read};
use crate::write_fault::WriteFault;
use crate::writer::write_block;
use serde_json::Value;
use std::alloc::{AllocError, Global};

/// What reads YAML.
pub trait Reads {
    /// What bytes are read as: the values of their documents.
    ghost gives: { Self → List ℕ → List Data → Type 0 };

    /// The documents of a stream, or its first fault.
    fn read(&self, alloc: Global, bytes: &[u8]) -> Result<Vec<Document>, Fault>
        ensures { IfOk result (λ documents. gives self.now bytes.now (values documents.items)) };
}

/// The reader of this crate.
#[derive(Clone, Copy)]
pub struct Yaml;

impl Reads for Yaml {
    ghost gives = { λ _ bytes found. IsReadOf bytes found };

    fn read(&self, alloc: Global, bytes: &[u8]) -> Result<Vec<Document>, Fault> {
        read(alloc, bytes)
    }
}

/// The text of a value, as one document that `read` takes for that value: in block style, members
/// in the order of their keys, two spaces a level, a list at the indentation of its key. A text in
/// it is plain where it reads back so, literal where it has several lines, and else in double
/// quotes.
pub fn write(alloc: Global, value: &Value) -> Result<String, WriteFault>
    ensures reads_back { IfOk result
        (λ text. IsReadOf (string_bytes text) (view value.now ∷ [])) }
    ensures text { IfOk result (λ text. IsBlock (view value.now) (string_bytes text)) }
{
    write_for(alloc, &Yaml, value)
}

/// The text of a value in block style, which this reader was given, and took for one document with
/// just that value. Should it read that otherwise, there is no text (`NotReadBack`).
pub fn write_for<R: Reads>(alloc: Global, reader: &R, value: &Value) -> Result<String, WriteFault>
    ensures reads_back { IfOk result
        (λ text. R.gives reader.now (string_bytes text) (view value.now ∷ [])) }
    ensures text { IfOk result (λ text. IsBlock (view value.now) (string_bytes text)) }
{
    if !nests_within(value, MAX_DEPTH) {
        return Err(WriteFault::Nested);
    }
    let json = value.to_string(alloc)?;
    let block = write_block(alloc, value)?;
    if is_read_as(alloc, reader, block.as_str(), json.as_str())? {
        return Ok(block);
    }
    Err(WriteFault::NotReadBack)
}

// Whether a reader takes a text for one document whose value has this JSON text.
fn is_read_as<R: Reads>(
    alloc: Global,
    reader: &R,
    text: &str,
    wanted: &str,
) -> Result<bool, WriteFault>
    ensures { IfOk result (λ same. same ≡ true → (d : Data) → json.read wanted.now ≡ Some d
        → R.gives reader.now text.now (d ∷ [])) }
{
    match reader.read(alloc, text.as_bytes()) {
        Ok(documents) => match documents.as_slice() {
            [document] => Ok(is_value(alloc, document, wanted)?),
            _ => Ok(false),
        },
        Err(fault) => match fault.kind {
            FaultKind::OutOfMemory => Err(WriteFault::Memory),
            _ => Ok(false),
        },
    }
}

// Whether the value of a document has this JSON text.
fn is_value(alloc: Global, document: &Document, wanted: &str) -> Result<bool, AllocError>
    ensures { IfOk result (λ same. same ≡ true → (d : Data) → json.read wanted.now ≡ Some d
        → view document.now.value ≡ d) }
{
    let found = document.value.to_string(alloc)?;
    Ok(found.as_str() == wanted)
}
