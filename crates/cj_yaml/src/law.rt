ghost use Rattle.std.specs.Prelude.{◌≡◌, [], ◌∷◌, IfOk, List, string_bytes};
ghost use Rattle.cj_yaml.specs.ReadsBack.{IsReadInOneWay, PrintedReadsBack};
ghost use Rattle.serde_json.specs.Data.{Data};
ghost use Rattle.serde_json.specs.View.{view};

use crate::read_back::{Reads, write_for};
use crate::write_fault::WriteFault;
use serde_json::Value;
use std::alloc::Global;

/// The law of printed texts: what is printed of a text, plain or in double quotes, reads as that
/// text where it stands as a value.
pub fn printed_texts_law()
    ensures { PrintedReadsBack }
{}

/// The law of written documents: whatever reads the bytes that are written for it in one way alone
/// reads them as one document, and that is the value.
pub fn written_documents_law<R: Reads>(
    alloc: Global,
    reader: &R,
    value: &Value,
) -> Result<String, WriteFault>
    ensures { IsReadInOneWay (R.gives reader.now) → IfOk result (λ text. (found : List Data)
        → R.gives reader.now (string_bytes text) found → found ≡ view value.now ∷ []) }
{
    write_for(alloc, reader, value)
}
