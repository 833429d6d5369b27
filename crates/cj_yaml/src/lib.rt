//! YAML: a stream of documents read to JSON values, with the place of each value, and a writer.
//!
//! Here belongs the text of YAML 1.2 as Kubernetes manifests use it. What a value means belongs to
//! the crates that read JSON values.
//!
//! # Calling
//!
//! `read(alloc, bytes)` gives the documents of a stream, or the one fault with its line and
//! column. A document has its `value`, which nests at most 127 levels deep as JSON does, and its
//! `places`: `places.nearest(alloc, bytes, &[Step::Key("spec"), Step::Item(0)])` is the place of
//! the value at a path, or of the deepest value on the way that is there, so that a field that is
//! missing is told at the mapping that lacks it. Its `warnings` tell what YAML 1.1, and so the
//! API server, reads otherwise. An empty document is null. JSON texts are YAML, but
//! `serde_json` reads them faster, and it knows `\ud83d\ude00` pairs, which are refused here.
//!
//! `write(alloc, &value)` prints a value in block style, as `kubectl get -o yaml` does. The text is
//! read before it is given, so whoever has it can rely on `read` to give the value again.
#![tactic(auto)]

mod block;
mod block_text;
mod chars;
mod cursor;
mod document;
mod double;
mod escape;
mod fault;
mod flow;
mod grow;
mod law;
mod literal;
mod mark;
mod notes;
mod place;
mod places;
mod plain;
mod properties;
mod quoted;
mod read_back;
mod resolve;
mod scalar;
mod stream;
mod write_fault;
mod writer;

pub use document::Document;
pub use fault::{Fault, FaultKind};
pub use law::{printed_texts_law, written_documents_law};
pub use mark::{Warning, WarningKind};
pub use place::Place;
pub use places::{Places, Step};
pub use read_back::{Reads, Yaml, write, write_for};
pub use stream::read;
pub use write_fault::WriteFault;
