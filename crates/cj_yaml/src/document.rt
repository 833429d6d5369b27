ghost use Rattle.std.specs.Prelude.{◌≤◌};
ghost use Rattle.serde_json.specs.Data.{depth};
ghost use Rattle.serde_json.specs.Read.{max_depth};
ghost use Rattle.serde_json.specs.View.{view};

use crate::mark::Warning;
use crate::places::Places;
use serde_json::Value;

/// A document of a stream.
#[derive(Drop)]
pub struct Document {
    /// What it says; null where it is empty. It nests at most 127 levels deep.
    pub value: Value,
    /// Where the values in it stand.
    pub places: Places,
    /// What YAML 1.1 reads otherwise, in the order of the text.
    pub warnings: Vec<Warning>,
    ghost nests: { depth (view value) ≤ max_depth },
}
