// Times in members.
ghost use Rattle.std.specs.Prelude.{◌≡◌};
ghost use Rattle.serde_json.specs.View.{view};
ghost use Rattle.cj_manifest.specs.Members.{present as member_at};
ghost use Rattle.cj_script.specs.operations.Instants as said;

use crate::operations::member::present;
use cj_types::Seconds;
use cj_zone::read_time;
use serde_json::Value;

/// The instant that a text prints, `YYYY-MM-DDTHH:MM:SSZ`; none where it prints none.
pub fn instant_of(text: &str) -> Option<Seconds>
    ensures { result ≡ said.instant_of text.now }
{
    read_time(text)
}

/// A time that must be there.
pub(crate) fn time_at(value: &Value, name: &str) -> Option<Seconds>
    ensures { result ≡ said.time_in (member_at name.now (view value.now)) }
{
    instant_of(present(value, name)?.as_str()?)
}
