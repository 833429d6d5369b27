// What a sync does next, by what it has heard.
use crate::machine::task::Again;
use cj_base::Text;
use cj_fence::{Answer, Call};

/// What a sync does next.
#[derive(Drop)]
pub(crate) enum Choice {
    /// It asks what lists and watches told, which is this.
    Look(Call, Answer),
    /// It asks the API server.
    Send(Call),
    /// It asks for what is at this path, of which the protocol knows nothing.
    Read(Text),
    /// It ends.
    End(Again),
}
