// From when to when a picture shows the Jobs of a cluster.
use cj_types::Seconds;

/// From when to when a picture shows the Jobs of a cluster.
#[derive(Clone, Copy, Debug)]
pub struct Window {
    /// The first moment that is shown; that of the earliest Job where nobody says.
    pub since: Option<Seconds>,
    /// The moment up to which a Job that hasn't ended is drawn, if nothing shown is later; that of
    /// the newest event where nobody says.
    pub now: Option<Seconds>,
}

impl Window {
    /// All that the Jobs say.
    pub const ALL: Window = Window {
        since: None,
        now: None,
    };
}
