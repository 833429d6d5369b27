/// How far the work on a hub is.
#[derive(Clone, Copy, Debug, PartialEq, Eq)]
pub enum HubState {
    /// A worker gave up.
    Broken,
    /// There are writes that the asker hasn't seen, or that the listings don't know of.
    Behind,
    /// No key is in the line, and nobody holds one.
    Quiet,
    /// A key is in the line or held.
    Busy,
}
