/// What a call answers, as JSON.
#[derive(Drop)]
pub(crate) enum Told {
    /// What the call asks for.
    Done(String),
    /// Why what the call gives is refused.
    Refused(String),
}
