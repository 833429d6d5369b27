use cj_base::Seconds;

/// A minute in which something starts.
#[derive(Clone, Copy, Debug)]
pub struct Minute {
    /// Its time.
    pub time: Seconds,
    /// The place of its first start among all starts, from 0.
    pub first: usize,
    /// How many starts it has, one after the other.
    pub count: usize,
}
