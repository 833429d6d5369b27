// What a history says of the store, of watch events and of the listing that lags, by looking back
// over its accepted writes; and that the state agrees.
mod laws;

pub use laws::{answer_law, event_law, mirror_law, number_law, store_law};
