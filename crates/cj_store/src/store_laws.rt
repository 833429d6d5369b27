// Laws of the store for the layers above it: which contents are sound, what each accepted call
// answers, and how the event of a write changes the content. `turns` has writes that are planned
// one after the other, as they must be.
mod answers;
mod events;
mod sound;
mod turns;

pub use answers::answer_laws;
pub use events::event_laws;
pub use sound::sound_laws;
pub use turns::{make_both, update_both};
