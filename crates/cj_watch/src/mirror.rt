// The mirror, a listing of the Jobs that lags behind the store: the Jobs after some first writes,
// fed with their events.
mod laws;
mod mirror;
mod telling;

pub use laws::mirror_laws;
pub use mirror::Mirror;
