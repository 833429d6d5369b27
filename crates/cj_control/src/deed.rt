use crate::calls::CronParts;
use crate::sent::Request;
use cj_base::{Shared, Text};
use cj_fence::{Answer, Call};

/// What becomes of a sync, which is known by its number, or of the clock.
#[derive(Drop)]
pub enum Deed {
    /// It begins, of the CronJob NAMESPACE/NAME.
    Begins(u64, Text),
    /// It asks what lists and watches told.
    Asks(u64, Shared<Call>),
    /// It asks the API server, by the request of the second number, made of these parts of a
    /// CronJob.
    Sends(u64, u64, Shared<CronParts>, Shared<Call>, Request),
    /// A request of this number, of no sync: a GET, or an Event that is told.
    Reads(u64, Request),
    /// It hears the answer to what it asked last.
    Hears(u64, Answer),
    /// It ends.
    Ends(u64),
    /// The clock says this moment, in seconds since 1970.
    Ticks(u64),
}
