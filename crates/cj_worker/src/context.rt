use crate::gate::{Clock, Gate};
use cj_zone::ZoneTable;
use std::alloc::Global;

/// What a sync goes by, beside its desk and its pass: the gate between its calls, its clock, the
/// zones of the schedules, and where it takes its memory from.
#[derive_where(Clone, Copy)]
pub(crate) struct SyncContext<'a, G: Gate, C: Clock> {
    pub(crate) alloc: Global,
    pub(crate) gate: &'a G,
    pub(crate) clock: &'a C,
    pub(crate) zones: &'a ZoneTable,
}
