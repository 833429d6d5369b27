// What a controller would write next: the calls of the next sync of each CronJob of a cluster.
//
// What a sync would know of the objects of a printed list, and what it would set out to do by the
// plan. The calls themselves and their requests belong to `cj_control`, the plan to `cj_decide`.
mod errands;
mod leaving;
mod looking;
mod plans;
mod reading;
mod values;

pub(crate) use values::calls_values;
