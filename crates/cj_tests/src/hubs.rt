// Hubs, and passes of them.
use cj_calls::Role;
use cj_hub::{Hub, Pass};
use cj_types::Limits;
use std::alloc::Global;
use std::process::Abort;
use std::sync::Wait;

/// A hub whose history has at most so many entries.
pub fn hub_of(rt: &impl Abort, alloc: Global, history: u32) -> Hub {
    let limits = Limits::new(history, 100).expect(rt, "limits");
    Hub::new(alloc, limits).expect(rt, "memory")
}

/// A pass of the role.
pub fn pass_of(rt: &(impl Wait + Abort), hub: &Hub, role: Role) -> Pass {
    hub.enroll(rt, role).expect(rt, "memory")
}
