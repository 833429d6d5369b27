//! Tests of the crates up to the controller's threads, which cost the gate most of what they cost
//! but once.
//!
//! Of what stands below the world: zones and due times (`times`), manifests (`manifests`), the
//! store (`store`), the watch window (`watch`) and the work queue (`queue`). Of what stands over
//! it: the world (`world`), the hub (`hub`), syncs and workers (`worker`). And one sync of any
//! number of controllers (`fence`).
//!
//! Here belongs what no row of data and no clause can show. A test's process ends with it, so what
//! is slow to drop (a hub, a closing, an answer, passes) is let go of by `mem::forget`, and where
//! memory is refused a test fails by `expect`: each drop at each exit of a function would be
//! proved.
#![tactic(auto)]

#[cfg(test)]
mod calls;
#[cfg(test)]
mod fence;
#[cfg(test)]
mod hub;
#[cfg(test)]
mod hubs;
mod manifests;
mod queue;
mod store;
mod times;
mod watch;
#[cfg(test)]
mod worker;
#[cfg(test)]
mod world;
