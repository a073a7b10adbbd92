//! The clouds that launch servers for pools, and the gate before each launch.
//!
//! A driver (`Driver`) launches and removes the servers of one pool. What contracts know of it is
//! one record (`specs/Facts`): the launches that it answered, its servers, and how many calls
//! failed; `specs/Calls` says how a call changes that record. `specs/Sound` says which lists of
//! servers a driver may have, and when a launch may fail for want of room. `SimDriver` is the
//! simulated cloud, which fails the starts that the configuration plans; `ScriptDriver` answers from
//! a list, for tests. Both report all that they did, by an `Inventory`.
#![tactic(auto)]

mod clouds;
mod driver;
mod gate;
mod inventory;
mod law;
mod script;
mod sim;

pub use clouds::simulated_clouds;
pub use driver::{Driver, Launch, LaunchFault, MOST_LAUNCHES, RemoveFailed, Server, Tag};
pub use gate::{Gate, OpenGate};
pub use inventory::Inventory;
pub use law::{
    a_simulated_cloud_tells_all, no_removal_of_a_simulated_cloud_fails,
    simulated_clouds_begin_without_servers, simulated_clouds_follow_the_configuration,
};
pub use script::ScriptDriver;
pub use sim::SimDriver;
