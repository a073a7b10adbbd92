//! Static hosts: pools that are served by fixed hosts in place of a cloud.
//!
//! Each host carries at most so many servers at once (Nodepool's static driver, and its
//! `max-parallel-jobs`). `HostDriver` drives the hosts of one pool: `specs/Loads` says on lists of
//! server numbers which host is next and which lists are sound, and `specs/Site` what a launch
//! comes to. `SiteDriver` is the driver of a pool that may have hosts or not. `read_hosts` makes
//! the drivers of all pools from host lines; `specs/Read` says of all bytes which these are, or
//! which fault comes first. `read_hosted` reads a configuration with its host lines
//! (`specs/Read`).
#![tactic(auto)]

mod driver;
mod fault;
mod hosted;
mod law;
mod limit;
mod line;
mod read;
mod site;

pub use driver::HostDriver;
pub use fault::{HostedFault, HostsFault, HostsRead};
pub use hosted::{HostedSite, read_hosted};
pub use law::{
    a_freed_host_is_taken_again, a_launch_fails_where_all_hosts_are_full,
    a_launch_takes_the_first_free_host, a_pool_with_hosts_has_room, a_site_tells_all,
    a_sound_list_is_one_that_the_hosts_carry, each_pool_has_its_driver,
    hosts_answer_no_number_twice, no_removal_of_a_site_fails,
};
pub use limit::{HOST_SERVERS, HOSTS};
pub use line::HostLine;
pub use read::read_hosts;
pub use site::SiteDriver;
