//! The sites that several modules play, who may act there, and their boards.

use np_board::Board;
use np_config::Config;
use np_config_read::read_config;
use np_text::{PoolId, RequesterId, Role};
use std::alloc::Global;

/// One pool, one label, one job.
pub const ONE_JOB: &str =
    r#"{"labels":[{"name":"a"}],"providers":[{"name":"c","pools":[{"name":"m","labels":[{"name":"a"}]}]}],"requesters":[{"name":"z","jobs":[{"name":"j","labels":["a"]}]}]}"#;

/// A job with one node.
pub const SERVED: &str =
    r#"{"labels":[{"name":"small"}],"providers":[{"name":"cloud","pools":[{"name":"main","max-servers":2,"labels":[{"name":"small"}]}]}],"requesters":[{"name":"check","jobs":[{"name":"unit","labels":["small"]}]}]}"#;

/// A job with one node, and a node that is kept ready.
pub const KEPT_READY: &str =
    r#"{"labels":[{"name":"small","min-ready":1}],"providers":[{"name":"cloud","pools":[{"name":"main","labels":[{"name":"small"}]}]}],"requesters":[{"name":"check","jobs":[{"name":"unit","labels":["small"]}]}]}"#;

/// Neither of two pools can give the job its two machines.
pub const TOO_SMALL: &str =
    r#"{"labels":[{"name":"arm"},{"name":"intel"}],"providers":[{"name":"east","pools":[{"name":"main","labels":[{"name":"intel"}]}]},{"name":"west","pools":[{"name":"main","max-servers":1,"labels":[{"name":"arm"}]}]}],"requesters":[{"name":"check","jobs":[{"name":"pair","labels":["arm","arm"]}]}]}"#;

/// Three jobs, at a pool whose first three starts fail, and its fifth.
pub const FAILS: &str =
    r#"{"labels":[{"name":"small"}],"providers":[{"name":"cloud","pools":[{"name":"main","labels":[{"name":"small"}],"fail-starts":[1,2,3,5]}]}],"requesters":[{"name":"check","window":1,"jobs":[{"name":"first","labels":["small"]},{"name":"second","labels":["small"]},{"name":"third","labels":["small"]}]}]}"#;

/// Two jobs of a tenant that may have one node; the second wants a semaphore.
pub const OF_TENANT: &str =
    r#"{"labels":[{"name":"a"}],"providers":[{"name":"c","pools":[{"name":"m","labels":[{"name":"a"}]}]}],"semaphores":[{"name":"x"}],"tenants":[{"name":"t","max-servers":1}],"requesters":[{"name":"z","jobs":[{"name":"j","labels":["a"],"tenant":"t"},{"name":"k","labels":["a"],"semaphores":["x"],"tenant":"t"}]}]}"#;

/// Who may act at them, in the order of a round.
pub const ROLES: [Role; 6] = [
    Role::Requester(RequesterId(0)),
    Role::Launcher(PoolId(0)),
    Role::Launcher(PoolId(1)),
    Role::Janitor(PoolId(0)),
    Role::Janitor(PoolId(1)),
    Role::Reaper,
];

/// The configuration, or none if the text has a fault.
pub fn config_of(alloc: Global, text: &str) -> Option<Config> {
    match read_config(alloc, text.as_bytes()) {
        Ok(config) => Some(config),
        Err(_) => None,
    }
}

/// The board of the site, before the first event.
pub fn new_board(alloc: Global, site: &str) -> Option<Board> {
    match Board::new(alloc, config_of(alloc, site)?) {
        Ok(board) => Some(board),
        Err(_) => None,
    }
}
