//! Watches on paths of the coordination tree, and which paths are as they were at a change.
//!
//! `specs/Watching` says when a path is fresh, by the stats that `Tree::exists` returns, and that
//! this is what np_tree says of it. It says what a set of watches is, too: contracts see `Watches`
//! as the list of its watches, in the order of their keys.
//!
//! A watch fires once: `take_fired` takes out the watch whose key it returns.
#![tactic(auto)]

mod fresh;
mod laws;
mod watch;
mod watches;

pub use fresh::{change_of, is_fresh, stat_above};
pub use laws::{stale_paths_have_later_changes, tests_say_fresh};
pub use watches::Watches;
