//! Laws on rounds of all players. Each function does nothing: its contract is the law.

mod hosted;
mod journals;
mod makers;
mod servers;

pub use hosted::{
    a_launch_that_was_begun_is_of_its_pool, a_round_keeps_what_is_hosted,
    a_tick_keeps_what_is_hosted, drivers_begin_to_host, what_is_hosted_was_carried,
};
pub use journals::{
    a_round_is_driven, a_tick_after_a_round_is_driven, players_begin_with_the_empty_journal,
    what_planned_drivers_drove_was_driven_as_planned,
};
pub use makers::each_entry_is_of_its_makers_role;
pub use servers::{
    servers_leave_with_a_cause, servers_stay_where_they_are_kept,
    unwanted_servers_go_in_a_whole_round,
};
