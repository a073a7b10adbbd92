//! Amounts of test machines and the limits of a pool.
//!
//! A quota is a rule, a limit its number, and a count what is used: an amount that is compared with
//! the limit. `specs/Amounts` defines sums of amounts over a list, and the functions of `law` state
//! what is always true of them; `proofs/Sums` has the same facts as lemmas.
#![tactic(auto)]

mod amount;
mod law;

pub use amount::{Amount, Limit};
pub use law::{
    amounts_add_up, smaller_amounts_fit, times_are_sums, totals_are_sums, totals_follow_their_list,
};
