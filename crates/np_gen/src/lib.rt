//! The drill site: a site of any size, made from its number of jobs alone.
//!
//! Four pools offer four labels, and four requesters have jobs that are drawn by a number
//! generator, so the same number of jobs always makes the same site. `specs/Site` defines the site
//! and a draw.
#![tactic(auto)]

mod draw;
mod job;
mod law;
mod site;
mod supply;

pub use law::{a_worked_draw, one_job_in_ten_asks_for_nine};
pub use site::drill;
