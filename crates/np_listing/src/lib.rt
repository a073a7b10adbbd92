//! What people read of a run: the tables of one of its states, in columns (nodes, requests, handles
//! and sessions), and the summary of what the whole run took.
//!
//! `specs/Listing` says which rows each table has, and how rows are printed. A `Tally`
//! counts a run while it is played: its events, its launches, the most that pools and tenants used,
//! and how long semaphores were full. `specs/Tally` says what is counted, in terms of the journal and
//! of the states after its entries, and `specs/Summary` how it is printed.
#![tactic(auto)]

mod columns;
mod fates;
mod handles;
mod kinds;
mod lines;
mod nodes;
mod notes;
mod requests;
mod row;
mod rows;
mod sessions;
mod state;
mod tally;

pub use state::listing;
pub use tally::Tally;
