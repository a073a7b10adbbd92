//! The configuration as one value: its tables, read by id or whole.
//!
//! Ids are places in the tables. `specs/Configuration` has the tables and the ranges,
//! lengths, order and references of each row, `specs/Word` the words of planned faults. Every
//! `Config` is one that a text can have: `of_parts` requires that it is sound, nothing changes a
//! configuration afterwards, and `know_soundness` gives the fact to a caller. Nothing here reads or prints
//! a text.
#![tactic(auto)]

mod config;
mod named;
mod row;
mod tenant;

pub use config::Config;
pub use named::{Named, Numbered};
pub use row::{
    Fault, FaultKind, Job, Label, LabelList, Name, NumberList, Offer, OfferList, Pool, Provider,
    Requester, Sem, SemList, Tenant,
};
