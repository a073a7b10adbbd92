//! Reading the configuration's JSON: members, names, numbers and lists, each with its first fault.
//!
//! The meaning of each reader is a function of the JSON value alone, in `specs/Leaf` and
//! `specs/Rows`: it is what is there, or the first fault with its place as a JSON pointer. A reader
//! of the code returns just that, unless memory runs out.
#![tactic(auto)]

mod fault;
mod leaf;
mod list;
mod member;
mod named;
mod numbered;

pub use fault::{ConfigFault, ConfigKind, ConfigRead, Place, Pointer, Reading, fault_at, fault_in};
pub use leaf::{Length, flag_of, list_of, object, required, text_of, whole_of};
pub use list::{Rows, rows_maybe, rows_of, rows_required};
pub use member::{flag, whole, whole_maybe, whole_required};
pub use named::{NamedRow, Table, named_row};
pub use numbered::Marked;
