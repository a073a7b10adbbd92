//! The machine's state, written in a coordination tree and read back from it.
//!
//! A `TreeStore` is a tree in which a machine writes what each accepted event changes, before its own
//! tables take it (np_look's `Store`). `specs/Keeper` says what holds of the tree: it stores the state
//! that np_layout reads from it, with room for the changes of every event to come. `start` makes the
//! first tree, and `change` makes the changes of an event: one call of the tree, and then a session
//! begins or ends.
//!
//! `judge` and `enact` play the machine's events over a tree that the caller has: `judge` answers an
//! event by the state that np_layout reads from the tree, and `enact` makes the changes of an event that
//! is accepted, by one call of the tree. What they say of the tree also holds of any state that it
//! stores.
//!
//! `vectors_of_rows` reads any rows of a state (np_look) into the vectors of tables (np_tables), each
//! table once from its first row to its last. Rows list no swept pairs, so the caller brings these;
//! `swept_pairs` reads them from a coordination tree. `tables_of_tree` reads a whole tree.
#![tactic(auto)]

mod answer;
mod append;
mod change;
mod handles;
mod list;
mod lists;
mod locked;
mod names;
mod queue;
mod range;
mod start;
mod step;
mod store;
mod swept;
mod vectors;

pub use answer::judge;
pub use start::first_tree;
pub use step::enact;
pub use store::TreeStore;
pub use swept::swept_pairs;
pub use vectors::{tables_of_tree, vectors_of_rows};
