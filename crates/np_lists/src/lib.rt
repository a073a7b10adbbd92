//! Lists of any type: the theory that several crates use, a list that contracts see as a list, a
//! list whose items are found, inserted, changed and removed by place, and on it rows in the order
//! of their keys and ids in groups.
//!
//! `specs/` has the first member that passes a test, changes of one member, lists in order, and tests
//! one after another. `proofs/` has the lemmas on them.
//!
//! Contracts see a `Shelf` as the list of its items, and everything goes by place: the order of the
//! items does not matter to the shelf, and a change moves none of the others. A `Piece` is an item
//! with the memory that it takes there, so that only making one can fail: a piece that was removed
//! goes back in without memory. A shelf is a weight-balanced tree of boxes. What it holds and answers
//! is proved; that the tree is low, so that a call takes time logarithmic in the length, is measured
//! and not proved.
//!
//! A table is one for every kind of row: an `Order` says what a row's key is and which key comes
//! first, a `RowChange` or a `RowEdit` what a row becomes. Contracts see a `KeyTable` as the list of
//! its rows, and a `RoomyTable` as that list with the number of rows that it can take without memory.
//!
//! In `Groups` each group has its ids in order, and the room for more is taken beforehand. Contracts
//! see them as the list of their members and the room that is left. `specs/Groups` says what each
//! call changes of it, `proofs/` what is then in each group. The members are in a `Shelf`, and the
//! memory for more is in pieces of another (`stock`).
//!
//! `ranks` finds the ids of a list, or of a group, that are not in another group, by binary search:
//! both are in order, so the ids of the inner group before a place of the outer are counted without
//! visiting them. `specs/Ranks` defines which ids are outside.
//!
//! `moves` moves an id from the groups that it was in to those that it is in now, and searches only
//! for those that it leaves or joins. `specs/Moves` says what is then in each group.
#![tactic(auto)]

mod change;
mod groups;
mod items;
mod listing;
mod moves;
mod order;
mod piece;
mod probe;
mod ranks;
mod roomy;
mod rows;
mod shelf;
mod stock;
mod table;

pub use change::Change;
pub use groups::{Group, Groups, Member};
pub use items::Items;
pub use listing::Ids;
pub use moves::move_id;
pub use order::{Order, RowChange, RowEdit, always};
pub use piece::Piece;
pub use probe::Probe;
pub use ranks::{id_outside, outside_at, outside_list_at};
pub use roomy::RoomyTable;
pub use shelf::Shelf;
pub use table::KeyTable;
