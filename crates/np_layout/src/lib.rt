//! How the coordination tree lays a state of the machine out, which state a tree has, and how the
//! tree enacts the changes of an event.
//!
//! `specs/Layout` says when a tree lays a state out: the rows of each directory are those of one
//! table of the state, with their bytes and owners, and nothing else is there. `specs/Rows` has the
//! row of each record, lock and mark, and the call that makes the tree before the first
//! event. `specs/Sets` says what one set of a node's bytes does: if a tree lays a state out, the
//! set of a record to another record's text lays out the state with that record, and the set is
//! accepted. `specs/Deletes` says the same of what grows: a handle, a swept pair, a registration, a
//! wait at a lock, a session, a request and a node, each made by the creates of its records and locks.
//! `specs/Deletes` says the same of what goes: a handle, a wait, a request or a node with its waits, and
//! a session that ends.
//!
//! `specs/Decoded` reads a state from what a tree shows, table by table: names and bytes are read as
//! the texts that they are, owners as sessions, and what is in the order of names in the tree is put in
//! the order of numbers. That is the state, if the tree lays out one that it can carry.
//!
//! The laws are public functions that do nothing: their contracts are the laws.
//!
//! A `Place` says where a record or a lock stands, as data: a directory, a record, or a wait in a
//! lock, with the ids that it is for. `specs/Place` says what each place's path is, in which directory
//! it is and under which name, and for which ids a place has a path (`IsGood`). `PathText` is a path's
//! text for the tree's readers, made without memory, and `to_path` makes a `Path` of it for the calls
//! that change the tree. It has what is true of all places, each a public function that
//! does nothing: paths are in the grammar, a path is its directory's and its name, no two places have
//! the same, names are in order as their ids are, and 64 bytes are room for each.
//!
//! `specs/Parts` says what the tree is asked to do for an event's changes: the parts of one call, in
//! the order of the changes, and a session that begins or ends after it. `specs/Ways` says of each
//! table that an event may change that the parts for it are accepted and leave a tree that lays the
//! changed state out. It says the same of the changes of a whole event. `specs/Ways` says
//! that each accepted event of a run has what these need of its changes and of the state, and that the
//! state after it is one that a tree can carry again.
#![tactic(auto)]

mod buffer;
mod decode;
mod enacted;
mod laws;
mod path_text;
mod place;
mod place_laws;
mod ready;

pub use decode::a_tree_has_one_state;
pub use enacted::{
    changes_of_handles_are_enacted, changes_of_jobs_are_enacted, changes_of_nodes_are_enacted,
    changes_of_requests_are_enacted, changes_of_roles_are_enacted, changes_of_sessions_are_enacted,
    events_are_enacted, growths_are_enacted, ticks_are_enacted,
};
pub use laws::{
    begun_sessions_lay_out, creates_of_handles_lay_out, creates_of_registrations_lay_out,
    creates_of_swept_pairs_lay_out, deletes_of_handles_lay_out, deletes_of_node_waits_lay_out,
    deletes_of_nodes_lay_out, deletes_of_request_waits_lay_out, deletes_of_requests_lay_out,
    ends_of_sessions_lay_out, first_trees_lay_out_the_start, grown_nodes_lay_out,
    grown_requests_lay_out, sets_of_jobs_lay_out, sets_of_nodes_lay_out, sets_of_requests_lay_out,
    sets_of_roles_lay_out, sets_of_sessions_lay_out, sets_of_the_tick_lay_out,
    waits_at_nodes_lay_out, waits_at_requests_lay_out,
};
pub use path_text::{PathText, to_path};
pub use place::Place;
pub use place_laws::{
    names_stand_in_order, no_two_places_share_a_path, paths_are_in_the_grammar,
    paths_fit_in_64_bytes, places_stand_in_directories,
};
pub use ready::{
    every_accepted_event_is_enacted, every_accepted_event_is_ready, every_record_is_spelled,
    every_start_is_carried, every_step_is_carried,
};
