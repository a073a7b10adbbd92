//! Planned events: a launcher chooses on the tree as it stands, and commits later, where what the
//! judgement of its event read is still as it was.
//!
//! `specs/Spots` says which events are planned, and of which records, registrations and locks the
//! judgement of each reads: its spots, and their paths; and that an event is
//! accepted in the state of a later tree where its paths are fresh. `specs/Stale` says that nothing
//! else counts.
//!
//! `spots` reads an event's spots of a state, and `paths_of` makes their paths.
//!
//! `first_stale` tests paths by the stats that a `StatRead` reads, and finds the first that is not
//! fresh. `specs/Stale` says that what it asks of the paths holds of those of an accepted event.
#![tactic(auto)]

mod gather;
mod laws;
mod spot;
mod stale;
mod stats;

pub use gather::{paths_of, spots};
pub use laws::{fresh_spots_commit, spots_decide, spots_have_paths};
pub use spot::{Spot, SpotRow, spot_path};
pub use stale::{Kept, first_stale};
pub use stats::{StatRead, TreeStats};
