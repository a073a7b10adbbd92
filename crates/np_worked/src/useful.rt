//! Examples that check the definitions: events in states of worked journals. For each row there is
//! one event that is useful, and one that only the row's condition refuses: the machine would
//! accept it from the role's current session.

pub mod janitor;
pub mod launcher;
pub mod reaper;
pub mod requester;
pub mod whole;
