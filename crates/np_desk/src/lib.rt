//! The desk at which threads take turns: a ticketed lock round an object that keeps a history.
//!
//! The threads share one legal history. Each of them has a `Pass`, which knows how much of it has
//! been seen and which places in it are its own. Read `object`, `series` and `specs/Series` for
//! what a turn is and what several turns with one ticket are, `specs/Step` and `specs/Part` for
//! what a pass is, and docs/DESK.md for the rule in words.
//!
//! The rule of the table below the desk is in `specs/Rule`, each step of a turn in `step`. Only a
//! turn may wait, and only `set_up` and the object's own turn take memory.
#![tactic(auto)]

mod alone;
mod bell;
mod desk;
mod object;
mod on_desk;
mod pass;
mod row;
mod rule;
mod series;
mod step;
mod turns;
mod view;

pub use alone::Alone;
pub use desk::{Desk, SetUpFailed};
pub use object::SeqObject;
pub use on_desk::OnDesk;
pub use pass::Pass;
pub use series::Series;
pub use turns::Turns;
pub use view::Origin;
