//! The rounds in which all workers of a site play, side by side at one desk.
//!
//! `run_rounds` plays a site to its end. In each round every worker of the site plays one round of
//! its own, in a thread of its own if one can be made (`crew`, `round`). After a round with an
//! entry, time advances by one tick. The site has come to its end when a round made no entry and
//! the board is settled, or when the journal has no room.
//!
//! At the board (np_board) launchers may plan, and a parameter `plans` says whether they do: if so,
//! each worker takes its turns through a `Planner`, and otherwise through `PlainTurns` (`plain`), which
//! ask without a plan.
//!
//! The one pass of a desk is split, a part for each worker, and joined again in the reverse order:
//! so it is whole after each round, and knows every entry. A round of all crews is then a round of
//! np_worker's players, and the journal is one that the workers and their drivers drove. Read
//! `specs/Crews` for who has which pass, `specs/Plays` for what a worker's round is, `specs/Backs`
//! for crews that come back, and `specs/Played` for what rounds leave.
//!
//! A site is played in laps (`specs/Laps`): a round of all workers, in which each does what
//! np_worker's `specs/Board` says, and then a tick if the round made an entry. What the laps leave
//! of the journal and of the drivers follows from this by np_worker's laws (`proofs/Players`).
#![tactic(auto)]

mod crew;
mod crossing;
mod plain;
mod round;
mod rounds;

pub use rounds::{Ended, run_rounds};
