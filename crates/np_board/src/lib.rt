//! The board: the machine's state with its journal, at which parties take turns.
//!
//! A turn answers an ask after the journal so far: np_worker says which answers an ask may have,
//! and `specs/PlanTaken` what a turn leaves. `Board` is a machine (np_rules) whose store is a
//! coordination tree (np_keeper). It lends the machine to readers, and the tree. `machine_of_tree`
//! reads a machine back from such a tree: it goes on from there with an empty journal.
//!
//! Launchers may also plan at a board: they choose on the tree as it stands, and commit later, where it
//! is as it was at what their event's judgement reads (`specs/PlanTaken`). `Board` has `SeqObject` for
//! threads that share it at a desk (np_desk). There the journal is the history, and np_worker's test of
//! a legal journal says that its replies are the machine's. `Planner` has the turns of such a desk as
//! any party asks for them: a launcher commits the plan that it made with an earlier ticket and plans
//! its next event, or its turn is one without a plan, where nothing can be planned or four tickets had
//! no commit. Turns of others come in a row with one ticket.
//!
//! Whoever has done with a board calls `close`: what is proved of letting go of its parts is then
//! proved here alone.
#![tactic(auto)]

mod batch;
mod board;
mod due;
mod once;
mod planner;
mod reading;
mod turns;

pub use board::{Board, Plan, PlanAsk, PlanTurn};
pub use planner::Planner;
pub use reading::{NotRead, close_machine, machine_of_tree};
