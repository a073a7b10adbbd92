//! The top call: all that the program does, over any source, sinks and disk.
//!
//! np_replay says which words are a command. Each command is a public function with a record of
//! clauses in a file of its own, as `specs/Audit`: it works out an `Ending`, and `tell` of np_replay
//! writes that to the sinks. The commands that play a site share the record of `specs/Run`, and say
//! in what they differ. The commands over scripts are in np_replay. `poolsim` reads the words
//! and calls the command. Nothing is printed to out before all of the input was read and the whole
//! text is in memory.
#![tactic(auto)]

mod auditing;
mod drilling;
mod hosting;
mod playing;
mod running;
mod top;
mod typed;

pub use auditing::audit;
pub use drilling::drill;
pub use hosting::run_hosts;
pub use running::run;
pub use top::poolsim;
