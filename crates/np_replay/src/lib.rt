//! The words of the command line, how a command of the program ends, and the commands over scripts:
//! `replay` plays one, `keep` also writes it to a transaction log, and `resume` goes on with a log.
//!
//! A command works out an `Ending`, and `tell` writes that to the sinks (`specs/Told`). A command
//! that reads takes its whole `input` first (`specs/Input`), so that a failed source is found
//! before anything else. The statuses 5, 6 and 7 mean the same for each of them
//! (`specs/Failures`). The lines that report what is wrong with a script, or with a site with
//! hosts, are in `specs/Lines`. `proofs/Statuses` goes from an ending and what was written of it to
//! what each status means, for any command.
//!
//! Each command is a public function with a record of clauses in a file of its own, as
//! `specs/Replay`. `specs/Logged` says what a log says of a site and its events. Nothing is printed to
//! out before all of the input was read, all events are in the log, and the whole text is in memory.
//!
//! `specs/Command` says which words are a command. `words` has the one call of `clap` that reads
//! them, `command` what becomes of the words that it gives, and `law` worked examples.
#![tactic(auto)]

mod command;
mod ending;
mod fault;
mod file_name;
mod hosts;
mod keeping;
mod law;
mod lines;
mod reading;
mod replaying;
mod resuming;
mod script;
mod telling;
mod words;

pub use command::Command;
pub use ending::Ending;
pub use file_name::FileName;
pub use hosts::{line_of_hosted, status_of_hosted};
pub use keeping::keep;
pub use law::worked_commands;
pub use lines::{line_of_config, line_of_lines, line_of_script, status_of_script};
pub use reading::input;
pub use replaying::replay;
pub use resuming::resume;
pub use telling::tell;
pub use words::command_of;
