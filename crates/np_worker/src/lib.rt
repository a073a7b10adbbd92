//! One worker's round, and the journals that parties and their clouds drive by such rounds.
//!
//! A worker (`Worker`) plays its roles at a board: a pool's worker plays the launcher and the
//! janitor, with the pool's driver; a requester's worker and the reaper's play one role each. In a
//! round each role takes at most 16 turns in which it acts, and what they call for is done at once:
//! an accepted start is launched and reported, a due node's server is removed before its record
//! goes, and at the end the servers that nobody wants are removed. Turns with no launch or removal
//! between them are taken in series of at most 16 (`Playing`), and others wait for all of these.
//!
//! Contracts describe a round by one list of moves: its turns with their answers, and what its
//! driver did. Read `specs/Stage` for what one part of a round is, and `specs/Hosting` for how a
//! round ends. The laws in `moves` say what holds of the moves of every round, and `specs/Moves`
//! hands them out at the call. `specs/Board` says what they come to at a board: where the entries
//! stand and of which role each is, how far the roles came, and what became of the driver's
//! servers.
//!
//! An answer of a wrong kind to a role's turn (say, that a node is due) counts as nothing to do,
//! and ends the role's part. One to a sweep counts as keeping the server.
//!
//! # Turns and moves
//!
//! A turn (`Turn`) answers an ask (`Ask`) after the journal so far; `specs/Answers` says which
//! answers an ask may have. `specs/Replies` tests that a journal's replies are the machine's; the
//! laws in `legal` say what follows from that test and from an answer. Here is no board: a worker,
//! and what holds of its rounds, needs only this.
//!
//! A round is described by one list of moves (`specs/Move`): its turns with their answers, and what
//! its driver did, in order. It says which moves may come one after another, and
//! what they saw and made of the history, `specs/Drive` what they did with the driver.
//! `moves` states what holds of the moves of every round, in the terms of `specs/Trace`. Whatever
//! the answers to turns, the moves are those of `specs/Move`. An answer of a wrong kind to a role's
//! turn counts as nothing to do, and one to a sweep as keeping the server.
//!
//! # Journals
//!
//! The journals that parties and their clouds drive, and what these say of the clouds' servers, are laws
//! alone. np_useful says when a journal was driven (`Driven`, and `DrivenBy` over any clouds). The laws
//! here say that rounds of all players drive one. If launchers may commit events that they chose on
//! an older state, it is one of `specs/Servers` (`PlannedDriven`, `PlannedBy`); the laws have both
//! cases, by a parameter `plans`. `specs/Servers` says who plays and what is known
//! of what they drive, `specs/Board` what a round of all players is, as lists of moves at one
//! history and without threads, `specs/Servers` what became of a driver's servers in it,
//! `specs/Board` which role its entries are of. `law` states that such a round continues a driven
//! journal, that each entry of a worker's round is of a role that the worker acts for, and why
//! servers left or stayed. np_rounds plays such rounds over threads.
//!
//! A report is the first one for its start, since a node's attempts only rise and its number is not
//! used again (`proofs/Records`), and since only the pool's own worker acts for its launcher.
//!
//! A driver may have room for so many servers, and only some lists of server numbers may be sound
//! for it (np_cloud). `specs/Hosting` says what holds of a whole journal that drivers carried:
//! after each tick the servers of a pool's nodes are sound for its driver, each server that a
//! report names is sound by itself, and a launch failed only after as many launched servers as
//! there is room for. `specs/Hosting` says which servers a pool's nodes have, and `specs/Drive`
//! what a journal reports of a pool's launches. `specs/Hosting` has what is kept from round to
//! round, and `law/hosted` states that rounds and ticks keep it, and that it says the above of the
//! journal in the end. The machine would accept no report of a launch that was reported
//! (`proofs/Reports`), so that all reports of a pool are those of its worker's round
//! (`proofs/Hosted`), and other workers change none of this (`proofs/Rounds`).
#![tactic(auto)]

mod act;
mod ask;
mod driver;
mod law;
mod legal;
mod moves;
mod next;
mod playing;
mod roles;
mod stage;
mod start;
mod sweep;
mod worker;

pub use ask::{Ask, Turn};
pub use law::{
    a_launch_that_was_begun_is_of_its_pool, a_round_is_driven, a_round_keeps_what_is_hosted,
    a_tick_after_a_round_is_driven, a_tick_keeps_what_is_hosted, drivers_begin_to_host,
    each_entry_is_of_its_makers_role, players_begin_with_the_empty_journal,
    servers_leave_with_a_cause, servers_stay_where_they_are_kept,
    unwanted_servers_go_in_a_whole_round, what_is_hosted_was_carried,
    what_planned_drivers_drove_was_driven_as_planned,
};
pub use legal::{
    a_beginning_of_a_legal_journal_is_legal, a_journal_that_runs_is_legal, a_legal_journal_goes_on,
    a_legal_journal_has_the_machines_replies, a_legal_journal_runs,
    a_recorded_sweep_is_answered_remove, a_sweep_keeps_what_is_wanted,
    a_turn_records_the_machines_reply,
};
pub use moves::{
    a_full_journal_ends_the_round, asks_are_in_order, asks_are_of_the_worker, removals_are_named,
    roles_take_their_turns, servers_leave_by_removals, starts_are_launched, starts_are_reported,
    turns_gain_their_entries,
};
pub use start::Start;
pub use worker::{RoundEnd, Worker};
