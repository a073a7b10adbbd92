//! Laws on the moves of a round. Nothing here runs: each function states a theorem.

ghost use Rattle.std.specs.Prelude.{◌≡◌, ◌⊎◌, ◌+◌, ◌++◌, List, map, length, Contains};
ghost use Rattle.np_worker.specs.Lower.{Entry, Launch, PoolId, RequesterId, Server, Sight};
ghost use Rattle.np_worker.specs.Drive.{servers_after};
ghost use Rattle.np_worker.specs.Move.{Move, entries_of, launches_of, Phase, Work, Leads, OwesRemoval, ended, first_phase, of_pool, of_requester, of_reaper, rests, Walk};
ghost use Rattle.np_worker.specs.Trace.{AreAsksOf, AreInOrder, AreNamed, AreReported, EndsWhereFull, Gains, IsPastJanitor, IsPastLauncher, TookAll, WasFull, WasRemoved, is_janitor_act, is_launcher_act, is_lone_act, owed_tags, starts_of, tags_launched};

use crate::{Ask, Turn};
use np_desk::Turns;
use np_event::Entry;

/// The accepted starts are the launches, in this order and with these tags. Only if the moves end
/// between a start and its launch does the last start have none.
#[tactic(auto, using(crate::proofs::Steps::starts_launched, crate::proofs::Steps::tags_of_launches))]
pub fn starts_are_launched()
    ensures launched { (p q : Phase) (trace : List Move) → Leads p trace q →
        owed_tags p ++ starts_of trace ≡ tags_launched trace ++ owed_tags q }
    ensures tags { (trace : List Move) →
        tags_launched trace ≡ map (λ (l : Launch). l.tag) (launches_of trace) }
{}

/// After each accepted start the next move is its launch, and the one after that the turn that
/// reports it, for the same session, node and attempt and with what became of the launch. Only the
/// last start may lack them, if the moves end there.
#[tactic(auto, using(crate::proofs::Steps::are_reported))]
pub fn starts_are_reported()
    ensures { (p q : Phase) (trace : List Move) → Leads p trace q → AreReported trace q }
{}

/// A launcher's turns and reports come before a janitor's turns, and these before the sweeps.
#[tactic(auto, using(crate::proofs::Steps::in_order))]
pub fn asks_are_in_order()
    ensures { (p q : Phase) (trace : List Move) → Leads p trace q → AreInOrder 0 trace }
{}

/// A worker asks only what belongs to its roles.
#[tactic(auto, using(crate::proofs::Steps::asks_of))]
pub fn asks_are_of_the_worker()
    ensures { (w : Work) (q : Phase) (trace : List Move) → Leads (first_phase w) trace q →
        AreAsksOf w trace }
{}

/// The moves come to their end if and only if a turn found no room in the journal, and nothing
/// comes after that turn.
#[tactic(auto, using(crate::proofs::Steps::ends_full, crate::proofs::Steps::is_at_end, crate::proofs::Steps::ends_where_full))]
pub fn a_full_journal_ends_the_round()
    ensures full { (p q : Phase) (trace : List Move) → ¬ (p ≡ ended) → Leads p trace q →
        q ≡ ended → WasFull trace }
    ensures at_end { (p q : Phase) (trace : List Move) → Leads p trace q →
        WasFull trace → q ≡ ended }
    ensures last { (p q : Phase) (trace : List Move) → Leads p trace q → EndsWhereFull trace }
{}

/// A server that the driver had is there at the end, or its number was removed.
pub fn servers_leave_by_removals()
    ensures { (trace : List Move) (servers : List Server) (s : Server) → Contains servers s →
        (Contains (servers_after trace servers) s) ⊎ WasRemoved s.number trace }
{}

/// A server is removed right after a turn that named it: as that of a due node, or by the answer to
/// its own sweep that nobody wants it.
#[tactic(auto, using(crate::proofs::Steps::are_named))]
pub fn removals_are_named()
    ensures { (p q : Phase) (trace : List Move) → ¬ (OwesRemoval p) → Leads p trace q →
        AreNamed trace }
{}

/// If the round came past the launcher, the launcher took 16 turns that made an entry, or one in
/// which it had nothing to do. The same is true of the janitor, and of the one role of a
/// requester's worker or of the reaper's.
#[tactic(auto, using(crate::proofs::Steps::launcher_took, crate::proofs::Steps::janitor_took, crate::proofs::Steps::requester_took, crate::proofs::Steps::reaper_took))]
pub fn roles_take_their_turns()
    ensures launcher { (pool : PoolId) (q : Phase) (trace : List Move) →
        Leads (first_phase (of_pool pool)) trace q → IsPastLauncher q →
        TookAll is_launcher_act trace }
    ensures janitor { (pool : PoolId) (q : Phase) (trace : List Move) →
        Leads (first_phase (of_pool pool)) trace q → IsPastJanitor q →
        TookAll is_janitor_act trace }
    ensures requester { (r : RequesterId) (trace : List Move) →
        Leads (first_phase (of_requester r)) trace rests → TookAll is_lone_act trace }
    ensures reaper { (trace : List Move) →
        Leads (first_phase of_reaper) trace rests → TookAll is_lone_act trace }
{}

/// One's own places grew by the places of the entries of the moves, in order.
pub fn turns_gain_their_entries<T: Turns<Ask = Ask, Entry = Entry, Turn = Turn>>()
    ensures gained { (f : T.Fixed) (trace : List Move) (v w : Sight Entry) →
        Walk T.answers f trace v w → Gains v (entries_of trace) w }
    ensures counted { (f : T.Fixed) (trace : List Move) (v w : Sight Entry) →
        Walk T.answers f trace v w →
        length w.mine ≡ length v.mine + length (entries_of trace) }
{}
