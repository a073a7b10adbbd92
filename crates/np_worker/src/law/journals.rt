//! Driven journals.

ghost use Rattle.std.specs.Prelude.{◌≡◌, ◌≤◌, List, [], ◌∷◌, ◌++◌, map, length, All, Bool, Some, false};
ghost use Rattle.np_worker.specs.Lower.{ArePlanned, Configuration, Entry, Runs, after};
ghost use Rattle.np_event.specs.declared.event.Event.TheVariants as ev;
ghost use Rattle.np_worker.specs.Prelude.{Driven, DrivenBy, Driving, is_tick};
ghost use Rattle.np_worker.specs.Servers.{DrivenAs, PlannedBy, PlannedDriven, AreNumbered, HaveDrivenAs, Player, WasAnswered, drivings_of};
ghost use Rattle.np_worker.specs.Board.{IsRound};

/// Before the first entry nothing was driven, and players without servers have none that was not
/// named.
#[tactic(auto, using(crate::proofs::Journals::driven_laws))]
pub fn players_begin_with_the_empty_journal()
    ensures { (plans : Bool) (c : Configuration) (players : List Player) → AreNumbered 0 players →
        All (λ (d : Driving). d.facts.servers ≡ Some []) (drivings_of players) →
        HaveDrivenAs plans c [] players }
{}

/// After a round of all players the journal is driven. If no player was cut off, each server that
/// is left was named in it, so the next round may follow. None of the entries is a tick.
pub fn a_round_is_driven()
    ensures driven { (plans : Bool) (c : Configuration) (history later : List Entry)
        (players now : List Player) (is_cut : Bool) → IsRound plans c history later players now is_cut →
        Runs c later (after c later) → HaveDrivenAs plans c history players →
        DrivenAs (WasAnswered (drivings_of now)) plans c later }
    ensures whole { (plans : Bool) (c : Configuration) (history later : List Entry)
        (players now : List Player) → IsRound plans c history later players now false → Runs c later (after c later) →
        HaveDrivenAs plans c history players → HaveDrivenAs plans c later now }
    ensures numbered { (plans : Bool) (c : Configuration) (history later : List Entry)
        (players now : List Player) (is_cut : Bool) →
        IsRound plans c history later players now is_cut → AreNumbered 0 players →
        AreNumbered 0 now }
    ensures no_tick { (plans : Bool) (c : Configuration) (history later : List Entry)
        (players now : List Player) (is_cut : Bool) → IsRound plans c history later players now is_cut →
        Runs c later (after c later) → HaveDrivenAs plans c history players →
        (before rest : List Entry) (e : Entry) → later ≡ before ++ e ∷ rest →
        length history ≤ length before → is_tick e.event ≡ false }
{}

/// A tick may follow an entry that is not a tick.
pub fn a_tick_after_a_round_is_driven()
    ensures { (plans : Bool) (c : Configuration) (journal : List Entry) (d e : Entry) (players : List Player) →
        HaveDrivenAs plans c (journal ++ d ∷ []) players → is_tick d.event ≡ false →
        e.event ≡ ev.Tick → HaveDrivenAs plans c ((journal ++ d ∷ []) ++ e ∷ []) players }
{}

/// If drivers plan as the configuration does, what they drove was driven as planned, with planned
/// events or without.
#[tactic(auto, using(crate::proofs::Journals::driven_laws))]
pub fn what_planned_drivers_drove_was_driven_as_planned()
    ensures driven { (c : Configuration) (drivings : List Driving) (journal : List Entry) →
        ArePlanned c 0 (map (λ (d : Driving). d.plan) drivings) →
        DrivenBy (WasAnswered drivings) c journal → Driven c journal }
    ensures planned { (c : Configuration) (drivings : List Driving) (journal : List Entry) →
        ArePlanned c 0 (map (λ (d : Driving). d.plan) drivings) →
        PlannedBy (WasAnswered drivings) c journal → PlannedDriven c journal }
{}
