//! What a journal and its drivers say of one another.

ghost use Rattle.std.specs.Prelude.{◌≡◌, ℕ, List, [], ◌∷◌, ◌++◌, Bool, true, false};
ghost use Rattle.np_worker.specs.Lower.{BeginsLaunch, Configuration, Entry, NodeId, PoolId, Runs, SessionId, SomeTurn, after, turns};
ghost use Rattle.np_event.specs.declared.event.Event.TheVariants as ev;
ghost use Rattle.np_worker.specs.Servers.{HaveDriven, Player, drivings_of};
ghost use Rattle.np_worker.specs.Board.{IsRound};
ghost use Rattle.np_worker.specs.Hosting.{AreCarried, FailOnlyFull, BeginAfter, Earlier, HaveHosted, HaveSoundness, IsHosted};
ghost use Rattle.np_worker.specs.Drive.{was_node_of};

/// A node whose launch was begun for a pool, as a driven journal has it, was of the pool: a report on
/// it is one of the pool's.
#[tactic(auto, using(crate::proofs::Records::begun_of))]
pub fn a_launch_that_was_begun_is_of_its_pool()
    ensures { (c : Configuration) (journal : List Entry) (session : SessionId) (n : NodeId)
        (attempt start : ℕ) (p : PoolId) →
        SomeTurn (BeginsLaunch session n attempt start p) (turns c journal) →
        was_node_of p n (turns c journal) ≡ true }
{}

/// Drivers that report their answers and that they have no servers carry the empty journal.
pub fn drivers_begin_to_host()
    ensures { (earlier : Earlier) (c : Configuration) (players : List Player) →
        HaveDriven c [] players → BeginAfter earlier (drivings_of players) →
        HaveHosted earlier c [] players }
{}

/// After a round of all players the journal is carried. If no player was cut off, the next round
/// may follow.
pub fn a_round_keeps_what_is_hosted()
    ensures { (earlier : Earlier) (c : Configuration) (history later : List Entry)
        (players now : List Player) (is_cut : Bool) →
        IsRound false c history later players now is_cut → Runs c later (after c later) →
        HaveHosted earlier c history players → IsHosted earlier c is_cut later now }
{}

/// After a tick the servers of nodes that are up are sound for their pools' drivers, and the next
/// round may follow.
pub fn a_tick_keeps_what_is_hosted()
    ensures { (earlier : Earlier) (c : Configuration) (journal : List Entry) (e : Entry)
        (players : List Player) → e.event ≡ ev.Tick → HaveDriven c (journal ++ e ∷ []) players →
        HaveSoundness (drivings_of players) → HaveHosted earlier c journal players →
        HaveHosted earlier c (journal ++ e ∷ []) players }
{}

/// In the end the drivers carried the journal, and if they had answered no launch before, launches
/// failed only where a driver was full.
#[tactic(auto, using(crate::proofs::Hosted::hosted_laws))]
pub fn what_is_hosted_was_carried()
    ensures carried { (earlier : Earlier) (c : Configuration) (full : Bool) (journal : List Entry)
        (players : List Player) → IsHosted earlier c full journal players →
        AreCarried c journal (drivings_of players) }
    ensures failed { (c : Configuration) (full : Bool) (journal : List Entry)
        (players : List Player) → IsHosted (λ p. 0) c full journal players →
        FailOnlyFull c journal (drivings_of players) }
{}
