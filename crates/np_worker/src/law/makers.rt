//! Of which role entries are.

ghost use Rattle.std.specs.Prelude.{List, ℕ, Bool, Contains};
ghost use Rattle.np_worker.specs.Lower.{Configuration, Entry};
ghost use Rattle.np_worker.specs.Board.{IsOfWorker, IsRound, PlayerEnd, PlaysFrom};
ghost use Rattle.np_worker.specs.Servers.{Player};

/// Each entry that a worker's round makes is of a role that the worker acts for: the session that
/// makes it is of the role, a session that it opens is of the role, and only the reaper crashes and
/// expires sessions. The same holds for each player of a round of all players.
pub fn each_entry_is_of_its_makers_role()
    ensures worker { (plans : Bool) (c : Configuration) (history : List Entry)
        (player : Player) (end : PlayerEnd) → PlaysFrom plans c history player end →
        (x : ℕ) → Contains end.sight.mine x → IsOfWorker c end.sight.seen player.work x }
    ensures round { (plans : Bool) (c : Configuration) (history later : List Entry)
        (players now : List Player) (is_cut : Bool) (round : IsRound plans c history later players now is_cut) →
        (end : PlayerEnd) → Contains round.ends end → (x : ℕ) → Contains end.sight.mine x →
        IsOfWorker c end.sight.seen end.player.work x }
{}
