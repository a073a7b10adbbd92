//! The servers of a pool's driver.

ghost use Rattle.std.specs.Prelude.{Bool, ◌≡◌, ◌⊎◌, List, All, Contains};
ghost use Rattle.np_worker.specs.Lower.{Configuration, Entry, PoolId};
ghost use Rattle.np_worker.specs.Prelude.{Driving, Move, Server, WasKept, ended, of_pool};
ghost use Rattle.np_worker.specs.Servers.{DrivenAs, Player, WasAnswered, HasServers, IsOfRound, IsOnlyNodeOfItsNumber, IsOnlyOfItsNumber, IsSweptAfter, KeepsJanitor, LeftWithCause, StaysKept, WasDue, WasUnwanted};
ghost use Rattle.np_worker.specs.Board.{PlayerEnd, PlaysFrom};

/// A server that a pool's driver had before the round or launched in it, and that it no longer has,
/// left with a cause. Either a node of the pool was due with a server of its number at some time of
/// the round, or a server of its number that the driver had in the round was swept, and is swept
/// after all that was seen. If no other server of the round has its number, it is itself swept; if
/// no other node of the pool has a server of that number, the node is its own.
#[tactic(auto, using(crate::proofs::Leaving::own_pair, crate::proofs::Leaving::own_node))]
pub fn servers_leave_with_a_cause()
    ensures cause { (plans : Bool) (c : Configuration) (history : List Entry) (player : Player) (end : PlayerEnd)
        (pool : PoolId) (before now : List Server) (plays : PlaysFrom plans c history player end) →
        player.work ≡ of_pool pool → HasServers player before → HasServers end.player now →
        (server : Server) → IsOfRound plays.trace before server → ¬ (Contains now server) →
        LeftWithCause c history end.sight.seen pool plays.trace before server }
    ensures own_pair { (c : Configuration) (history seen : List Entry) (pool : PoolId)
        (trace : List Move) (servers : List Server) (server : Server) →
        LeftWithCause c history seen pool trace servers server →
        IsOnlyOfItsNumber trace servers server →
        WasDue c history seen pool server.number ⊎ IsSweptAfter c seen server }
    ensures own_node { (c : Configuration) (history seen : List Entry) (pool : PoolId)
        (server : Server) → IsOnlyNodeOfItsNumber c history seen pool server →
        (due : WasDue c history seen pool server.number) → due.node ≡ server.tag.node }
{}

/// Each server that a round asked about and kept stays kept: unless the journal was full, there is
/// a time of the round at which the board keeps it, and from then on the round made no entries but
/// sweeps.
pub fn servers_stay_where_they_are_kept()
    ensures { (plans : Bool) (c : Configuration) (history : List Entry) (player : Player) (end : PlayerEnd)
        (pool : PoolId) (servers : List Server) (plays : PlaysFrom plans c history player end) →
        ¬ (end.phase ≡ ended) → All (WasKept pool plays.trace) servers →
        All (StaysKept c history end.sight pool) servers }
{}

/// A server that nobody wants goes: if it was named, and no record wanted it at some time before
/// the round, it is not among the servers that a round of its pool asked about and kept, unless the
/// pool had no janitor at some time of the round. So a server whose removal failed after its sweep
/// is gone after the next such round.
pub fn unwanted_servers_go_in_a_whole_round()
    ensures { (plans : Bool) (c : Configuration) (drivings : List Driving) (history : List Entry)
        (player : Player) (end : PlayerEnd) (pool : PoolId) (servers : List Server)
        (plays : PlaysFrom plans c history player end) →
        DrivenAs (WasAnswered drivings) plans c history →
        ¬ (end.phase ≡ ended) → All (WasKept pool plays.trace) servers →
        KeepsJanitor c history end.sight.seen pool →
        (server : Server) → WasUnwanted c history server → ¬ (Contains servers server) }
{}
