//! What the properties of journals and the records of a state say. The live holder and the records
//! are shown on worked journals; each other property is refuted on a made-up journal or turn.

ghost use Rattle.std.specs.Prelude.{◌≡◌, None, Some, [], ◌∷◌, take};
ghost use Rattle.np_event.specs.declared.event.Outcome.TheVariants as outcome;
ghost use Rattle.np_worked.specs.Lower.{Caused, CausedFrom, Fenced, IsFenced, IsLiveHolder, IsLiveRequestHolder, Kept, LosesNothing, OneHolder, RemovesNode, Safe, outcome_of};
ghost use Rattle.np_worked.specs.Jobs.{crashed_requester, never_fits, plain_path, reset_request, retries_spent};
ghost use Rattle.np_worked.specs.Nodes.{aged_node, queue_after_an_expiry};
ghost use Rattle.np_worked.specs.Examples.{pool_after, since_after, strikes_after};
ghost use Rattle.np_worked.specs.WorkedTree.{deleting_reset, deleting_tick, false_decline, losing_expiry, lost_node, standing_gone, two_holders, unsaid_decline};
ghost use Rattle.np_worked.specs.Site.{janitor, launcher, node, pool, request, requester, session};

/// When the first in a node's queue expires, the next is its live holder, and the third is not.
pub fn the_next_in_the_queue_is_the_live_holder()
    ensures before { IsLiveHolder plain_path.site plain_path.journal (session 1) (node 0) }
    ensures expired { IsLiveHolder queue_after_an_expiry.site queue_after_an_expiry.journal (session 1) (node 0) → ⊥ }
    ensures next { IsLiveHolder queue_after_an_expiry.site queue_after_an_expiry.journal (session 2) (node 0) }
    ensures queued { IsLiveHolder queue_after_an_expiry.site queue_after_an_expiry.journal (session 3) (node 0) → ⊥ }
{}

/// A launcher holds its request until it expires.
pub fn a_request_is_held_until_its_launcher_expires()
    ensures before { IsLiveRequestHolder plain_path.site plain_path.journal (session 1) (request 200 0) }
    ensures expired { IsLiveRequestHolder queue_after_an_expiry.site queue_after_an_expiry.journal (session 1) (request 200 0) → ⊥ }
{}

/// Two replies that say that different sessions hold the same node are not safe.
pub fn two_holders_are_not_safe()
    ensures { Safe plain_path.site two_holders → ⊥ }
{}

/// A node that was made, whose record is gone without an event, is not kept.
pub fn a_lost_node_is_not_kept()
    ensures { Kept plain_path.site lost_node → ⊥ }
{}

/// A failed request has no cause if the decline that failed it was not accepted.
pub fn a_failure_needs_its_decline()
    ensures { Caused never_fits.site unsaid_decline → ⊥ }
{}

/// Nor does it if the reason of the decline that failed it is not true.
pub fn a_false_reason_is_no_cause()
    ensures { CausedFrom plain_path.site [] (false_decline ∷ []) → ⊥ }
{}

/// An expiry may not lose a request.
pub fn an_expiry_may_not_lose_a_request()
    ensures { LosesNothing losing_expiry → ⊥ }
{}

/// A tick may not change a node that a session holds.
pub fn a_tick_may_not_change_a_node()
    ensures { IsFenced deleting_tick → ⊥ }
{}

/// Nor may a reset delete a node, even if its maker holds it.
pub fn a_reset_may_not_delete_a_node()
    ensures { IsFenced deleting_reset → ⊥ }
{}

/// A node that still has its record was not removed.
pub fn a_removed_node_is_gone()
    ensures { RemovesNode (node 0) standing_gone → ⊥ }
{}

/// A node's age counts from when it was made, launched, taken and ended.
pub fn a_nodes_age_counts_from_its_last_change()
    ensures made { since_after aged_node.site (take 9 aged_node.journal) ≡ Some 1 }
    ensures launched { since_after aged_node.site (take 14 aged_node.journal) ≡ Some 2 }
    ensures taken { since_after aged_node.site (take 17 aged_node.journal) ≡ Some 3 }
    ensures ended { since_after aged_node.site aged_node.journal ≡ Some 4 }
{}

/// A request that its pool declined, or that the janitor gave back, has no pool.
pub fn a_request_that_was_given_up_has_no_pool()
    ensures served { pool_after retries_spent.site (take 16 retries_spent.journal) ≡ Some (Some (pool 0)) }
    ensures declined { pool_after retries_spent.site (take 17 retries_spent.journal) ≡ Some None }
    ensures reset { pool_after reset_request.site (take 15 reset_request.journal) ≡ Some None }
{}

/// A lost session is one strike for its role, even if it stops first and then expires.
pub fn a_lost_session_is_one_strike()
    ensures expired { strikes_after (launcher 0) queue_after_an_expiry.site queue_after_an_expiry.journal ≡ Some 1 }
    ensures crashed { strikes_after (requester 0) crashed_requester.site crashed_requester.journal ≡ Some 1 }
    ensures other { strikes_after (janitor 0) crashed_requester.site crashed_requester.journal ≡ Some 0 }
{}

/// The simulated cloud fails the starts that the configuration names, and no other.
pub fn planned_starts_fail()
    ensures planned { outcome_of retries_spent.site (pool 0) 1 ≡ outcome.Failed }
    ensures other { outcome_of retries_spent.site (pool 1) 4 ≡ outcome.Launched 4 }
{}
