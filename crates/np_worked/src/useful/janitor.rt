//! A janitor's rows.

ghost use Rattle.np_config.specs.declared.row.FaultKind.TheVariants as kind;
ghost use Rattle.np_event.specs.declared.event.Event.TheVariants as ev;
ghost use Rattle.np_worked.specs.Lower.{IsUseful};
ghost use Rattle.np_worked.specs.Examples.{IsUseless, HasReplies, after_first, other_pool, left_alone_site};
ghost use Rattle.np_worked.specs.Jobs.{crashed_requester, declined_by_all, finished_by_the_janitor, plain_path, retries_spent, withdrawn_request};
ghost use Rattle.np_worked.specs.Nodes.{expiry_during_a_launch, freed_node, hold_age, ready_age, swept_servers};
ghost use Rattle.np_worked.specs.Shares.{paused_pool};
ghost use Rattle.np_worked.specs.Site.{session, node, job, request, janitor};

/// The machine's replies are those of the journals that are made for these rows.
pub fn janitors_journals_are_the_machines()
    ensures other_pool { HasReplies retries_spent.site other_pool }
    ensures left_alone { HasReplies (left_alone_site kind.Stop) finished_by_the_janitor.journal }
{}

/// A janitor opens a session if it has none.
pub fn a_janitor_opens_one_session()
    ensures first { IsUseful plain_path.site (after_first 10 plain_path.site plain_path.journal) (janitor 0) (ev.OpenSession (janitor 0)) }
    ensures second { IsUseless crashed_requester.site (after_first 17 crashed_requester.site crashed_requester.journal) (janitor 0) (ev.OpenSession (janitor 0)) }
{}

/// A janitor takes up a request that its own pool left pending.
pub fn a_janitor_locks_a_pending_request_of_its_pool()
    ensures own { IsUseful expiry_during_a_launch.site (after_first 10 expiry_during_a_launch.site expiry_during_a_launch.journal) (janitor 0) (ev.LockRequest (session 3) (request 200 0)) }
    ensures other { IsUseless retries_spent.site (after_first 11 retries_spent.site other_pool) (janitor 1) (ev.LockRequest (session 4) (request 200 0)) }
{}

/// It then gives the request back to all pools.
pub fn a_janitor_resets_a_request_of_its_pool()
    ensures own { IsUseful expiry_during_a_launch.site (after_first 11 expiry_during_a_launch.site expiry_during_a_launch.journal) (janitor 0) (ev.Reset (session 3) (request 200 0)) }
    ensures other { IsUseless retries_spent.site (after_first 12 retries_spent.site other_pool) (janitor 1) (ev.Reset (session 4) (request 200 0)) }
{}

/// A janitor unlocks a request that is no longer pending.
pub fn a_janitor_unlocks_a_request_that_it_gave_back()
    ensures given_back { IsUseful expiry_during_a_launch.site (after_first 12 expiry_during_a_launch.site expiry_during_a_launch.journal) (janitor 0) (ev.UnlockRequest (session 3) (request 200 0)) }
    ensures pending { IsUseless expiry_during_a_launch.site (after_first 11 expiry_during_a_launch.site expiry_during_a_launch.journal) (janitor 0) (ev.UnlockRequest (session 3) (request 200 0)) }
{}

/// A janitor locks a node of its pool that nobody has and that must be cleaned up.
pub fn a_janitor_locks_a_node_to_clean_up()
    ensures own { IsUseful expiry_during_a_launch.site (after_first 14 expiry_during_a_launch.site expiry_during_a_launch.journal) (janitor 0) (ev.LockNode (session 3) (node 0)) }
    ensures held { IsUseless crashed_requester.site (after_first 17 crashed_requester.site crashed_requester.journal) (janitor 0) (ev.LockNode (session 3) (node 0)) }
    ensures other { IsUseless retries_spent.site (after_first 11 retries_spent.site other_pool) (janitor 1) (ev.LockNode (session 4) (node 0)) }
    ensures wanted { IsUseless freed_node.site (after_first 12 freed_node.site freed_node.journal) (janitor 0) (ev.LockNode (session 3) (node 0)) }
{}

/// A janitor gives up a node of its pool.
pub fn a_janitor_deletes_a_node_of_its_pool()
    ensures own { IsUseful expiry_during_a_launch.site (after_first 15 expiry_during_a_launch.site expiry_during_a_launch.journal) (janitor 0) (ev.MarkDeleting (session 3) (node 0)) }
    ensures other { IsUseless retries_spent.site (after_first 13 retries_spent.site other_pool) (janitor 1) (ev.MarkDeleting (session 4) (node 0)) }
{}

/// It then removes the node's record.
pub fn a_janitor_removes_a_node_of_its_pool()
    ensures own { IsUseful expiry_during_a_launch.site (after_first 16 expiry_during_a_launch.site expiry_during_a_launch.journal) (janitor 0) (ev.Gone (session 3) (node 0)) }
    ensures other { IsUseless retries_spent.site (after_first 14 retries_spent.site other_pool) (janitor 1) (ev.Gone (session 4) (node 0)) }
{}

/// A janitor frees a ready node whose request is gone.
pub fn a_janitor_frees_a_node()
    ensures { IsUseful freed_node.site (after_first 15 freed_node.site freed_node.journal) (janitor 0) (ev.FreeNode (session 3) (node 0)) }
{}

/// A janitor unlocks a node that needs no cleaning: one that was freed, and one that is not old while
/// its pool is not paused.
pub fn a_janitor_unlocks_a_node_that_is_clean()
    ensures left_over { IsUseless withdrawn_request.site (after_first 14 withdrawn_request.site withdrawn_request.journal) (janitor 0) (ev.UnlockNode (session 3) (node 0)) }
    ensures freed { IsUseful withdrawn_request.site (after_first 16 withdrawn_request.site withdrawn_request.journal) (janitor 0) (ev.UnlockNode (session 3) (node 0)) }
    ensures ready { IsUseful ready_age.site (after_first 16 ready_age.site ready_age.journal) (janitor 0) (ev.UnlockNode (session 2) (node 0)) }
    ensures old_ready { IsUseless ready_age.site (after_first 18 ready_age.site ready_age.journal) (janitor 0) (ev.UnlockNode (session 2) (node 0)) }
    ensures hold { IsUseful hold_age.site (after_first 21 hold_age.site hold_age.journal) (janitor 0) (ev.UnlockNode (session 3) (node 0)) }
    ensures old_hold { IsUseless hold_age.site (after_first 22 hold_age.site hold_age.journal) (janitor 0) (ev.UnlockNode (session 3) (node 0)) }
    ensures not_paused { IsUseful paused_pool.site (after_first 16 paused_pool.site paused_pool.journal) (janitor 0) (ev.UnlockNode (session 2) (node 0)) }
    ensures paused { IsUseless paused_pool.site (after_first 17 paused_pool.site paused_pool.journal) (janitor 0) (ev.UnlockNode (session 2) (node 0)) }
{}

/// A janitor fails a request that every registered pool has declined.
pub fn a_janitor_fails_what_all_declined()
    ensures { IsUseful declined_by_all.site (after_first 13 declined_by_all.site declined_by_all.journal) (janitor 0) (ev.FailDeclined (session 3) (request 200 0)) }
{}

/// A janitor ends a job whose requester stopped for good, and no other.
pub fn a_janitor_finishes_for_who_stopped()
    ensures stopped { IsUseful (left_alone_site kind.Stop) (after_first 17 (left_alone_site kind.Stop) finished_by_the_janitor.journal) (janitor 0) (ev.Finish (session 3) (job 0)) }
    ensures crashed { IsUseless (left_alone_site kind.Crash) (after_first 17 (left_alone_site kind.Crash) finished_by_the_janitor.journal) (janitor 0) (ev.Finish (session 3) (job 0)) }
    ensures unplanned { IsUseless finished_by_the_janitor.site (after_first 17 finished_by_the_janitor.site finished_by_the_janitor.journal) (janitor 0) (ev.Finish (session 3) (job 0)) }
{}

/// A janitor gives back the handles of a job, once.
pub fn a_janitor_releases()
    ensures once { IsUseful crashed_requester.site (after_first 25 crashed_requester.site crashed_requester.journal) (janitor 0) (ev.Release (session 3) (job 0)) }
    ensures again { IsUseless crashed_requester.site (after_first 26 crashed_requester.site crashed_requester.journal) (janitor 0) (ev.Release (session 3) (job 0)) }
{}

/// A janitor's sweep has no row: only the journal says what it may sweep.
pub fn a_janitors_sweep_has_no_row()
    ensures { IsUseless swept_servers.site (after_first 11 swept_servers.site swept_servers.journal) (janitor 0) (ev.Sweep (session 3) (node 0) 2) }
{}
