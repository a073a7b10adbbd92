//! Worked cases: states of worked journals, with facts that explain why a job waits there, and
//! facts that are not true of them. Each function is a theorem with an empty body.

ghost use Rattle.np_text.specs.declared.word.NodeState.TheVariants as node_state;
ghost use Rattle.np_text.specs.declared.word.Reason.TheVariants as reason;
ghost use Rattle.np_config.specs.declared.row.FaultKind.TheVariants as kind;
ghost use Rattle.np_causes.specs.Lower.{after_first, crashed_requester, expiry_during_a_launch, fail_declined, job, label, launcher, node, paused_pool, plain_path, pool, request, requester, retries_spent, semaphore, semaphores_all_or_none, session, struck, struck_site, tenant, tenant_limit, two_jobs, window_site};
ghost use Rattle.np_causes.specs.Fact.{IsTrueOf};
ghost use Rattle.np_causes.specs.Worked.{FalseAfter, TrueAfter, behind_another, first_request, full_pool, full_semaphore, full_tenant, full_window, lost_launcher, nobody_registered, not_taken, second_launch, silent_requester, taken_up, used};
ghost use Rattle.np_causes.specs.declared.fact.Fact.TheVariants as fact;

/// A semaphore that the job lacks is full: the first such one, and its holder has all that it
/// needs.
pub fn a_semaphore_is_full()
    ensures chain { TrueAfter 8 semaphores_all_or_none.site semaphores_all_or_none.journal full_semaphore }
    ensures other { FalseAfter 8 semaphores_all_or_none.site semaphores_all_or_none.journal
        (fact.Full (job 1) (semaphore 0)) }
    ensures holder { FalseAfter 8 semaphores_all_or_none.site semaphores_all_or_none.journal
        (fact.HasHandle (semaphore 1) (job 1)) }
{}

/// The job is past its requester's window, and in a wider one it isn't.
pub fn a_window_is_full()
    ensures chain { TrueAfter 4 (window_site 1) two_jobs full_window }
    ensures wider { FalseAfter 4 (window_site 2) two_jobs (fact.PastWindow (job 1) (job 0)) }
{}

/// A requester has no current session once it crashed.
pub fn a_requester_is_gone()
    ensures chain { TrueAfter 15 crashed_requester.site crashed_requester.journal silent_requester }
    ensures before { FalseAfter 14 crashed_requester.site crashed_requester.journal
        (fact.MayOpen (requester 0)) }
{}

/// A launcher whose last fault was a stop begins no other session, and after a crash it does.
pub fn a_launcher_stopped()
    ensures stopped { IsTrueOf (struck_site kind.Stop) (after_first 4 (struck_site kind.Stop) struck)
        (fact.Stopped (launcher 0)) }
    ensures open { FalseAfter 4 (struck_site kind.Stop) struck (fact.MayOpen (launcher 0)) }
    ensures crashed { FalseAfter 4 (struck_site kind.Crash) struck (fact.Stopped (launcher 0)) }
{}

/// A request is open until a launcher takes it up.
pub fn a_request_is_taken_up()
    ensures open { TrueAfter 4 plain_path.site plain_path.journal first_request }
    ensures taken_up { TrueAfter 5 plain_path.site plain_path.journal taken_up }
    ensures closed { FalseAfter 5 plain_path.site plain_path.journal
        (fact.First (request 200 0) (pool 0)) }
{}

/// One pool declined the request, and nobody is registered for the other.
pub fn nobody_is_registered()
    ensures chain { TrueAfter 14 fail_declined.site fail_declined.journal nobody_registered }
    ensures reason { FalseAfter 14 fail_declined.site fail_declined.journal
        (fact.Declined (request 200 0) (pool 0) reason.NeverFits) }
    ensures pool { FalseAfter 14 fail_declined.site fail_declined.journal
        (fact.Declined (request 200 0) (pool 1) (reason.NoLabel (label 0))) }
{}

/// The tenant has no room, and other requests come before the last.
pub fn a_tenant_has_no_room()
    ensures chain { TrueAfter 10 tenant_limit.site tenant_limit.journal full_tenant }
    ensures behind { TrueAfter 10 tenant_limit.site tenant_limit.journal behind_another }
    ensures used { FalseAfter 10 tenant_limit.site tenant_limit.journal
        (fact.TenantUses (tenant 1) (used 1 1024)) }
    ensures another { FalseAfter 10 tenant_limit.site tenant_limit.journal
        (fact.Blocked (request 200 2) (pool 0) (tenant 0)) }
{}

/// The pool has no room for a node of the next label.
pub fn a_pool_has_no_room()
    ensures chain { TrueAfter 17 paused_pool.site paused_pool.journal full_pool }
    ensures later { FalseAfter 22 paused_pool.site paused_pool.journal
        (fact.NoRoom (request 200 1) (pool 0) (label 1)) }
{}

/// The request has its node, which is launched again.
pub fn a_node_is_launched_again()
    ensures chain { TrueAfter 12 retries_spent.site retries_spent.journal second_launch }
    ensures ready { FalseAfter 12 retries_spent.site retries_spent.journal
        (fact.Stands (node 0) node_state.Ready 2) }
    ensures first { FalseAfter 12 retries_spent.site retries_spent.journal
        (fact.Stands (node 0) node_state.Building 1) }
{}

/// Nobody holds a request that is pending.
pub fn a_launcher_is_lost()
    ensures chain { TrueAfter 9 expiry_during_a_launch.site expiry_during_a_launch.journal
        lost_launcher }
    ensures served { FalseAfter 9 expiry_during_a_launch.site expiry_during_a_launch.journal
        (fact.Served (request 200 0) (session 1)) }
{}

/// The request is fulfilled, and the requester has yet to take its node.
pub fn a_request_is_not_taken()
    ensures chain { TrueAfter 10 plain_path.site plain_path.journal not_taken }
    ensures holder { FalseAfter 10 plain_path.site plain_path.journal
        (fact.Held (node 0) (session 2)) }
{}
