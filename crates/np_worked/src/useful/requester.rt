//! A requester's rows.

ghost use Rattle.np_text.specs.declared.word.EndAs.TheVariants as end;
ghost use Rattle.np_event.specs.declared.event.Event.TheVariants as ev;
ghost use Rattle.np_worked.specs.Lower.{IsUseful};
ghost use Rattle.np_worked.specs.Examples.{IsUseless, HasReplies, after_first, window_site, moved_window};
ghost use Rattle.np_worked.specs.Jobs.{plain_path, served_job};
ghost use Rattle.np_worked.specs.Shares.{semaphores_all_or_none, short_quota};
ghost use Rattle.np_worked.specs.Site.{session, node, job, requester};

/// The machine's replies are those of the journal that is made for these rows.
pub fn requesters_journal_is_the_machines()
    ensures { HasReplies (window_site 1) moved_window }
{}

/// A requester opens a session if it has none.
pub fn a_requester_opens_one_session()
    ensures first { IsUseful plain_path.site (after_first 1 plain_path.site plain_path.journal) (requester 0) (ev.OpenSession (requester 0)) }
    ensures second { IsUseless plain_path.site (after_first 2 plain_path.site plain_path.journal) (requester 0) (ev.OpenSession (requester 0)) }
{}

/// A requester takes a job's semaphores before it asks for nodes. If a job asks for nodes first,
/// its semaphores are taken when the nodes are there.
pub fn a_requester_acquires()
    ensures before { IsUseful semaphores_all_or_none.site (after_first 1 semaphores_all_or_none.site semaphores_all_or_none.journal) (requester 0) (ev.Acquire (session 1) (job 0)) }
    ensures once { IsUseless semaphores_all_or_none.site (after_first 7 semaphores_all_or_none.site semaphores_all_or_none.journal) (requester 0) (ev.Acquire (session 1) (job 0)) }
    ensures resources_first { IsUseless short_quota.site (after_first 3 short_quota.site short_quota.journal) (requester 0) (ev.Acquire (session 2) (job 1)) }
    ensures asked { IsUseless short_quota.site (after_first 4 short_quota.site short_quota.journal) (requester 0) (ev.Acquire (session 2) (job 1)) }
    ensures fulfilled { IsUseful short_quota.site (after_first 10 short_quota.site short_quota.journal) (requester 0) (ev.Acquire (session 2) (job 1)) }
{}

/// A requester asks for the nodes of the jobs in its window.
pub fn a_requester_submits_in_its_window()
    ensures first { IsUseful (window_site 1) (after_first 1 (window_site 1) moved_window) (requester 0) (ev.Submit (session 1) (job 0)) }
    ensures beyond { IsUseless (window_site 1) (after_first 1 (window_site 1) moved_window) (requester 0) (ev.Submit (session 1) (job 1)) }
    ensures moved { IsUseful (window_site 1) (after_first 2 (window_site 1) moved_window) (requester 0) (ev.Submit (session 1) (job 1)) }
    ensures two { IsUseful (window_site 2) (after_first 1 (window_site 2) moved_window) (requester 0) (ev.Submit (session 1) (job 1)) }
{}

/// A requester joins the queue of each node of its fulfilled request, once.
pub fn a_requester_locks_its_nodes()
    ensures fulfilled { IsUseful plain_path.site (after_first 10 plain_path.site plain_path.journal) (requester 0) (ev.LockNode (session 2) (node 0)) }
    ensures pending { IsUseless plain_path.site (after_first 9 plain_path.site plain_path.journal) (requester 0) (ev.LockNode (session 2) (node 0)) }
    ensures queued { IsUseless served_job.site (after_first 11 served_job.site served_job.journal) (requester 0) (ev.LockNode (session 2) (node 0)) }
{}

/// A requester takes its nodes over.
pub fn a_requester_takes()
    ensures { IsUseful served_job.site (after_first 12 served_job.site served_job.journal) (requester 0) (ev.Take (session 2) (job 0)) }
{}

/// A requester ends its job.
pub fn a_requester_finishes()
    ensures { IsUseful served_job.site (after_first 14 served_job.site served_job.journal) (requester 0) (ev.Finish (session 2) (job 0)) }
{}

/// A requester leaves a node as its job says.
pub fn a_requester_leaves_a_node_as_its_job_says()
    ensures used { IsUseful served_job.site (after_first 13 served_job.site served_job.journal) (requester 0) (ev.EndNode (session 2) (node 0) end.Used) }
    ensures hold { IsUseless served_job.site (after_first 13 served_job.site served_job.journal) (requester 0) (ev.EndNode (session 2) (node 0) end.Hold) }
{}

/// A requester gives back a node that it neither uses nor is about to take.
pub fn a_requester_unlocks_a_node_that_it_has_done_with()
    ensures used { IsUseful served_job.site (after_first 14 served_job.site served_job.journal) (requester 0) (ev.UnlockNode (session 2) (node 0)) }
    ensures in_use { IsUseless served_job.site (after_first 13 served_job.site served_job.journal) (requester 0) (ev.UnlockNode (session 2) (node 0)) }
    ensures ready { IsUseless served_job.site (after_first 12 served_job.site served_job.journal) (requester 0) (ev.UnlockNode (session 2) (node 0)) }
{}

/// A requester gives back the handles of a job, once.
pub fn a_requester_releases()
    ensures once { IsUseful semaphores_all_or_none.site (after_first 5 semaphores_all_or_none.site semaphores_all_or_none.journal) (requester 0) (ev.Release (session 1) (job 2)) }
    ensures again { IsUseless semaphores_all_or_none.site (after_first 6 semaphores_all_or_none.site semaphores_all_or_none.journal) (requester 0) (ev.Release (session 1) (job 2)) }
{}

/// A requester never withdraws a job by itself.
pub fn a_requester_never_withdraws()
    ensures { IsUseless plain_path.site (after_first 3 plain_path.site plain_path.journal) (requester 0) (ev.Withdraw (session 2) (job 0)) }
{}

/// Nor does it change a job's place.
pub fn a_requester_never_revises()
    ensures { IsUseless plain_path.site (after_first 4 plain_path.site plain_path.journal) (requester 0) (ev.Revise (session 2) (job 0) 5) }
{}
