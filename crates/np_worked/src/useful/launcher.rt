//! A launcher's rows.

ghost use Rattle.std.specs.Prelude.{◌≡◌, Some, true, false};
ghost use Rattle.np_text.specs.declared.word.Reason.TheVariants as reason;
ghost use Rattle.np_event.specs.declared.event.Event.TheVariants as ev;
ghost use Rattle.np_event.specs.declared.event.Outcome.TheVariants as outcome;
ghost use Rattle.np_worked.specs.Lower.{IsUseful, is_maker_of};
ghost use Rattle.np_worked.specs.Examples.{IsUseless, HasReplies, after_first, two_sessions, unoffered_site, unoffered, small_site, small, failing_site, failing, window_site, concurrency_site, two_jobs, waiting_site, waiting};
ghost use Rattle.np_worked.specs.Jobs.{fail_declined, plain_path, withdrawn_request};
ghost use Rattle.np_worked.specs.Shares.{half_built_requests, tenant_limit};
ghost use Rattle.np_worked.specs.Site.{session, node, label, request, launcher};

/// The machine's replies are those of the journals that are made for these rows.
pub fn launchers_journals_are_the_machines()
    ensures two_sessions { HasReplies plain_path.site two_sessions }
    ensures unoffered { HasReplies unoffered_site unoffered }
    ensures small { HasReplies small_site small }
    ensures failing { HasReplies failing_site failing }
    ensures two_jobs { HasReplies (window_site 20) two_jobs }
    ensures waiting { HasReplies waiting_site waiting }
{}

/// A launcher opens a session if it has none.
pub fn a_launcher_opens_one_session()
    ensures first { IsUseful plain_path.site (after_first 0 plain_path.site plain_path.journal) (launcher 0) (ev.OpenSession (launcher 0)) }
    ensures second { IsUseless plain_path.site (after_first 1 plain_path.site plain_path.journal) (launcher 0) (ev.OpenSession (launcher 0)) }
{}

/// A launcher registers.
pub fn a_launcher_registers()
    ensures { IsUseful plain_path.site (after_first 2 plain_path.site plain_path.journal) (launcher 0) (ev.Register (session 1)) }
{}

/// The newest session speaks for its role; when it is mute, the one before it does again.
pub fn the_newest_session_is_current()
    ensures older { is_maker_of (launcher 0) (after_first 10 plain_path.site two_sessions) (Some (session 1)) ≡ false }
    ensures newer { is_maker_of (launcher 0) (after_first 11 plain_path.site two_sessions) (Some (session 3)) ≡ false }
    ensures again { is_maker_of (launcher 0) (after_first 11 plain_path.site two_sessions) (Some (session 1)) ≡ true }
{}

/// A launcher that is not registered does nothing else.
pub fn a_launcher_registers_first()
    ensures { IsUseless plain_path.site (after_first 10 plain_path.site two_sessions) (launcher 0) (ev.Start (session 3) (node 0)) }
{}

/// A launcher gives back a request that it is done with: fulfilled, declined, or one whose tenant
/// has no room.
pub fn a_launcher_unlocks_what_it_has_done_with()
    ensures fulfilled { IsUseful plain_path.site (after_first 10 plain_path.site plain_path.journal) (launcher 0) (ev.UnlockRequest (session 1) (request 200 0)) }
    ensures declined { IsUseful fail_declined.site (after_first 9 fail_declined.site fail_declined.journal) (launcher 0) (ev.UnlockRequest (session 1) (request 200 0)) }
    ensures blocked { IsUseful half_built_requests.site (after_first 8 half_built_requests.site half_built_requests.journal) (launcher 0) (ev.UnlockRequest (session 1) (request 200 1)) }
    ensures not_blocked { IsUseless half_built_requests.site (after_first 7 half_built_requests.site half_built_requests.journal) (launcher 0) (ev.UnlockRequest (session 1) (request 200 1)) }
    ensures requested { IsUseless plain_path.site (after_first 5 plain_path.site plain_path.journal) (launcher 0) (ev.UnlockRequest (session 1) (request 200 0)) }
{}

/// A launcher gives back a node that it neither launches nor uses to serve a request.
pub fn a_launcher_unlocks_a_node_that_it_has_done_with()
    ensures fulfilled { IsUseful plain_path.site (after_first 10 plain_path.site plain_path.journal) (launcher 0) (ev.UnlockNode (session 1) (node 0)) }
    ensures pending { IsUseless plain_path.site (after_first 9 plain_path.site plain_path.journal) (launcher 0) (ev.UnlockNode (session 1) (node 0)) }
    ensures in_flight { IsUseless withdrawn_request.site (after_first 9 withdrawn_request.site withdrawn_request.journal) (launcher 0) (ev.UnlockNode (session 1) (node 0)) }
    ensures launched { IsUseful withdrawn_request.site (after_first 10 withdrawn_request.site withdrawn_request.journal) (launcher 0) (ev.UnlockNode (session 1) (node 0)) }
{}

/// A launcher accepts what it may.
pub fn a_launcher_accepts()
    ensures { IsUseful plain_path.site (after_first 5 plain_path.site plain_path.journal) (launcher 0) (ev.Accept (session 1) (request 200 0)) }
{}

/// A launcher declines for the first of its reasons.
pub fn a_launcher_declines_for_its_first_reason()
    ensures no_label { IsUseful unoffered_site (after_first 7 unoffered_site unoffered) (launcher 0) (ev.Decline (session 1) (request 200 0) (reason.NoLabel (label 0))) }
    ensures next_label { IsUseless unoffered_site (after_first 7 unoffered_site unoffered) (launcher 0) (ev.Decline (session 1) (request 200 0) (reason.NoLabel (label 2))) }
    ensures never_fits { IsUseful small_site (after_first 13 small_site small) (launcher 0) (ev.Decline (session 1) (request 200 3) reason.NeverFits) }
    ensures then_the_tenants { IsUseless small_site (after_first 13 small_site small) (launcher 0) (ev.Decline (session 1) (request 200 3) reason.TenantNeverFits) }
    ensures tenant_never_fits { IsUseful tenant_limit.site (after_first 13 tenant_limit.site tenant_limit.journal) (launcher 0) (ev.Decline (session 1) (request 200 3) reason.TenantNeverFits) }
    ensures spent { IsUseful failing_site (after_first 18 failing_site failing) (launcher 0) (ev.Decline (session 1) (request 200 1) (reason.Spent (node 1))) }
{}

/// A launcher takes a ready node, unless the request's launches failed.
pub fn a_launcher_takes_a_ready_node()
    ensures ready { IsUseful failing_site (after_first 16 failing_site failing) (launcher 0) (ev.TakeReady (session 1) (request 200 1) (node 0)) }
    ensures failed { IsUseless failing_site (after_first 18 failing_site failing) (launcher 0) (ev.TakeReady (session 1) (request 200 1) (node 0)) }
{}

/// A launcher makes a node if it may take none, unless the request's launches failed.
pub fn a_launcher_creates_a_node()
    ensures none_ready { IsUseful failing_site (after_first 14 failing_site failing) (launcher 0) (ev.Create (session 1) (request 200 1)) }
    ensures ready { IsUseless failing_site (after_first 16 failing_site failing) (launcher 0) (ev.Create (session 1) (request 200 1)) }
    ensures failed { IsUseless failing_site (after_first 18 failing_site failing) (launcher 0) (ev.Create (session 1) (request 200 1)) }
{}

/// A launcher starts the nodes of a request that it serves, unless one of them failed.
pub fn a_launcher_starts_a_node()
    ensures pending { IsUseful failing_site (after_first 17 failing_site failing) (launcher 0) (ev.Start (session 1) (node 2)) }
    ensures failed { IsUseless failing_site (after_first 18 failing_site failing) (launcher 0) (ev.Start (session 1) (node 2)) }
{}

/// A launcher reports what the simulated cloud made of the start.
pub fn a_launcher_reports_what_was_planned()
    ensures launched { IsUseful plain_path.site (after_first 8 plain_path.site plain_path.journal) (launcher 0) (ev.Done (session 1) (node 0) 1 (outcome.Launched 1)) }
    ensures not_failed { IsUseless plain_path.site (after_first 8 plain_path.site plain_path.journal) (launcher 0) (ev.Done (session 1) (node 0) 1 outcome.Failed) }
    ensures other_server { IsUseless plain_path.site (after_first 8 plain_path.site plain_path.journal) (launcher 0) (ev.Done (session 1) (node 0) 1 (outcome.Launched 2)) }
    ensures failed { IsUseful failing_site (after_first 17 failing_site failing) (launcher 0) (ev.Done (session 1) (node 1) 1 outcome.Failed) }
    ensures not_launched { IsUseless failing_site (after_first 17 failing_site failing) (launcher 0) (ev.Done (session 1) (node 1) 1 (outcome.Launched 2)) }
{}

/// A launcher hands a complete request over.
pub fn a_launcher_fulfils()
    ensures { IsUseful plain_path.site (after_first 9 plain_path.site plain_path.journal) (launcher 0) (ev.Fulfil (session 1) (request 200 0)) }
{}

/// A launcher takes up the next request when each one before it is complete, and its provider's
/// launchers work on fewer than they may.
pub fn a_launcher_takes_up_one_request_after_another()
    ensures first { IsUseful (window_site 20) (after_first 5 (window_site 20) two_jobs) (launcher 0) (ev.LockRequest (session 1) (request 200 0)) }
    ensures one_in_hand { IsUseless (window_site 20) (after_first 6 (window_site 20) two_jobs) (launcher 0) (ev.LockRequest (session 1) (request 200 1)) }
    ensures one_under_way { IsUseless (window_site 20) (after_first 7 (window_site 20) two_jobs) (launcher 0) (ev.LockRequest (session 1) (request 200 1)) }
    ensures one_complete { IsUseful (window_site 20) (after_first 8 (window_site 20) two_jobs) (launcher 0) (ev.LockRequest (session 1) (request 200 1)) }
    ensures one_at_most { IsUseless (concurrency_site 1) (after_first 8 (concurrency_site 1) two_jobs) (launcher 0) (ev.LockRequest (session 1) (request 200 1)) }
    ensures two_at_most { IsUseful (concurrency_site 2) (after_first 8 (concurrency_site 2) two_jobs) (launcher 0) (ev.LockRequest (session 1) (request 200 1)) }
{}

/// A launcher keeps nodes ready while its pool is not paused.
pub fn a_launcher_keeps_nodes_ready()
    ensures not_paused { IsUseful waiting_site (after_first 9 waiting_site waiting) (launcher 0) (ev.MinReady (session 1) (label 0)) }
    ensures paused { IsUseless waiting_site (after_first 10 waiting_site waiting) (launcher 0) (ev.MinReady (session 1) (label 0)) }
{}
