//! Worked examples: the definitions, checked against what they are meant to say.
//!
//! Each function is a theorem with an empty body. Those of this file are journals: on its site, the
//! machine's replies are those of the journal, one by one, and each job has its fate. The story of the
//! same name in `specs/Jobs`, `Nodes` or `Shares` has the site, the journal and the fates; the checker
//! computes them from the definitions alone. `trees` has a worked tree, which lays its state out, and
//! others, which don't. `useful` has examples of both sides for each kind of useful event, in states
//! of these journals.
//!
//! `refused` has made-up cases that a definition has to refuse. What holds after every step of a run
//! is proved of the machine, in which nothing is ever lost, so a definition with a weaker word would
//! be proved of it too. Each law there takes cases that are in no run, and shows that the definition
//! does not hold of them. With a weaker word it would, and the law would not be proved. Beside such
//! cases stands one that differs from them in little, and of which the definition does hold.
//!
//! Read `specs/Parts`, which has the state that most cases start from, then `Turns` for `Kept` and
//! `Fenced`, and `Runs` for `Safe` and `Driven`.
#![tactic(auto)]

pub mod property;
pub mod refused;
pub mod trees;
pub mod useful;

ghost use Rattle.np_worked.specs.Site.{Plays};
ghost use Rattle.np_worked.specs.Jobs.{crashed_requester, declined_but_taken_up, declined_by_all, ended_by_the_wrong_party, fail_declined, finished_by_the_janitor, min_ready_and_taken, never_fits, pinned_elsewhere, plain_path, priorities, refusals, reset_request, retries_spent, revise, served_job, spent_min_ready, withdrawn_early, withdrawn_request};
ghost use Rattle.np_worked.specs.Nodes.{aged_node, deleted_during_a_launch, expiry_during_a_launch, freed_node, hold_age, kept_ready_by_all_pools, nodes_that_are_not_free, queue_after_an_expiry, ready_age, swept_servers, swept_while_building, wrong_attempt};
ghost use Rattle.np_worked.specs.Shares.{half_built_requests, paused_by_a_kept_label, paused_pool, semaphores_all_or_none, short_quota, taken_with_its_handles, tenant_counts_by_pool, tenant_limit, tenant_of_a_node, two_handles};

/// From a job's request to its fulfilled node.
pub fn plain_path()
    ensures { Plays plain_path.site plain_path.journal plain_path.ends }
{}

/// The requester takes its node over, uses it and ends its job.
pub fn served_job()
    ensures { Plays served_job.site served_job.journal served_job.ends }
{}

/// A node is kept ready, and a job with three labels takes it.
pub fn min_ready_and_taken()
    ensures { Plays min_ready_and_taken.site min_ready_and_taken.journal min_ready_and_taken.ends }
{}

/// A job asks for more than the pool may ever hold.
pub fn never_fits()
    ensures { Plays never_fits.site never_fits.journal never_fits.ends }
{}

/// The one pool that is left has declined, and the request fails.
pub fn declined_by_all()
    ensures { Plays declined_by_all.site declined_by_all.journal declined_by_all.ends }
{}

/// Another launcher of the other pool comes, and takes the request up.
pub fn declined_but_taken_up()
    ensures { Plays declined_but_taken_up.site declined_but_taken_up.journal declined_but_taken_up.ends }
{}

/// Every launch of the first pool fails, and the second serves the request.
pub fn retries_spent()
    ensures { Plays retries_spent.site retries_spent.journal retries_spent.ends }
{}

/// A launcher expires while it launches; the janitor cleans up, and another launcher serves the
/// request.
pub fn expiry_during_a_launch()
    ensures { Plays expiry_during_a_launch.site expiry_during_a_launch.journal expiry_during_a_launch.ends }
{}

/// The next in a node's queue holds it when the first expires.
pub fn queue_after_an_expiry()
    ensures { Plays queue_after_an_expiry.site queue_after_an_expiry.journal queue_after_an_expiry.ends }
{}

/// A late report of an earlier launch is refused.
pub fn wrong_attempt()
    ensures { Plays wrong_attempt.site wrong_attempt.journal wrong_attempt.ends }
{}

/// Jobs take all their semaphores or none.
pub fn semaphores_all_or_none()
    ensures { Plays semaphores_all_or_none.site semaphores_all_or_none.journal semaphores_all_or_none.ends }
{}

/// A job waits for room in the pool, and another for the semaphore that the first has.
pub fn short_quota()
    ensures { Plays short_quota.site short_quota.journal short_quota.ends }
{}

/// A requester stops while it uses its node, and its job is lost.
pub fn crashed_requester()
    ensures { Plays crashed_requester.site crashed_requester.journal crashed_requester.ends }
{}

/// A job is withdrawn while its node is launched, and the node serves another.
pub fn withdrawn_request()
    ensures { Plays withdrawn_request.site withdrawn_request.journal withdrawn_request.ends }
{}

/// Requests are taken up by priority, relative priority and sequence.
pub fn priorities()
    ensures { Plays priorities.site priorities.journal priorities.ends }
{}

/// A held node is removed when it is old enough.
pub fn hold_age()
    ensures { Plays hold_age.site hold_age.journal hold_age.ends }
{}

/// Events that come too early, or from the wrong party.
pub fn refusals()
    ensures { Plays refusals.site refusals.journal refusals.ends }
{}

/// A label that cannot be kept ready is not tried again.
pub fn spent_min_ready()
    ensures { Plays spent_min_ready.site spent_min_ready.journal spent_min_ready.ends }
{}

/// Only the pool that made a min-ready request serves it.
pub fn pinned_elsewhere()
    ensures { Plays pinned_elsewhere.site pinned_elsewhere.journal pinned_elsewhere.ends }
{}

/// A server is kept while its node is building or has it.
pub fn swept_servers()
    ensures { Plays swept_servers.site swept_servers.journal swept_servers.ends }
{}

/// Any server that a building node may get is kept.
pub fn swept_while_building()
    ensures { Plays swept_while_building.site swept_while_building.journal swept_while_building.ends }
{}

/// A ready node is not freed while its request exists, and is freed when its request is gone.
pub fn freed_node()
    ensures { Plays freed_node.site freed_node.journal freed_node.ends }
{}

/// The janitor gives back a request whose launcher has gone, and its node is free.
pub fn reset_request()
    ensures { Plays reset_request.site reset_request.journal reset_request.ends }
{}

/// A request that nobody may serve fails only if a pool is registered.
pub fn fail_declined()
    ensures { Plays fail_declined.site fail_declined.journal fail_declined.ends }
{}

/// A job is withdrawn before it has requested nodes, and cannot request them afterwards.
pub fn withdrawn_early()
    ensures { Plays withdrawn_early.site withdrawn_early.journal withdrawn_early.ends }
{}

/// An unused ready node is removed when it is old enough.
pub fn ready_age()
    ensures { Plays ready_age.site ready_age.journal ready_age.ends }
{}

/// A pool at its quota gives up a ready node that its request cannot use.
pub fn paused_pool()
    ensures { Plays paused_pool.site paused_pool.journal paused_pool.ends }
{}

/// Only their own requester ends nodes and jobs.
pub fn ended_by_the_wrong_party()
    ensures { Plays ended_by_the_wrong_party.site ended_by_the_wrong_party.journal ended_by_the_wrong_party.ends }
{}

/// A request that nobody has accepted is revised, and another goes first.
pub fn revise()
    ensures { Plays revise.site revise.journal revise.ends }
{}

/// A tenant has room for one request and not for the next, and never for the largest.
pub fn tenant_limit()
    ensures { Plays tenant_limit.site tenant_limit.journal tenant_limit.ends }
{}

/// Of two requests of one tenant that were locked together, one is accepted, and takes all that the
/// tenant may use.
pub fn half_built_requests()
    ensures { Plays half_built_requests.site half_built_requests.journal half_built_requests.ends }
{}

/// A node that is given up during its launch is no longer in flight.
pub fn deleted_during_a_launch()
    ensures { Plays deleted_during_a_launch.site deleted_during_a_launch.journal deleted_during_a_launch.ends }
{}

/// A janitor ends a job whose requester has no live session, mute or not.
pub fn finished_by_the_janitor()
    ensures { Plays finished_by_the_janitor.site finished_by_the_janitor.journal finished_by_the_janitor.ends }
{}

/// A pool without room pauses for a node that is to be kept ready, though another of its label is
/// unused.
pub fn paused_by_a_kept_label()
    ensures { Plays paused_by_a_kept_label.site paused_by_a_kept_label.journal paused_by_a_kept_label.ends }
{}

/// A ready node is taken once, by a request that waits for it, when nobody holds it.
pub fn nodes_that_are_not_free()
    ensures { Plays nodes_that_are_not_free.site nodes_that_are_not_free.journal nodes_that_are_not_free.ends }
{}

/// A label is kept ready by all pools together, and not by each.
pub fn kept_ready_by_all_pools()
    ensures { Plays kept_ready_by_all_pools.site kept_ready_by_all_pools.journal kept_ready_by_all_pools.ends }
{}

/// A node is made, launched, taken and ended while ticks pass.
pub fn aged_node()
    ensures { Plays aged_node.site aged_node.journal aged_node.ends }
{}

/// A job that asked for its nodes first takes them when it holds them and has its semaphores, and
/// its request is gone.
pub fn taken_with_its_handles()
    ensures { Plays taken_with_its_handles.site taken_with_its_handles.journal taken_with_its_handles.ends }
{}

/// A node counts for its tenant while it is allocated and in use, and not when it is free.
pub fn tenant_of_a_node()
    ensures { Plays tenant_of_a_node.site tenant_of_a_node.journal tenant_of_a_node.ends }
{}

/// A tenant counts what each node and each request takes of its own pool, and what a pool can never
/// serve is declined.
pub fn tenant_counts_by_pool()
    ensures { Plays tenant_counts_by_pool.site tenant_counts_by_pool.journal tenant_counts_by_pool.ends }
{}

/// A semaphore has as many handles as it may, and no more.
pub fn two_handles()
    ensures { Plays two_handles.site two_handles.journal two_handles.ends }
{}
