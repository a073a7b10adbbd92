//! What each definition refuses. Nothing here runs: each function states a theorem.

ghost use Rattle.std.specs.Prelude.{◌≤◌, ◌<◌, ◌-◌, ◌^◌, ℕ, List, [], ◌∷◌};
ghost use Rattle.np_worked.specs.Lower.{ByHolder, Configuration, Driven, DrivenBy, EachTurn, EndsRequest, Entry, Fenced, IsFenced, IsReportOfLaunch, IsSweepOfServer, Kept, LosesNothing, NodesKept, RemovesNode, RequestsKept, Rose, Safe, TakenBack, WithinMax, after, start, turns};
ghost use Rattle.np_event.specs.declared.reply.Done.TheVariants as done;
ghost use Rattle.np_worked.specs.Turns.{MayNotBeLeft, crash_to, crashing, creating, declining, deleted, deleting_expiry, deletion_by, expiring, expiry_to, free, fulfilment, of_another, other_fulfilment, other_gone, other_take, other_withdrawal, pinned_fulfilment, refused_gone, refused_withdrawal, removal, removal_by, resetting, standing_gone, standing_withdrawal, stocking, submitting, taking, ticking, unmade_node, unmade_request, was, with_deleting_node, with_failed_request, with_new_job, with_node_again, with_other_handle, with_other_node, with_other_request, with_request_again, with_session_again, withdrawal, without_handle, without_job, without_node, without_request, without_session, without_swept};
ghost use Rattle.np_worked.specs.Runs.{answers_elsewhere, any_answer, first_tick, naming, one_tick, refused_start, reporting, roomy_site, same_handle_twice, starting, sweeping, two_handles, two_holders, two_ticks, with_janitor, with_mute_janitor, with_swept_server};
ghost use Rattle.np_worked.specs.Parts.{node, request, session, site};

/// Neither a crash nor an expiry may lose a request, a node, a job's record, a handle, or that a
/// server was swept.
pub fn no_record_may_be_lost()
    ensures request { MayNotBeLeft without_request }
    ensures node { MayNotBeLeft without_node }
    ensures job { MayNotBeLeft without_job }
    ensures handle { MayNotBeLeft without_handle }
    ensures swept { MayNotBeLeft without_swept }
{}

/// Nor may it change one of these, or put another in its place.
pub fn no_record_may_be_another()
    ensures other_request { MayNotBeLeft with_other_request }
    ensures failed_request { MayNotBeLeft with_failed_request }
    ensures other_node { MayNotBeLeft with_other_node }
    ensures deleting_node { MayNotBeLeft with_deleting_node }
    ensures new_job { MayNotBeLeft with_new_job }
    ensures other_handle { MayNotBeLeft with_other_handle }
{}

/// Nor may a number that was given be given again.
pub fn no_number_may_be_given_again()
    ensures session { MayNotBeLeft with_session_again }
    ensures request { MayNotBeLeft with_request_again }
    ensures node { MayNotBeLeft with_node_again }
{}

/// A crash or an expiry may end the session, and take it out of every queue.
pub fn a_session_may_end()
    ensures crash { LosesNothing (crash_to without_session) }
    ensures expiry { LosesNothing (expiry_to without_session) }
{}

/// A request that was made is still there, or ended after it was made. A tick, a crash or an expiry
/// does not end it.
pub fn a_request_that_was_made_may_not_be_lost()
    ensures job { RequestsKept (start site) (submitting ∷ []) → ⊥ }
    ensures min_ready { RequestsKept (start site) (stocking ∷ []) → ⊥ }
    ensures later { RequestsKept (start site) (ticking ∷ submitting ∷ []) → ⊥ }
    ensures crash { RequestsKept (start site) (submitting ∷ crashing ∷ []) → ⊥ }
    ensures expiry { RequestsKept (start site) (submitting ∷ expiring ∷ []) → ⊥ }
    ensures early { RequestsKept (start site) (withdrawal ∷ submitting ∷ []) → ⊥ }
{}

/// No request ends by what happens to another job or request, by what is refused, or while it is
/// there. The fulfilment of a job's request does not end it.
pub fn what_ends_no_request()
    ensures take { EndsRequest (request 0) other_take → ⊥ }
    ensures withdrawal { EndsRequest (request 0) other_withdrawal → ⊥ }
    ensures other { EndsRequest (request 0) other_fulfilment → ⊥ }
    ensures unpinned { EndsRequest (request 0) fulfilment → ⊥ }
    ensures refused { EndsRequest (request 0) refused_withdrawal → ⊥ }
    ensures there { EndsRequest (request 0) standing_withdrawal → ⊥ }
{}

/// A job's request ends when the job takes its nodes or is withdrawn, and a min-ready request when
/// it is fulfilled.
pub fn what_ends_a_request()
    ensures take { EndsRequest (request 0) taking }
    ensures withdrawal { EndsRequest (request 0) withdrawal }
    ensures pinned { EndsRequest (request 0) pinned_fulfilment }
{}

/// A node that was made is still there, or was removed after it was made. A tick, a crash or an
/// expiry does not remove it.
pub fn a_node_that_was_made_may_not_be_lost()
    ensures made { NodesKept (start site) (creating ∷ []) → ⊥ }
    ensures later { NodesKept (start site) (ticking ∷ creating ∷ []) → ⊥ }
    ensures crash { NodesKept (start site) (creating ∷ crashing ∷ []) → ⊥ }
    ensures expiry { NodesKept (start site) (creating ∷ expiring ∷ []) → ⊥ }
    ensures early { NodesKept (start site) (removal ∷ creating ∷ []) → ⊥ }
{}

/// No node is removed when another is gone, by what is refused, or while it is there. It is removed
/// when it is gone.
pub fn what_removes_no_node()
    ensures other { RemovesNode (node 0) other_gone → ⊥ }
    ensures refused { RemovesNode (node 0) refused_gone → ⊥ }
    ensures there { RemovesNode (node 0) standing_gone → ⊥ }
    ensures gone { RemovesNode (node 0) removal }
{}

/// `Kept` says of every turn that it loses nothing, and it refuses a reply that names a request or
/// a node that is not there.
pub fn a_journal_is_kept_in_three_ways()
    ensures losses { (c : Configuration) (journal : List Entry) →
        Kept c journal → EachTurn LosesNothing (turns c journal) }
    ensures second { EachTurn LosesNothing (ticking ∷ crash_to without_request ∷ []) → ⊥ }
    ensures requests { Kept site (unmade_request ∷ []) → ⊥ }
    ensures nodes { Kept site (unmade_node ∷ []) → ⊥ }
{}

/// A node is deleted or removed only by the session that holds it, and not when that session ends.
pub fn a_node_is_changed_by_its_holder()
    ensures deletion { IsFenced (deletion_by (session 2)) → ⊥ }
    ensures removal { IsFenced (removal_by (session 2)) → ⊥ }
    ensures expiry { IsFenced deleting_expiry → ⊥ }
    ensures holder { ByHolder (deletion_by (session 1)) (node 0) }
    ensures every { (c : Configuration) (journal : List Entry) →
        Fenced c journal → EachTurn IsFenced (turns c journal) }
{}

/// A decline or a reset takes a node back only if its maker holds the request, and only a node of
/// this request; and it changes nothing else of the node.
pub fn a_node_is_taken_back_by_its_requests_holder()
    ensures declined { IsFenced (declining (session 2) free) → ⊥ }
    ensures reset { IsFenced (resetting (session 2) free) → ⊥ }
    ensures other_declined { IsFenced (of_another (declining (session 1) free)) → ⊥ }
    ensures other_reset { IsFenced (of_another (resetting (session 1) free)) → ⊥ }
    ensures kept_declined { IsFenced (declining (session 1) deleted) → ⊥ }
    ensures kept_reset { IsFenced (resetting (session 1) deleted) → ⊥ }
    ensures holder_declines { TakenBack (declining (session 1) free) (node 0) was (request 0) }
    ensures holder_resets { TakenBack (resetting (session 1) free) (node 0) was (request 0) }
{}

/// Two replies that say that different sessions hold the same request are not safe.
pub fn two_holders_of_a_request_are_not_safe()
    ensures { Safe site two_holders → ⊥ }
{}

/// A semaphore has at most as many handles as it may, each of another job.
pub fn a_semaphore_has_at_most_its_handles()
    ensures full { WithinMax site two_handles → ⊥ }
    ensures twice { WithinMax roomy_site same_handle_twice → ⊥ }
    ensures room { WithinMax roomy_site two_handles }
    ensures every { (c : Configuration) (journal : List Entry) →
        Safe c journal → WithinMax c (after c journal) }
{}

/// A tick neither follows a tick nor begins a journal, whatever the clouds answer. It may follow
/// something else.
pub fn a_tick_follows_no_tick()
    ensures second { DrivenBy any_answer site two_ticks → ⊥ }
    ensures first { DrivenBy any_answer site first_tick → ⊥ }
    ensures single { Driven site one_tick }
{}

/// A sweep is by the current session of a janitor, of a server that a report named for the node and
/// that was not swept before, and its answer is to remove it.
pub fn what_is_no_sweep()
    ensures kept { IsSweepOfServer (naming (node 0) 7 ∷ []) (sweeping with_janitor done.Keep) → ⊥ }
    ensures mute { IsSweepOfServer (naming (node 0) 7 ∷ []) (sweeping with_mute_janitor done.Remove)
        → ⊥ }
    ensures unnamed { IsSweepOfServer [] (sweeping with_janitor done.Remove) → ⊥ }
    ensures other_node { IsSweepOfServer (naming (node 1) 7 ∷ [])
        (sweeping with_janitor done.Remove) → ⊥ }
    ensures other_server { IsSweepOfServer (naming (node 0) 8 ∷ [])
        (sweeping with_janitor done.Remove) → ⊥ }
    ensures again { IsSweepOfServer (naming (node 0) 7 ∷ [])
        (sweeping with_swept_server done.Remove) → ⊥ }
    ensures named { IsSweepOfServer (naming (node 0) 7 ∷ []) (sweeping with_janitor done.Remove) }
{}

/// A report is of an attempt of a node that its session began, as the clouds may answer it, and is
/// the first of this attempt.
pub fn what_is_no_report_of_a_launch()
    ensures begun { IsReportOfLaunch any_answer [] reporting → ⊥ }
    ensures refused { IsReportOfLaunch any_answer (refused_start ∷ []) reporting → ⊥ }
    ensures session { IsReportOfLaunch any_answer (starting (session 2) (node 0) 1 ∷ []) reporting
        → ⊥ }
    ensures node { IsReportOfLaunch any_answer (starting (session 1) (node 1) 1 ∷ []) reporting
        → ⊥ }
    ensures attempt { IsReportOfLaunch any_answer (starting (session 1) (node 0) 2 ∷ []) reporting
        → ⊥ }
    ensures second { IsReportOfLaunch any_answer
        (starting (session 1) (node 0) 1 ∷ reporting ∷ []) reporting → ⊥ }
    ensures answer { IsReportOfLaunch answers_elsewhere (starting (session 1) (node 0) 1 ∷ [])
        reporting → ⊥ }
    ensures first { IsReportOfLaunch any_answer (starting (session 1) (node 0) 1 ∷ []) reporting }
{}

/// A count that stayed or fell has not risen, also if it was above 0 before; only one at the end of
/// `u64` is taken as risen.
pub fn a_count_rose_if_it_is_higher()
    ensures stayed { Rose 1 1 → ⊥ }
    ensures fell { Rose 2 1 → ⊥ }
    ensures first { Rose 0 1 }
    ensures last { Rose (2 ^ 64 - 2) (2 ^ 64 - 1) }
    ensures end { Rose (2 ^ 64 - 1) (2 ^ 64 - 1) }
    ensures every { (before now : ℕ) → before < 2 ^ 64 - 1 → now ≤ before → Rose before now → ⊥ }
{}
