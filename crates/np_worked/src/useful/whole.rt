//! Whole states and journals: settled or not, driven or not.

ghost use Rattle.np_worked.specs.Lower.{Driven, IsSettled, after, start};
ghost use Rattle.np_worked.specs.Examples.{HasReplies, expiring_site, all_kinds, first_tick, empty_site, quiet_site, quiet, moved_window, window_site};
ghost use Rattle.np_worked.specs.Jobs.{plain_path};

/// The machine's replies are those of the journals that are made for these examples.
pub fn driven_journals_are_the_machines()
    ensures all_kinds { HasReplies expiring_site all_kinds }
    ensures first_tick { HasReplies plain_path.site first_tick }
{}

/// A journal of useful events was driven.
pub fn the_plain_path_was_driven()
    ensures { Driven plain_path.site plain_path.journal }
{}

/// So was a journal with a late report, the sweep of its server and a tick.
pub fn a_journal_of_all_kinds_was_driven()
    ensures { Driven expiring_site all_kinds }
{}

/// A journal that begins with a tick was not driven.
pub fn a_first_tick_was_not_driven()
    ensures { Driven plain_path.site first_tick → ⊥ }
{}

/// Nor was a journal with an event that is never useful.
pub fn a_withdrawn_job_was_not_driven()
    ensures { Driven (window_site 1) moved_window → ⊥ }
{}

/// A state is not settled while a role may open a session.
pub fn a_site_that_has_not_begun_is_not_settled()
    ensures { IsSettled plain_path.site (start plain_path.site) → ⊥ }
{}

/// A site in which nobody takes part is settled from the start.
pub fn a_site_without_parties_is_settled()
    ensures { IsSettled empty_site (start empty_site) }
{}

/// A site whose one requester has a session and no job is settled, and was not before.
pub fn a_requester_without_jobs_is_settled()
    ensures before { IsSettled quiet_site (start quiet_site) → ⊥ }
    ensures after { IsSettled quiet_site (after quiet_site quiet) }
{}
