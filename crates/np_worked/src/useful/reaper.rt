//! The reaper's rows, and who stopped for good.

ghost use Rattle.np_worked.specs.Lower.{IsUseful, Reaper};
ghost use Rattle.np_config.specs.declared.row.FaultKind.TheVariants as kind;
ghost use Rattle.np_event.specs.declared.event.Event.TheVariants as ev;
ghost use Rattle.np_worked.specs.Examples.{IsUseless, HasReplies, after_first, struck_site, struck};
ghost use Rattle.np_worked.specs.Site.{session, launcher};

/// The machine's replies are those of the journal that is made for these rows.
pub fn reapers_journal_is_the_machines()
    ensures { HasReplies (struck_site kind.Stop) struck }
{}

/// The reaper ends a session whose expiry is due.
pub fn the_reaper_expires_what_is_due()
    ensures due { IsUseful (struck_site kind.Expire) (after_first 2 (struck_site kind.Expire) struck) Reaper (ev.Expire (session 1)) }
    ensures early { IsUseless (struck_site kind.Expire) (after_first 1 (struck_site kind.Expire) struck) Reaper (ev.Expire (session 1)) }
    ensures other_kind { IsUseless (struck_site kind.Crash) (after_first 2 (struck_site kind.Crash) struck) Reaper (ev.Expire (session 1)) }
{}

/// The reaper makes a session mute if its crash or stop is due.
pub fn the_reaper_crashes_what_is_due()
    ensures crash { IsUseful (struck_site kind.Crash) (after_first 2 (struck_site kind.Crash) struck) Reaper (ev.Crash (session 1)) }
    ensures stop { IsUseful (struck_site kind.Stop) (after_first 2 (struck_site kind.Stop) struck) Reaper (ev.Crash (session 1)) }
    ensures early { IsUseless (struck_site kind.Crash) (after_first 1 (struck_site kind.Crash) struck) Reaper (ev.Crash (session 1)) }
    ensures other_kind { IsUseless (struck_site kind.Expire) (after_first 2 (struck_site kind.Expire) struck) Reaper (ev.Crash (session 1)) }
{}

/// It then ends that session.
pub fn the_reaper_expires_what_is_mute()
    ensures { IsUseful (struck_site kind.Crash) (after_first 3 (struck_site kind.Crash) struck) Reaper (ev.Expire (session 1)) }
{}

/// A role continues with a new session after a crash, but not after a stop.
pub fn a_role_stops_for_good()
    ensures crash { IsUseful (struck_site kind.Crash) (after_first 4 (struck_site kind.Crash) struck) (launcher 0) (ev.OpenSession (launcher 0)) }
    ensures stop { IsUseless (struck_site kind.Stop) (after_first 4 (struck_site kind.Stop) struck) (launcher 0) (ev.OpenSession (launcher 0)) }
{}
