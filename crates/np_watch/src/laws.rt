//! Laws of fresh paths. Each function does nothing: its contract is the law.

ghost use Rattle.np_watch.specs.Watching.{StaleIsLater, TestSaysFresh};

/// The test by stats says whether a path is fresh.
pub fn tests_say_fresh()
    ensures { TestSaysFresh }
{}

/// A path below a node that exists has changed after the change at which it isn't fresh.
pub fn stale_paths_have_later_changes()
    ensures { StaleIsLater }
{}
