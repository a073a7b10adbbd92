//! Laws of planned events. Each function does nothing: its contract is the law.

ghost use Rattle.np_planned.specs.Stale.{SpotsDecide, SpotsHaveParents, SpotsHavePaths};
ghost use Rattle.np_planned.specs.Spots.{FreshCommits};

/// A planned event that is accepted in one state is accepted in each state that agrees with it at the
/// event's spots.
pub fn spots_decide()
    ensures { SpotsDecide }
{}

/// A planned event that was accepted in the state of a tree is accepted in the state of a later tree
/// in which the paths of the event's spots are fresh.
pub fn fresh_spots_commit()
    ensures { FreshCommits }
{}

/// The spots of a planned event that is accepted have paths, and are at most 68. In each later tree
/// the first of the paths that isn't fresh is below a node.
pub fn spots_have_paths()
    ensures paths { SpotsHavePaths }
    ensures parents { SpotsHaveParents }
{}
