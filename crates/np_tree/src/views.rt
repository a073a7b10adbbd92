//! Laws of what a tree shows. Each function does nothing: its contract is the law.

ghost use Rattle.np_tree.specs.Dates.{BeginsLater, CallsLater, EndsLater, FreshListed, FreshSeen, LaterJoined, LaterThanItself, RaisesLater, ReservesLater, UndatedBytesAreNotLater, UndatedLossIsNotLater};
ghost use Rattle.np_tree.specs.Several.{ChecksGo, CreatesGo, CreatesUnderGo, DeletesGo, SetsGo, AnsweredGoes, ChecksLeaveTheTree, ClearsEmpty, ClearsGo, Elsewhere, GoesAfter, GoesAnswered, GoesEmpty, GoesFront, GoesJoined, GoesUnderOneNumber, GoesUnrefused, GoesWhole, PathsAreTheirParts, RoomFalls, RoomGives};
ghost use Rattle.np_tree.specs.Relations.{CreatesAnswer, CreatesShow, CreatesUnderShow, DeletesShow, EndsShow, NothingBelowNothing, PartsChangeNodesAlone, RaisesShow, RowsRise, SeenIsRow, SetsShow};

/// The rows of a directory are in byte order of their names, each name once, and what is seen at a
/// path is the row of that name.
pub fn rows_are_what_is_seen()
    ensures rise { RowsRise }
    ensures seen { SeenIsRow }
{}

/// If there is no node at a path, there is none below it.
pub fn nothing_stands_below_nothing()
    ensures { NothingBelowNothing }
{}

/// An accepted create makes one row more in its directory, and raises its counter if the node is
/// a sequence node. Everything else stays.
pub fn creates()
    ensures answer { CreatesAnswer }
    ensures shows { CreatesShow }
    ensures under { CreatesUnderShow }
{}

/// An accepted set changes the bytes of one row. Everything else stays.
pub fn sets()
    ensures { SetsShow }
{}

/// An accepted delete removes one row. Everything else stays.
pub fn deletes()
    ensures { DeletesShow }
{}

/// The end of a session removes the rows that it owns, in every directory. Everything else stays.
pub fn ends()
    ensures { EndsShow }
{}

/// If a counter is raised, that is the only change.
pub fn raises()
    ensures { RaisesShow }
{}

/// A part of a call changes neither sessions nor the change number.
pub fn parts_change_nodes_alone()
    ensures { PartsChangeNodesAlone }
{}

/// A create is accepted if the session is live, the directory exists and no session owns it, the
/// bytes are short enough, its counter is not spent, the path is free, and there is room.
pub fn create_goes()
    ensures create { CreatesGo }
    ensures under { CreatesUnderGo }
{}

/// A set of any version is accepted if the node exists, the bytes are short enough, and there
/// is room.
pub fn set_goes()
    ensures { SetsGo }
{}

/// A delete of any version is accepted if the node is below a directory, with nothing below it,
/// and there is a change number.
pub fn delete_goes()
    ensures { DeletesGo }
{}

/// A check of any version is accepted if the node exists.
pub fn check_goes()
    ensures { ChecksGo }
{}

/// Parts that are accepted: none, one more in front, and more behind.
pub fn goes_joined()
    ensures empty { GoesEmpty }
    ensures front { GoesFront }
    ensures joined { GoesJoined }
{}

/// A `multi` of parts that are accepted one after another is not refused, and leaves what they
/// leave under one number; if all of them are checks, it does not change the tree. The parts of a
/// `multi` that is accepted are accepted one after another.
pub fn goes_is_multi()
    ensures answered { GoesAnswered }
    ensures after { GoesAfter }
    ensures unrefused { GoesUnrefused }
    ensures number { GoesUnderOneNumber }
    ensures checks { ChecksLeaveTheTree }
    ensures back { AnsweredGoes }
{}

/// Accepted parts do not change the rows of a directory that none of them names as its own, and
/// leave the nodes whole.
pub fn elsewhere()
    ensures rows { Elsewhere }
    ensures whole { GoesWhole }
{}

/// Room for at least one part is what a part needs of the numbers, and each part lowers it by one.
pub fn room_falls_by_one()
    ensures gives { RoomGives }
    ensures falls { RoomFalls }
{}

/// The children of a directory, with nothing below them, can all be deleted in one call, which leaves
/// the directory empty.
pub fn clears()
    ensures goes { ClearsGo }
    ensures empty { ClearsEmpty }
{}

/// A path below a directory determines its directory and its name.
pub fn paths_are_their_parts()
    ensures { PathsAreTheirParts }
{}

/// A tree is later than itself, and what is later than a later tree is later.
pub fn later_is_an_order()
    ensures itself { LaterThanItself }
    ensures joined { LaterJoined }
{}

/// Each call leaves a later tree: a session that begins, is reserved or ends, a counter that is
/// raised, and a `multi` of parts that are accepted.
pub fn calls_leave_later_trees()
    ensures reserves { ReservesLater }
    ensures begins { BeginsLater }
    ensures raises { RaisesLater }
    ensures ends { EndsLater }
    ensures multi { CallsLater }
{}

/// If a node and its directory are from a change up to a number, an earlier tree that has all that
/// is from then shows the same: the node, or that there is none, and the names and owners in its
/// directory.
pub fn fresh_is_what_was_seen()
    ensures seen { FreshSeen }
    ensures listed { FreshListed }
{}

/// A tree whose node has other bytes, or whose directory lost a child, is not later if the dates
/// stayed, whatever its last change number is.
pub fn undated_changes_are_not_later()
    ensures bytes { UndatedBytesAreNotLater }
    ensures loss { UndatedLossIsNotLater }
{}
