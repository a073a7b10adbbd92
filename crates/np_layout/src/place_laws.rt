//! Laws of the places. Each function does nothing: its contract is the law.
#![tactic(auto, using(crate::proofs::Proved::place_names))]

ghost use Rattle.np_layout.specs.Place.{AboveIsGood, LongestIsAWait, NamesAreApart, NamesAreLast, NodesRise, ParentsAreAbove, PathsAreApart, PathsAreJoined, PathsAreInTheGrammar, PathsFit, RequestLocksRise, RequestsRise, SessionsRise, WaitsForNodesRise, WaitsForRequestsRise};

/// The path of each place is in the grammar of paths.
pub fn paths_are_in_the_grammar()
    ensures { PathsAreInTheGrammar }
{}

/// A place's path is that of the place above it, joined with its name. So the path's parent is the
/// path of the place above, and the path's last element is the name.
pub fn places_stand_in_directories()
    ensures joined { PathsAreJoined }
    ensures parent { ParentsAreAbove }
    ensures name { NamesAreLast }
    ensures above { AboveIsGood }
{}

/// Two places with equal paths are equal, and so are two of equal names with the same place above.
pub fn no_two_places_share_a_path()
    ensures paths { PathsAreApart }
    ensures names { NamesAreApart }
{}

/// In their directories the records of requests, nodes and sessions, the locks of requests, and
/// the waits for a lock are in byte order of their names as their ids are.
pub fn names_stand_in_order()
    ensures requests { RequestsRise }
    ensures request_locks { RequestLocksRise }
    ensures request_waits { WaitsForRequestsRise }
    ensures nodes { NodesRise }
    ensures node_waits { WaitsForNodesRise }
    ensures sessions { SessionsRise }
{}

/// The longest path is that of a wait for a request's lock. It has 54 bytes.
pub fn paths_fit_in_64_bytes()
    ensures most { PathsFit }
    ensures longest { LongestIsAWait }
{}
