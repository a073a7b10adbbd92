//! What of the tree the judgement of an event reads.

ghost use Rattle.std.specs.Prelude.{◌≡◌, IfOk, codes};
ghost use Rattle.np_planned.specs.Lower.{IsGood, below};
ghost use Rattle.np_planned.specs.Spots.{path_at, place_of};

use np_layout::{Place, to_path};
use np_path::{Path, PathFault};
use np_record::{Item, Row};
use np_text::{NoMemory, NodeId, PoolId, RequestId, SessionId};
use std::alloc::Global;

/// A record, a registration or a lock. A lock is read as the list of the sessions that wait for it.
#[derive(Clone, Copy, Debug, PartialEq, Eq)]
pub enum Spot {
    /// The record of a session.
    Session(SessionId),
    /// The registration of a pool's launcher.
    Launcher(PoolId),
    /// The record of a request.
    Request(RequestId),
    /// A request's lock.
    RequestLock(RequestId),
    /// The record of a node.
    Node(NodeId),
    /// A node's lock.
    NodeLock(NodeId),
}

impl Item for Spot {
    ghost use Rattle.np_planned.specs.declared.spot.Spot.TheVariants.{Session};

    ghost blank = { Session (record { 0 = 0 }) };

    fn blank() -> Spot {
        Spot::Session(SessionId(0))
    }
}

/// Spots in order: those of an event are at most 68, two for each of 32 nodes and four more.
pub type SpotRow = Row<Spot, 68>;

impl Spot {
    /// The place of the record or registration, or the directory of the lock.
    pub fn place(self) -> Place
        ensures { result ≡ place_of self }
    {
        match self {
            Spot::Session(session) => Place::Session(session),
            Spot::Launcher(pool) => Place::Launcher(pool),
            Spot::Request(request) => Place::Request(request),
            Spot::RequestLock(request) => Place::RequestLock(request),
            Spot::Node(node) => Place::Node(node),
            Spot::NodeLock(node) => Place::NodeLock(node),
        }
    }
}

/// The path that is as it was if and only if nothing changed at the spot. A request's priority must
/// have three digits. It fails only by running out of memory.
pub fn spot_path(alloc: Global, spot: Spot) -> Result<Path, NoMemory>
    requires { IsGood (place_of spot) }
    ensures { IfOk result (λ path. path ≡ path_at spot) }
{
    let place = to_path(alloc, spot.place())?;
    match spot {
        Spot::RequestLock(_) | Spot::NodeLock(_) => below_lock(&place),
        Spot::Session(_) | Spot::Launcher(_) | Spot::Request(_) | Spot::Node(_) => Ok(place),
    }
}

/// A path below a lock's directory at which there is never a node.
fn below_lock(lock: &Path) -> Result<Path, NoMemory>
    ensures { IfOk result (λ path. path ≡ below lock.now (codes "lock-")) }
{
    match lock.child("lock-") {
        Ok(path) => Ok(path),
        Err(PathFault::NoMemory) => Err(NoMemory),
        // The name is an element.
        Err(PathFault::Bad { .. }) => unreachable!(),
    }
}
