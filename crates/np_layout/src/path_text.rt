//! The text of a place's path.

ghost use Rattle.std.specs.Prelude.{◌≡◌, ◌+◌, ◌≤◌, ◌++◌, length, IfOk};
ghost use Rattle.std.specs.Fmt.{decimal};
ghost use Rattle.np_layout.specs.Place.{IsGood, path_of};

use crate::buffer::Buffer;
use crate::place::Place;
use np_path::{Path, PathFault};
use np_text::{JobId, NoMemory, NodeId, RequestId, SemId};
use std::alloc::Global;
use std::marker::Model;

/// The text of a place's path, in 64 bytes and without memory. Contracts see it as its bytes.
#[derive(Drop)]
pub struct PathText {
    buffer: Buffer,
}

impl Model for PathText {
    ghost use Rattle.std.specs.Prelude.{List, ℕ};
    ghost use Rattle.std.specs.Str.{IsAscii};

    ghost Value = { List ℕ };

    ghost view = { λ text. text.buffer };

    ghost invariant = { λ text. IsAscii text.buffer };
}

impl PathText {
    /// The text of the place's path, written once from left to right. A request's priority must have
    /// three digits.
    pub fn of(place: Place) -> PathText
        requires { IsGood place }
        ensures { result ≡ path_of place }
    {
        PathText {
            buffer: path_bytes(place),
        }
    }

    /// The text as the tree's readers take it. Scans its bytes, of which there are at most 54.
    pub fn text(&self) -> &str
        ensures { result.now ≡ self.now }
    {
        match std::str::from_utf8(self.buffer.bytes()) {
            Ok(text) => text,
            Err(_) => unreachable!(),
        }
    }
}

/// The place's path, for the calls that change the tree. It fails only by running out of memory. A
/// request's priority must have three digits.
pub fn to_path(alloc: Global, place: Place) -> Result<Path, NoMemory>
    requires { IsGood place }
    ensures { IfOk result (λ path. path ≡ path_of place) }
{
    match Path::new(alloc, PathText::of(place).text()) {
        Ok(path) => Ok(path),
        Err(PathFault::NoMemory) => Err(NoMemory),
        // The text is in the grammar of paths.
        Err(PathFault::Bad { .. }) => unreachable!(),
    }
}

/// The bytes of the place's path.
#[tactic(auto, unfolding(crate::specs::Place::path_of))]
fn path_bytes(place: Place) -> Buffer
    requires { IsGood place }
    ensures { result ≡ path_of place }
{
    match place {
        Place::Root => Buffer::new(b"/"),
        Place::Nodepool => Buffer::new(b"/nodepool"),
        Place::Requests => Buffer::new(b"/nodepool/requests"),
        Place::Request(id) => Buffer::new(b"/nodepool/requests/").with_request(id),
        Place::RequestLocks => Buffer::new(b"/nodepool/requests-lock"),
        Place::RequestLock(id) => request_lock(id),
        Place::RequestWait(id, wait) => request_lock(id).with_text(b"/lock-").with_ten(wait),
        Place::Nodes => Buffer::new(b"/nodepool/nodes"),
        Place::Node(node) => node_record(node),
        Place::NodeLock(node) => node_record(node).with_text(b"/lock"),
        Place::NodeWait(node, wait) => node_record(node).with_text(b"/lock/lock-").with_ten(wait),
        Place::Launchers => Buffer::new(b"/nodepool/launchers"),
        Place::Launcher(pool) => numbered(b"/nodepool/launchers/", pool.0),
        Place::Zuul => Buffer::new(b"/zuul"),
        Place::Semaphores => Buffer::new(b"/zuul/semaphores"),
        Place::Semaphore(semaphore) => numbered(b"/zuul/semaphores/", semaphore.0),
        Place::Handle(semaphore, job) => handle(semaphore, job),
        Place::Poolsim => Buffer::new(b"/poolsim"),
        Place::Jobs => Buffer::new(b"/poolsim/jobs"),
        Place::Job(job) => Buffer::new(b"/poolsim/jobs/").with_decimal(u64::from(job.0)),
        Place::Roles => Buffer::new(b"/poolsim/roles"),
        Place::LauncherRole(pool) => numbered(b"/poolsim/roles/launcher-", pool.0),
        Place::JanitorRole(pool) => numbered(b"/poolsim/roles/janitor-", pool.0),
        Place::RequesterRole(requester) => numbered(b"/poolsim/roles/requester-", requester.0),
        Place::Sessions => Buffer::new(b"/poolsim/sessions"),
        Place::Session(session) => Buffer::new(b"/poolsim/sessions/").with_ten(session.0),
        Place::SweptPairs => Buffer::new(b"/poolsim/swept"),
        Place::Swept(node, server) => swept(node, server),
        Place::Tick => Buffer::new(b"/poolsim/tick"),
    }
}

/// A request's lock.
#[tactic(auto, unfolding(crate::specs::Place::path_of))]
fn request_lock(id: RequestId) -> Buffer
    requires least { 100 ≤ id.priority }
    requires most { id.priority ≤ 999 }
    ensures path { result ≡ path_of (Place.RequestLock id) }
    ensures length { length result ≡ 38 }
{
    Buffer::new(b"/nodepool/requests-lock/").with_request(id)
}

/// A node's record.
#[tactic(auto, unfolding(crate::specs::Place::path_of))]
fn node_record(node: NodeId) -> Buffer
    ensures path { result ≡ path_of (Place.Node node) }
    ensures length { length result ≡ 26 }
{
    Buffer::new(b"/nodepool/nodes/").with_ten(node.0)
}

/// The handle of a semaphore that a job holds.
#[tactic(auto, unfolding(crate::specs::Place::path_of))]
fn handle(semaphore: SemId, job: JobId) -> Buffer
    ensures { result ≡ path_of (Place.Handle semaphore job) }
{
    let directory = numbered(b"/zuul/semaphores/", semaphore.0).with_text(b"/");
    directory.with_decimal(u64::from(job.0))
}

/// A node and a server of it that was swept.
#[tactic(auto, unfolding(crate::specs::Place::path_of))]
fn swept(node: NodeId, server: u64) -> Buffer
    ensures { result ≡ path_of (Place.Swept node server) }
{
    let front = Buffer::new(b"/poolsim/swept/").with_ten(node.0);
    front.with_text(b"-").with_decimal(server)
}

/// A text with a decimal number behind it.
#[tactic(auto, using(crate::proofs::Names::short_numbers))]
fn numbered(text: &[u8], n: u16) -> Buffer
    requires { length text.now ≤ 44 }
    ensures path { result ≡ text.now ++ decimal n }
    ensures length { length result ≤ length text.now + 5 }
{
    Buffer::new(text).with_decimal(u64::from(n))
}
