//! The requests of a state, and the sessions that wait for each.

ghost use Rattle.std.specs.Prelude.{◌≡◌, IfSome, length, slice_get};
ghost use Rattle.np_tree_rows.specs.Lower.{Configuration, HasText, IsStored, OnFalse, OnTrue, State, option_map, request_in, request_queue, request_view};

use crate::bytes::{bytes_at, count_at};
use crate::rows::{name_at, waiting_at};
use np_layout::Place;
use np_look::RequestView;
use np_record::RequestRecord;
use np_spelling::Record;
use np_text::{RequestId, SessionId, read_request};
use np_tree::Tree;

/// How many requests there are.
pub(crate) fn requests(tree: &Tree) -> u32
    ensures { (c : Configuration) (s : State) → IsStored c s tree.now →
        result ≡ length s.requests }
{
    count_at(tree, Place::Requests)
}

/// The request at a place, by priority and then sequence. `None` past the last one.
pub(crate) fn request_at(tree: &Tree, at: u32) -> Option<RequestId>
    ensures request { (c : Configuration) (s : State) → IsStored c s tree.now →
        result ≡ option_map (λ e. e.id) (slice_get s.requests at) }
    ensures text { IfSome result HasText }
{
    let name = name_at(tree, Place::Requests, at)?;
    read_request(name.as_bytes())
}

/// The request's record, or `None` if there is no such request.
pub(crate) fn request(tree: &Tree, request: RequestId) -> Option<RequestRecord>
    ensures { (c : Configuration) (s : State) → IsStored c s tree.now →
        result ≡ request_in request s.requests }
{
    if !has_text(request) {
        return None;
    }
    let bytes = bytes_at(tree, Place::Request(request))?;
    match RequestRecord::read(bytes) {
        Ok(kept) => Some(kept),
        Err(_) => None,
    }
}

/// The session at a place of the request's queue; the one at 0 holds it. `None` past the queue's
/// end, or if there is no such request.
pub(crate) fn request_queue(tree: &Tree, request: RequestId, at: u32) -> Option<SessionId>
    ensures { (c : Configuration) (s : State) → IsStored c s tree.now →
        result ≡ slice_get (request_queue request s.requests) at }
{
    if !has_text(request) {
        return None;
    }
    waiting_at(tree, Place::RequestLock(request), at)
}

/// The request at a place, with its record and who holds it. `None` past the last one.
pub(crate) fn request_view(tree: &Tree, at: u32) -> Option<RequestView>
    ensures { (c : Configuration) (s : State) → IsStored c s tree.now →
        result ≡ option_map request_view (slice_get s.requests at) }
{
    let id = request_at(tree, at)?;
    let kept = request(tree, id)?;
    let holder = request_queue(tree, id, 0);
    Some(RequestView { id, kept, holder })
}

/// Whether the request's priority has three digits: no other request has a path.
fn has_text(request: RequestId) -> bool
    ensures yes { OnTrue result (HasText request) }
    ensures no { OnFalse result (¬ HasText request) }
{
    100 <= request.priority && request.priority <= 999
}
