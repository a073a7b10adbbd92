//! Jobs, what each role has done, and the next numbers.

ghost use Rattle.std.specs.Prelude.{◌≡◌, length, slice_get};
ghost use Rattle.np_tree_rows.specs.Lower.{Configuration, IsStored, State, role_in};

use crate::bytes::{bytes_at, count_at, counter_at};
use np_layout::Place;
use np_record::{JobRecord, RoleRecord};
use np_spelling::Record;
use np_text::{JobId, Role};
use np_tree::Tree;

/// How many jobs there are.
pub(crate) fn jobs(tree: &Tree) -> u32
    ensures { (c : Configuration) (s : State) → IsStored c s tree.now → result ≡ length s.jobs }
{
    count_at(tree, Place::Jobs)
}

/// The job's record.
pub(crate) fn job(tree: &Tree, job: JobId) -> Option<JobRecord>
    ensures { (c : Configuration) (s : State) → IsStored c s tree.now →
        result ≡ slice_get s.jobs job.0 }
{
    let Some(bytes) = bytes_at(tree, Place::Job(job)) else {
        return None;
    };
    match JobRecord::read(bytes) {
        Ok(kept) => Some(kept),
        Err(_) => None,
    }
}

/// What the role has done, or `None` if it is no role of the configuration.
pub(crate) fn role(tree: &Tree, role: Role) -> Option<RoleRecord>
    ensures { (c : Configuration) (s : State) → IsStored c s tree.now → result ≡ role_in role s }
{
    let Some(place) = Place::of_role(role) else {
        return None;
    };
    let Some(bytes) = bytes_at(tree, place) else {
        return None;
    };
    match RoleRecord::read(bytes) {
        Ok(kept) => Some(kept),
        Err(_) => None,
    }
}

/// The number of the next request.
pub(crate) fn next_request(tree: &Tree) -> u32
    ensures { (c : Configuration) (s : State) → IsStored c s tree.now →
        result ≡ s.next_request }
{
    match counter_at(tree, Place::Requests) {
        Some(next) => next,
        None => 0,
    }
}

/// The number of the next node.
pub(crate) fn next_node(tree: &Tree) -> u32
    ensures { (c : Configuration) (s : State) → IsStored c s tree.now → result ≡ s.next_node }
{
    match counter_at(tree, Place::Nodes) {
        Some(next) => next,
        None => 0,
    }
}
