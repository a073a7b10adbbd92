//! Semaphores and swept pairs, as a tree has them.

ghost use Rattle.std.specs.Prelude.{◌≡◌, length, slice_get};
ghost use Rattle.np_tree_rows.specs.Lower.{Configuration, IsStored, State, handles_of, has_handle, is_swept};

use crate::bytes::count_at;
use np_config::Config;
use np_layout::{PathText, Place};
use np_text::{JobId, NodeId, SemId};
use np_tree::Tree;

/// How many jobs have a handle of the semaphore.
pub(crate) fn handles(tree: &Tree, semaphore: SemId) -> u32
    ensures { (c : Configuration) (s : State) → IsStored c s tree.now →
        result ≡ length (handles_of semaphore s.handles) }
{
    count_at(tree, Place::Semaphore(semaphore))
}

/// Whether the job has a handle of the semaphore.
pub(crate) fn has_handle(tree: &Tree, semaphore: SemId, job: JobId) -> bool
    ensures { (c : Configuration) (s : State) → IsStored c s tree.now →
        result ≡ has_handle job s.handles semaphore }
{
    let path = PathText::of(Place::Handle(semaphore, job));
    tree.exists(path.text()).is_some()
}

/// The job at a place among those that have a handle of the semaphore, by number. Looks for the
/// handle of each job of the configuration up to that one.
pub(crate) fn handle_at(tree: &Tree, config: &Config, semaphore: SemId, at: u32) -> Option<JobId>
    ensures { (s : State) → IsStored config.now s tree.now →
        result ≡ slice_get (handles_of semaphore s.handles) at }
{
    config.know_soundness();
    let mut left = at;
    let mut number = 0;
    while let Some(_) = config.job(JobId(number)) {
        let job = JobId(number);
        number += 1;
        if !has_handle(tree, semaphore, job) {
            continue;
        }
        if left == 0 {
            return Some(job);
        }
        left -= 1;
    }
    None
}

/// Whether the server of the node was swept.
pub(crate) fn swept(tree: &Tree, node: NodeId, server: u64) -> bool
    ensures { (c : Configuration) (s : State) → IsStored c s tree.now →
        result ≡ is_swept node server s.swept }
{
    let path = PathText::of(Place::Swept(node, server));
    tree.exists(path.text()).is_some()
}
