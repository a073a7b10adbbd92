//! Where a thing was told.

ghost use Rattle.std.specs.Prelude.{◌≡◌, IfSome, Some, slice_get, ℕ};
ghost use Rattle.np_explain_lines.specs.Lower.{about_of};
ghost use Rattle.np_explain_lines.specs.Chains.{facts_of};

use crate::chain::Link;
use np_causes::{Fact, Thing, about, is_same};
use np_text::{Ample, NoMemory, Role};
use std::alloc::Global;
use std::collections::BTreeMap;

/// A thing as numbers, in an order: its kind, and the numbers of what it is about.
#[derive(Clone, Copy, PartialEq, Eq, PartialOrd, Ord)]
struct Key(u8, u32, u32, u32);

fn key_of(thing: Thing) -> Key {
    match thing {
        Thing::Job(job) => Key(0, job.0, 0, 0),
        Thing::Turn(job) => Key(1, job.0, 0, 0),
        Thing::Window(job) => Key(2, job.0, 0, 0),
        Thing::Supply(job) => Key(3, job.0, 0, 0),
        Thing::Semaphore(semaphore) => Key(4, u32::from(semaphore.0), 0, 0),
        Thing::Handle(semaphore, job) => Key(5, u32::from(semaphore.0), job.0, 0),
        Thing::Request(id) => Key(6, u32::from(id.priority), id.seq, 0),
        Thing::Offer(id, pool) => Key(7, u32::from(id.priority), id.seq, u32::from(pool.0)),
        Thing::Next(id) => Key(8, u32::from(id.priority), id.seq, 0),
        Thing::Pool(pool) => Key(9, u32::from(pool.0), 0, 0),
        Thing::Work(pool) => Key(10, u32::from(pool.0), 0, 0),
        Thing::Concurrency(pool) => Key(18, u32::from(pool.0), 0, 0),
        Thing::Room(pool) => Key(11, u32::from(pool.0), 0, 0),
        Thing::Tenant(tenant) => Key(12, u32::from(tenant.0), 0, 0),
        Thing::Node(node) => Key(13, node.0, 0, 0),
        Thing::Lock(node) => Key(14, node.0, 0, 0),
        Thing::Owner(node) => Key(15, node.0, 0, 0),
        Thing::Session(session) => Key(16, session.0, 0, 0),
        Thing::Role(Role::Launcher(pool)) => Key(17, 0, u32::from(pool.0), 0),
        Thing::Role(Role::Janitor(pool)) => Key(17, 1, u32::from(pool.0), 0),
        Thing::Role(Role::Requester(requester)) => Key(17, 2, u32::from(requester.0), 0),
        Thing::Role(Role::Reaper) => Key(17, 3, 0, 0),
    }
}

/// Where each thing was told, by its key. No clause relies on it: what it finds is looked at.
#[derive(Drop)]
pub(crate) struct Places {
    places: BTreeMap<Key, usize>,
}

impl Places {
    pub(crate) fn new(alloc: Global) -> Places {
        Places {
            places: BTreeMap::new(alloc),
        }
    }

    /// The thing was told at this place.
    pub(crate) fn put(&mut self, thing: Thing, at: usize) -> Ample {
        match self.places.insert(key_of(thing), at) {
            Ok(_) => Ok(()),
            Err(_) => Err(NoMemory),
        }
    }

    /// The fact that was told of the thing, if one is found.
    pub(crate) fn find(&self, links: &[Link], thing: Thing) -> Option<Fact>
        ensures { IfSome result (λ fact. (about_of fact ≡ thing)
            × ((at : ℕ) × (slice_get (facts_of links.now) at ≡ Some fact))) }
    {
        let at = *self.places.get(&key_of(thing))?;
        fact_at(links, at, thing)
    }
}

/// The fact at the place, if it is about the thing.
fn fact_at(links: &[Link], at: usize, thing: Thing) -> Option<Fact>
    ensures { IfSome result (λ fact. (about_of fact ≡ thing)
        × ((at : ℕ) × (slice_get (facts_of links.now) at ≡ Some fact))) }
{
    let link = links.get(at)?;
    if is_same(about(&link.fact), thing) {
        Some(link.fact)
    } else {
        None
    }
}
