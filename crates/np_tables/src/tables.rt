//! A configuration and the tables of a state of its machine.

ghost use Rattle.std.specs.Prelude.{◌≡◌, IfOk};
ghost use Rattle.np_tables.specs.Lower.{Fits, IsPlanned, IsReached, IsSound, changed, start};
ghost use Rattle.np_tables.specs.CanChange.{IsCountable, AreQueuesOf, HasRoomFor};

mod rows;

use crate::reserve::Reserved;
use crate::vectors::Vectors;
use np_changes::Changes;
use np_config::Config;
use np_text::{NodeId, RequestId};
use std::alloc::{AllocError, Global};
use std::marker::Model;

/// A configuration and a state of its machine, in vectors. A session, a job or a role is found by its
/// place, and a request, a node, a handle or a swept pair by binary search. Any other search is a
/// walk over all rows (np_look).
#[derive(Drop)]
pub struct Tables {
    config: Config,
    vectors: Vectors,
}

impl Model for Tables {
    ghost use Rattle.np_tables.specs.CanChange.{IsCountable, Kept};

    ghost Value = { Kept };

    ghost view = { λ t. record {
      configuration = t.config;
      state = t.vectors.state;
      room = t.vectors.room;
    } };

    ghost invariant = { λ t. IsCountable t.vectors.state };
}

/// Every configuration is sound.
fn is_sound(config: &Config)
    ensures { IsSound config.now }
{
    config.know_soundness();
}

impl Tables {
    /// The state before the first event.
    pub fn start(alloc: Global, config: Config) -> Result<Tables, AllocError>
        ensures configuration { IfOk result (λ t. t.configuration ≡ config) }
        ensures state { IfOk result (λ t. t.state ≡ start config) }
    {
        is_sound(&config);
        let vectors = Vectors::start(alloc, &config)?;
        Ok(Tables { config, vectors })
    }

    /// The configuration, and the state that the vectors have. It costs nothing.
    pub fn of_vectors(config: Config, vectors: Vectors) -> Tables
        requires { IsCountable vectors.state }
        ensures configuration { result.configuration ≡ config }
        ensures state { result.state ≡ vectors.state }
    {
        Tables { config, vectors }
    }

    /// The configuration alone.
    pub fn into_config(self) -> Config
        ensures { result ≡ self.configuration }
    {
        self.config
    }

    /// Takes the memory that the changes of an event need. The configuration and the state stay,
    /// whatever comes. For handles it costs one step for each semaphore, and for a queue that a
    /// session joins a copy of the queue.
    pub fn reserve(&mut self, changes: &Changes) -> Result<Reserved, AllocError>
        ensures configuration { self.new.configuration ≡ self.old.configuration }
        ensures state { self.new.state ≡ self.old.state }
        ensures ok { IfOk result (λ reserved. HasRoomFor changes.now reserved self.new) }
    {
        let reserved = self.vectors.reserve(changes.maker, &changes.grows)?;
        Ok(reserved)
    }

    /// Makes the changes of an accepted event, for which there is room. It takes no memory. If a
    /// session ends, only these requests and nodes are changed, in whose queues it is; each is found
    /// by binary search.
    pub fn change(
        &mut self,
        changes: &Changes,
        reserved: Reserved,
        requests: &[RequestId],
        nodes: &[NodeId],
    )
        // A run of the configuration reaches the state, whose numbers leave room.
        requires reached { IsReached self.old.configuration self.old.state }
        requires fits { Fits self.old.configuration self.old.state }
        requires planned { IsPlanned self.old.configuration self.old.state changes.now }
        requires room { HasRoomFor changes.now reserved self.old }
        requires queues { AreQueuesOf self.old.state changes.now requests.now nodes.now }
        ensures configuration { self.new.configuration ≡ self.old.configuration }
        ensures state { self.new.state ≡
            changed self.old.configuration changes.now self.old.state }
    {
        is_sound(&self.config);
        self.vectors.grow(&self.config, changes.maker, &changes.grows, reserved.queue);
        self.vectors.settle(&self.config, changes);
        self.vectors.leave_these(changes.sessions, requests, nodes);
    }
}
