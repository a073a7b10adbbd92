//! What the changes of an event make of the lookups.

ghost use Rattle.std.specs.Prelude.{◌≡◌, IfOk, OnErr, OnOk};
ghost use Rattle.np_lookups.specs.Lower.{Configuration, Fits, IsPlanned, IsReached, SessionId, State};
ghost use Rattle.np_changes.specs.declared.changes.SessionsChange.TheVariants as sessions;
ghost use Rattle.np_lookups.specs.Lookups.{lookups_grown, lookups_settled, lookups_taken_back, AreLookupsOf, IsPrepared, lookups_made, lookups_unmade};

use crate::lookups::Lookups;
use crate::owners::{grow_owners, settle_owners, take_back_owner};
use crate::queues::{end, holder_of, join, leave, queue_of, remove, take_back};
use crate::unfinished::settle_unfinished;
use crate::waits::{
    ending, joins_node, joins_request, leaves_node, leaves_request, removed_node, removed_request,
};
use np_changes::Changes;
use np_config::Config;
use np_look::Rows;
use np_text::SessionId;
use std::alloc::AllocError;
use std::marker::Model;

/// What was read of a state before the changes of an event, and whether a list got a row for them.
#[derive(Drop)]
pub struct Prepared {
    next: u32,
    added: bool,
    holder: Option<SessionId>,
    queue: Vec<SessionId>,
}

impl Model for Prepared {
    ghost use Rattle.np_lookups.specs.Lookups.{PreparedOf};

    ghost Value = { PreparedOf };

    ghost view = { λ prepared. record {
      next = prepared.next;
      added = prepared.added;
      holder = prepared.holder;
      queue = prepared.queue.items;
    } };
}

impl Lookups {
    /// Adds what the changes let grow, before the state has changed: a row to one list at most, and
    /// the place of a new node; true if a row was added. If memory runs out, nothing changes.
    #[tactic(auto, using(crate::proofs::QueueLemmas::alone))]
    fn grow(&mut self, changes: &Changes, next: u32) -> Result<bool, AllocError>
        ensures ok { OnOk result (self.new ≡ lookups_grown changes.now next self.old) }
        ensures undo { IfOk result (λ added.
            lookups_taken_back changes.now next added self.new ≡ self.old) }
        ensures err { OnErr result (self.new ≡ self.old) }
    {
        let at_request = joins_request(changes.maker, &changes.grows);
        if at_request.is_some() {
            return join(&mut self.requests, at_request);
        }
        let at_node = joins_node(changes.maker, &changes.grows, next);
        let added = join(&mut self.nodes, at_node)?;
        if let Err(fault) = grow_owners(&mut self.owners, &changes.grows) {
            take_back(&mut self.nodes, at_node, added);
            return Err(fault);
        }
        Ok(added)
    }

    /// Before the state changes: adds what the changes let grow, and reads what the rest needs. If
    /// memory runs out, these are still the lookups of the state. So they are if a session ends,
    /// since nothing grows then. It costs a lookup in the list that grows, and reads the holder of a
    /// request that goes and the queue of a node that goes.
    pub fn prepare<R: Rows>(&mut self, rows: &R, changes: &Changes) -> Result<Prepared, AllocError>
        requires reached { IsReached (R.site rows.now) (R.state rows.now) }
        requires fits { Fits (R.site rows.now) (R.state rows.now) }
        requires planned { IsPlanned (R.site rows.now) (R.state rows.now) changes.now }
        requires are { AreLookupsOf (R.site rows.now) (R.state rows.now) self.old }
        ensures ok { IfOk result (λ prepared.
            IsPrepared (R.site rows.now) (R.state rows.now) changes.now self.new prepared) }
        ensures ends { IfOk result (λ _.
            (session : SessionId) → changes.now.sessions ≡ sessions.End session
            → AreLookupsOf (R.site rows.now) (R.state rows.now) self.new) }
        ensures err { OnErr result (AreLookupsOf (R.site rows.now) (R.state rows.now) self.new) }
    {
        self.make_room(rows.sessions())?;
        let holder = holder_of(rows, removed_request(&changes.requests));
        let queue = queue_of(self.alloc, rows, removed_node(&changes.nodes))?;
        let next = rows.next_node();
        let added = self.grow(changes, next)?;
        Ok(Prepared {
            next,
            added,
            holder,
            queue,
        })
    }

    /// Takes out again what was added, since the state could not change.
    pub fn take_back(&mut self, changes: &Changes, prepared: &Prepared)
        ensures { self.new ≡ lookups_unmade changes.now prepared.now self.old }
    {
        let at_request = joins_request(changes.maker, &changes.grows);
        take_back(&mut self.requests, at_request, prepared.added);
        let at_node = joins_node(changes.maker, &changes.grows, prepared.next);
        take_back(&mut self.nodes, at_node, prepared.added);
        take_back_owner(&mut self.owners, &changes.grows);
    }

    /// Makes the rest of the changes, after the state has changed. It takes no memory.
    pub fn settle(&mut self, config: &Config, changes: &Changes, prepared: &Prepared)
        ensures { self.new ≡ lookups_made config.now changes.now prepared.now self.old }
    {
        settle_unfinished(&mut self.unfinished, config, &changes.jobs);
        let at_request = leaves_request(changes.maker, &changes.requests, prepared.holder);
        leave(&mut self.requests, at_request);
        let at_node = leaves_node(changes.maker, &changes.nodes);
        leave(&mut self.nodes, at_node);
        let queue = prepared.queue.as_slice();
        remove(&mut self.nodes, removed_node(&changes.nodes), queue);
        let session = ending(&changes.sessions);
        end(self.alloc, &mut self.requests, session);
        end(self.alloc, &mut self.nodes, session);
        settle_owners(&mut self.owners, &changes.jobs);
    }
}
