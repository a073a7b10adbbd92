//! What the changes of an event make of an index.

ghost use Rattle.std.specs.Prelude.{◌≡◌, IfOk, OnErr};
ghost use Rattle.np_index.specs.Lower.{Configuration, Fits, IsPlanned, IsReached, SessionId, State, changed};
ghost use Rattle.np_changes.specs.declared.changes.SessionsChange.TheVariants as sessions;
ghost use Rattle.np_index.specs.Index.{IsIndexOf, HasRoomFor, IsPreparedFor};

use crate::index::Index;
use crate::{Rest, first_rest};
use np_changes::{Changes, SessionsChange};
use np_classes::{Touched, touched_by};
use np_look::Rows;
use np_lookups::Moved;
use np_text::SessionId;
use std::alloc::{AllocError, Global};
use std::marker::Model;

/// What `Index::prepare` found, for `note` and `take_back`.
#[derive(Drop)]
pub struct Prepared {
    touched: Touched,
    past: np_classes::Past,
    before: Option<Rest>,
    moved: Moved,
    placed: np_active::Past,
    given: np_active::Prepared,
    lookups: np_lookups::Prepared,
}

impl Model for Prepared {
    ghost use Rattle.np_index.specs.Index.{PreparedOf};

    ghost Value = { PreparedOf };

    ghost view = { λ prepared. record {
      touched = prepared.touched;
      past = prepared.past;
      before = prepared.before;
      moved = prepared.moved;
      placed = prepared.placed;
      given = prepared.given;
      lookups = prepared.lookups;
    } };
}

/// The session that ends, or else 0, which is the number of no session. An index that is prepared
/// for the changes still has the queues of a session that ends.
pub fn ending(change: &SessionsChange) -> SessionId
    ensures { (session : SessionId) → change.now ≡ sessions.End session → result ≡ session }
{
    match change {
        SessionsChange::End { session } => *session,
        SessionsChange::Same | SessionsChange::Mute { .. } => SessionId(0),
    }
}

impl Index {
    /// Before the state changes: takes the memory that `note` needs, lists what the changes touch,
    /// and adds what they let grow to the lookups. If memory runs out, this is still the index of
    /// the state. So it is if a session ends, since nothing grows then: until `note` its queues can
    /// be read.
    ///
    /// It costs a few lookups for each node that the changes touch, for a request whose record they
    /// change a few and one for each pool, for one that pools declined a scan of its declines for
    /// each of the 64 pools, and two lookups for each request whose queue alone changes. A session
    /// that ends touches the nodes and the requests in whose queues it is.
    pub fn prepare<R: Rows>(
        &mut self,
        alloc: Global,
        rows: &R,
        changes: &Changes,
    ) -> Result<Prepared, AllocError>
        requires reached { IsReached (R.site rows.now) (R.state rows.now) }
        requires fits { Fits (R.site rows.now) (R.state rows.now) }
        requires planned { IsPlanned (R.site rows.now) (R.state rows.now) changes.now }
        requires index { IsIndexOf (R.site rows.now) (R.state rows.now) self.old }
        ensures ok { IfOk result (λ prepared.
            IsPreparedFor (R.site rows.now) (R.state rows.now) changes.now prepared self.new) }
        ensures err { OnErr result (IsIndexOf (R.site rows.now) (R.state rows.now) self.new) }
    {
        let session = ending(&changes.sessions);
        let nodes = self.lookups.nodes_of(session);
        let requests = self.lookups.requests_of(session);
        let touched = touched_by(alloc, rows, changes, nodes, requests)?;
        let past = self.classes.prepare(alloc, rows, &touched)?;
        let before = first_rest(rows, touched.requests());
        let moved = self.requested.prepare(alloc, rows, touched.requests())?;
        let placed = self.active.prepare(alloc, rows, &touched)?;
        let given = self.given.prepare(alloc, rows, changes, touched.nodes())?;
        let lookups = self.lookups.prepare(rows, changes)?;
        Ok(Prepared {
            touched,
            past,
            before,
            moved,
            placed,
            given,
            lookups,
        })
    }

    /// Undoes `prepare`, since the state could not change. It costs a lookup in the list that grew.
    pub fn take_back(&mut self, changes: &Changes, prepared: &Prepared)
        ensures { (c : Configuration) (s : State)
            → IsPreparedFor c s changes.now prepared.now self.old → IsIndexOf c s self.new }
    {
        self.lookups.take_back(changes, &prepared.lookups);
    }

    /// After the state has changed: makes the index that of the changed state. It takes no memory.
    ///
    /// It costs a few lookups for each node and request that was listed, a few binary searches for
    /// each group that one of them leaves or joins, and both for each job and session that the
    /// changes touch. A request whose record changed costs a lookup for each pool as well, and if it
    /// is requested, and a pool declined it or it is pinned, its declines are read a few times for
    /// each pool.
    pub fn note<R: Rows>(&mut self, rows: &R, changes: &Changes, prepared: &Prepared)
        requires room { HasRoomFor (R.site rows.now) prepared.now self.old }
        ensures { (c : Configuration) (s : State) → IsReached c s → IsPlanned c s changes.now
            → IsPreparedFor c s changes.now prepared.now self.old
            → R.site rows.now ≡ c → R.state rows.now ≡ changed c changes.now s
            → IsIndexOf c (changed c changes.now s) self.new }
    {
        self.lookups
            .settle(rows.config(), changes, &prepared.lookups);
        self.classes.note(rows, &prepared.past);
        self.awaited
            .note(rows, prepared.touched.requests(), prepared.before);
        self.requested.note(rows, &prepared.moved);
        self.active.note(rows, &prepared.placed);
        self.given.note(rows, &prepared.given);
    }
}
