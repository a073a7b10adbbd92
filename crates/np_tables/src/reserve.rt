//! The memory that an event needs, taken before anything changes.

ghost use Rattle.std.specs.Prelude.{◌≡◌, IfOk, OnOk};
ghost use Rattle.np_tables.specs.Lower.{by_maker, joined};
ghost use Rattle.np_tables.specs.CanChange.{IsRoomFor, queue_after};

use crate::handles::reserve_handles;
use crate::vectors::Vectors;
use np_changes::{Growth, Maker};
use np_machine::{Queue, RequestEntry};
use np_text::{NodeId, RequestId, SessionId};
use std::alloc::{AllocError, Global};
use std::marker::Model;

/// What was made beforehand for an event: the queue that its maker joins, with the maker at its end.
/// Other events need none, and theirs is empty.
#[derive(Drop)]
pub struct Reserved {
    pub(crate) queue: Queue<SessionId>,
}

impl Model for Reserved {
    ghost use Rattle.std.specs.Prelude.{List};
    ghost use Rattle.np_tables.specs.Lower.{SessionId};

    ghost Value = { List SessionId };

    ghost view = { λ reserved. reserved.queue };
}

/// A queue of these sessions.
fn copy_of(alloc: Global, sessions: &[SessionId]) -> Result<Queue<SessionId>, AllocError>
    ensures { IfOk result (λ queue. queue ≡ sessions.now) }
{
    let mut queue = Queue::new(alloc);
    for session in sessions {
        queue.push(*session)?;
    }
    Ok(queue)
}

/// A queue of these sessions, and then the maker, unless it is there.
fn joined_by(
    alloc: Global,
    maker: Option<Maker>,
    sessions: &[SessionId],
) -> Result<Queue<SessionId>, AllocError>
    ensures { IfOk result (λ queue. queue ≡ by_maker maker joined sessions.now) }
{
    let mut queue = copy_of(alloc, sessions)?;
    if let Some(maker) = maker {
        queue.join(maker.session)?;
    }
    Ok(queue)
}

impl Vectors {
    /// Takes the memory that the growth needs, and makes the queue that the maker joins. The state
    /// stays, whatever comes.
    pub(crate) fn reserve(
        &mut self,
        maker: Option<Maker>,
        growth: &Growth,
    ) -> Result<Reserved, AllocError>
        ensures state { self.new.state ≡ self.old.state }
        ensures room { OnOk result (IsRoomFor growth.now self.new.room) }
        ensures queue { IfOk result (λ reserved.
            reserved ≡ queue_after maker growth.now self.old.state) }
    {
        self.reserve_row(growth)?;
        let queue = self.queue_after(maker, growth)?;
        Ok(Reserved { queue })
    }

    /// Room for one more row of the table that grows.
    fn reserve_row(&mut self, growth: &Growth) -> Result<(), AllocError>
        ensures state { self.new.state ≡ self.old.state }
        ensures ok { OnOk result (IsRoomFor growth.now self.new.room) }
    {
        match growth {
            Growth::Nothing
            | Growth::JoinRequest { request: _ }
            | Growth::JoinNode { node: _ }
            | Growth::Allocate { .. } => Ok(()),
            Growth::Session { role: _ } => self.sessions.reserve(1),
            Growth::Registration { pool: _ } => self.registrations.reserve(1),
            Growth::Request { .. } => self.requests.reserve(),
            Growth::Node { kept: _ } => self.nodes.reserve(),
            Growth::Handles { job: _ } => reserve_handles(&mut self.handles),
            Growth::Swept { .. } => self.swept.reserve(),
        }
    }

    /// The queue that the maker joins, with the maker at its end.
    fn queue_after(
        &self,
        maker: Option<Maker>,
        growth: &Growth,
    ) -> Result<Queue<SessionId>, AllocError>
        ensures { IfOk result (λ queue. queue ≡ queue_after maker growth.now self.now.state) }
    {
        match growth {
            Growth::Node { kept: _ } => joined_by(self.alloc, maker, &[]),
            Growth::JoinRequest { request } => {
                joined_by(self.alloc, maker, self.request_queue(*request))
            }
            Growth::JoinNode { node } | Growth::Allocate { node, .. } => {
                joined_by(self.alloc, maker, self.node_queue(*node))
            }
            Growth::Nothing
            | Growth::Session { role: _ }
            | Growth::Registration { pool: _ }
            | Growth::Request { .. }
            | Growth::Handles { job: _ }
            | Growth::Swept { .. } => Ok(Queue::new(self.alloc)),
        }
    }
}
