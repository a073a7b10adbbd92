//! The queues of locks, which contracts see as lists.

ghost use Rattle.std.specs.Prelude.{◌≡◌, ◌≤◌, ◌∷◌, ◌++◌, [], length, OnOk, OnErr};
ghost use Rattle.np_machine.specs.Tables.{holder, is_queued, ahead_of, joined, left};

use np_text::SessionId;
use std::alloc::{AllocError, Global};
use std::marker::Model;

/// A list in order of joining.
#[derive(Drop)]
pub struct Queue<T> {
    items: Vec<T>,
}

impl<T> Model for Queue<T> {
    ghost use Rattle.std.specs.Prelude.{List};

    ghost Value = { List T };

    ghost view = { λ queue. queue.items.items };
}

impl<T> Queue<T> {
    /// An empty queue. It takes no memory.
    pub fn new(alloc: Global) -> Queue<T>
        ensures { result ≡ [] }
    {
        Queue {
            items: Vec::new(alloc),
        }
    }

    /// The members, the first to join first.
    pub fn items(&self) -> &[T]
        ensures { result.now ≡ self.now }
    {
        self.items.as_slice()
    }

    /// Adds a member at the end.
    pub fn push(&mut self, member: T) -> Result<(), AllocError>
    where
        T: Drop,
        ensures ok { OnOk result (self.new ≡ self.old ++ member ∷ []) }
        ensures err { OnErr result (self.new ≡ self.old) }
    {
        self.items.push(member)?;
        Ok(())
    }
}

/// Who holds the lock of this queue: its first session.
pub fn holder_of(queue: &[SessionId]) -> Option<SessionId>
    ensures { result ≡ holder queue.now }
{
    queue.first().copied()
}

/// Whether the session is in the queue.
pub fn is_in(queue: &[SessionId], session: SessionId) -> bool
    ensures { result ≡ is_queued session queue.now }
{
    queue.iter().any(|other| other.0 == session.0)
}

/// How many sessions are before this one, or in all if it is not there.
pub fn count_ahead(queue: &[SessionId], session: SessionId) -> usize
    ensures ahead { result ≡ ahead_of session queue.now }
    ensures few { result ≤ length queue.now }
{
    let mut ahead = 0;
    for other in queue {
        if other.0 == session.0 {
            return ahead;
        }
        ahead += 1;
    }
    ahead
}

impl Queue<SessionId> {
    /// The session joins at the end, unless it is already there.
    pub fn join(&mut self, session: SessionId) -> Result<(), AllocError>
        ensures ok { OnOk result (self.new ≡ joined session self.old) }
        ensures err { OnErr result (self.new ≡ self.old) }
    {
        if is_in(self.items.as_slice(), session) {
            return Ok(());
        }
        self.items.push(session)?;
        Ok(())
    }

    /// The session leaves.
    pub fn leave(&mut self, session: SessionId)
        ensures { self.new ≡ left session self.old }
    {
        drop_session(&mut self.items, session);
    }
}

fn drop_session(sessions: &mut Vec<SessionId>, session: SessionId)
    ensures { sessions.new.items ≡ left session sessions.old.items }
{
    sessions.retain(|other| other.0 != session.0);
}
