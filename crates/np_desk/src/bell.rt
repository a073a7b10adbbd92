//! The bells by which threads that wait are woken.
//!
//! A thread waits at the bell of its ticket, and the bell of a ticket is rung once the ticket is
//! served. So a turn wakes only those threads that wait at one bell, and not all that wait.

ghost use Rattle.std.specs.Prelude.{◌≡◌, ◌+◌, ◌%◌, ◌<◌};

/// How many words a desk's table has: two for tickets, and 64 bells.
pub(crate) const WORDS: usize = 66;

/// The word of the ticket's bell.
pub(crate) fn bell(ticket: u64) -> usize
    ensures word { result ≡ 2 + ticket % 64 }
    ensures within { result < 66 }
{
    2 + (ticket % 64) as usize
}
