//! What a seat at the desk's table knows. No value of these types is made: they are for clauses
//! alone.

use std::collections::LinkedList;

/// What the object was when its desk was set up.
pub struct Origin<F, E> {
    /// What no turn changes.
    pub fixed: F,
    /// The history at that time.
    pub history: LinkedList<E>,
}

pub enum Stage {
    Idle,
    /// It has this ticket.
    Waits(u64),
    /// It has this ticket, which is served, and the object.
    Has(u64),
}

pub struct SeatView<F, E> {
    /// None if the seat was joined to another.
    pub origin: Option<Origin<F, E>>,
    pub seen: LinkedList<E>,
    /// The places that it made.
    pub mine: LinkedList<u64>,
    /// Its share of the right to take turns.
    pub part: LinkedList<LinkedList<bool>>,
    /// What a seat that was joined to it had seen.
    pub told: LinkedList<E>,
    pub stage: Stage,
}
