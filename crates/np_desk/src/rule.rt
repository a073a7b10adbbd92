//! The rule of the desk's table, and what is learned from each kind of step.

ghost use Rattle.np_desk.specs.Rule.{Kept};
ghost use Rattle.np_desk.specs.Step.{origin_of, first_view, spent, drew, looked, posted, rung, learned, left_half, right_half, both_views};

use crate::object::SeqObject;
use crate::view::SeatView;
use atomic_table::{Join, Play, Split, TableRule};
use std::marker::PhantomData;
use std::snapshot::Snapshot;

/// Word 0 is the next ticket, word 1 the one that is served, the other words are bells, and slot 0
/// holds the object.
pub struct Law<M> {
    object: PhantomData<M>,
}

impl<M: SeqObject> TableRule<M, SeatView<M::Fixed, M::Entry>, Snapshot<M>> for Law<M> {
    ghost holds = { λ key. Kept M.history M.fixed M.legal (origin_of M.fixed M.history key.value) };

    ghost first = { λ key. first_view (origin_of M.fixed M.history key.value) };
}

/// A ticket is drawn.
pub struct Draw;

impl<M, F, E> Play<M, SeatView<F, E>> for Draw {
    ghost then = { drew };
}

/// The ticket that is served is read, and the object is taken if the ticket is the seat's.
pub struct Look<M> {
    object: PhantomData<M>,
}

impl<M: SeqObject> Play<M, SeatView<M::Fixed, M::Entry>> for Look<M> {
    ghost then = { looked M.history M.fixed M.legal };
}

/// The object is put back, and the next ticket is called.
pub struct Post<M> {
    object: PhantomData<M>,
}

impl<M: SeqObject> Play<M, SeatView<M::Fixed, M::Entry>> for Post<M> {
    ghost then = { posted M.history };
}

/// A bell is rung.
pub struct Ring;

impl<M, F, E> Play<M, SeatView<F, E>> for Ring {
    ghost then = { rung };
}

/// All of the history so far is seen.
pub struct Learn<M> {
    object: PhantomData<M>,
}

impl<M: SeqObject> Play<M, SeatView<M::Fixed, M::Entry>> for Learn<M> {
    ghost then = { learned M.legal };
}

/// A seat is split.
pub struct Halve;

impl<F, E> Split<SeatView<F, E>> for Halve {
    ghost left = { left_half };

    ghost right = { right_half };
}

/// A seat takes in another.
pub struct Unite;

impl<F, E> Join<SeatView<F, E>> for Unite {
    ghost both = { both_views };

    ghost spent = { spent };
}
