//! The steps of a turn, each one step on the desk's table.

ghost use Rattle.std.specs.Prelude.{◌≡◌, ℕ, ◌+◌, ◌<◌, ◌^◌, List, [], ◌++◌, length, IfOk, MatchResult};
ghost use Rattle.np_desk.specs.declared.view.Stage.TheVariants.{Idle, Waits, Has};
ghost use Rattle.np_desk.specs.Rule.{StartsWith};
ghost use Rattle.np_desk.specs.Step.{origin_of, IsDesk, IsAt, IsServed, at_stage, after_turn, KnowsMine, HasObject};
ghost use Rattle.np_desk.specs.Series.{TookAtOnce, grown, entries_of};

use crate::bell::bell;
use crate::object::SeqObject;
use crate::row::take_turns;
use crate::rule::{Draw, Law, Look, Post, Ring};
use crate::series::Series;
use crate::view::SeatView;
use atomic_table::{Seat, Shared};
use np_text::{Ample, NoMemory};
use std::snapshot::Snapshot;
use std::sync::Wait;
use std::thread::yield_now;

/// Draws a ticket. If all 2^64 - 1 were drawn, it waits forever.
pub fn draw<M: SeqObject, R: Wait>(
    rt: &R,
    table: &Shared<M, SeatView<M::Fixed, M::Entry>, Snapshot<M>, Law<M>>,
    seat: &mut Seat<M, SeatView<M::Fixed, M::Entry>>,
) -> u64
    requires table { (seat.old.table_id ≡ table.now.table_id) × IsDesk table.now.table_id }
    requires view { IsAt (origin_of M.fixed M.history table.now.key.value) Idle seat.old.me.0 }
    ensures table { seat.new.table_id ≡ seat.old.table_id }
    ensures ticket { result + 1 < 2 ^ 64 }
    ensures view { seat.new.me ≡ (at_stage seat.old.me.0 (Waits result), seat.old.me.1) }
{
    for _ in rt.forever() {
        let next = table.peek(0);
        if next < u64::MAX {
            let found = table.compare_exchange::<Draw>(seat, 0, next, next + 1);
            if found == next {
                return next;
            }
        }
        yield_now();
    }
    unreachable!()
}

/// Waits until the ticket is served, and takes the object. It reads the ticket's bell before it looks
/// which ticket is served, and sleeps only if the bell was not rung since: so it can't miss the ring.
pub fn take<M: SeqObject, R: Wait>(
    rt: &R,
    table: &Shared<M, SeatView<M::Fixed, M::Entry>, Snapshot<M>, Law<M>>,
    seat: &mut Seat<M, SeatView<M::Fixed, M::Entry>>,
    ticket: u64,
)
    requires table { (seat.old.table_id ≡ table.now.table_id) × IsDesk table.now.table_id }
    requires view { IsAt (origin_of M.fixed M.history table.now.key.value)
        (Waits ticket) seat.old.me.0 }
    requires nothing { seat.old.me.1 ≡ [] }
    ensures table { seat.new.table_id ≡ seat.old.table_id }
    ensures view { IsServed ticket seat.old.me.0 seat.new.me.0 }
    ensures object { HasObject M.history M.fixed M.legal (M.fixed table.now.key.value) seat.new.me
        (λ h. h ≡ seat.new.me.0.seen) }
{
    for _ in rt.forever() {
        let rung = table.peek(bell(ticket));
        let found = table.load::<Look<M>>(seat, 1);
        if found == ticket {
            return;
        }
        table.park(rt, bell(ticket), (rung % (1 << 32)) as u32);
    }
    unreachable!()
}

/// Asks the object, which the seat has.
pub fn ask<M: SeqObject>(
    table: &Shared<M, SeatView<M::Fixed, M::Entry>, Snapshot<M>, Law<M>>,
    seat: &mut Seat<M, SeatView<M::Fixed, M::Entry>>,
    ask: M::Ask,
) -> Result<M::Turn, NoMemory>
    requires table { seat.old.table_id ≡ table.now.table_id }
    requires object { HasObject M.history M.fixed M.legal (M.fixed table.now.key.value) seat.old.me
        (λ h. h ≡ seat.old.me.0.seen) }
    ensures same { (seat.new.table_id ≡ seat.old.table_id) × (seat.new.me.0 ≡ seat.old.me.0) }
    ensures object { HasObject M.history M.fixed M.legal (M.fixed table.now.key.value) seat.new.me
        (λ h. MatchResult result
        (λ t. h ≡ seat.old.me.0.seen ++ entries_of (M.recorded ask t))
        (λ _. h ≡ seat.old.me.0.seen)) }
    ensures answer { IfOk result (λ t.
        M.answers (M.fixed table.now.key.value) seat.old.me.0.seen ask t) }
{
    seat.slot_mut(table, 0).turn(ask)
}

/// Asks the object, which the seat has, what a series asks.
pub fn ask_in_row<M: SeqObject, S: Series<Ask = M::Ask, Turn = M::Turn>>(
    table: &Shared<M, SeatView<M::Fixed, M::Entry>, Snapshot<M>, Law<M>>,
    seat: &mut Seat<M, SeatView<M::Fixed, M::Entry>>,
    series: &mut S,
    most: u32,
) -> Ample
    requires table { seat.old.table_id ≡ table.now.table_id }
    requires object { HasObject M.history M.fixed M.legal (M.fixed table.now.key.value) seat.old.me
        (λ h. h ≡ seat.old.me.0.seen) }
    ensures same { (seat.new.table_id ≡ seat.old.table_id) × (seat.new.me.0 ≡ seat.old.me.0) }
    ensures object { HasObject M.history M.fixed M.legal (M.fixed table.now.key.value) seat.new.me
        (λ h. StartsWith h seat.old.me.0.seen
        × ((mine : List ℕ) → TookAtOnce M.answers M.recorded S.asks S.hears (M.fixed table.now.key.value)
        (grown mine seat.old.me.0.seen seat.old.me.0.seen) series.old most result
        (grown mine seat.old.me.0.seen h) series.new)) }
{
    take_turns(seat.slot_mut(table, 0), series, most)
}

/// Puts the object back, calls the next ticket and rings its bell, which wakes the threads that wait
/// at it. Each ticket is another number, so a bell that was rung has changed.
pub fn post<M: SeqObject>(
    table: &Shared<M, SeatView<M::Fixed, M::Entry>, Snapshot<M>, Law<M>>,
    seat: &mut Seat<M, SeatView<M::Fixed, M::Entry>>,
    ticket: u64,
)
    requires table { (seat.old.table_id ≡ table.now.table_id) × IsDesk table.now.table_id }
    requires ticket { ticket + 1 < 2 ^ 64 }
    requires view { IsAt (origin_of M.fixed M.history table.now.key.value)
        (Has ticket) seat.old.me.0 }
    requires object { HasObject M.history M.fixed M.legal (M.fixed table.now.key.value) seat.old.me
        (λ h. StartsWith h seat.old.me.0.seen) }
    ensures table { seat.new.table_id ≡ seat.old.table_id }
    ensures view { HasObject M.history M.fixed M.legal (M.fixed table.now.key.value) seat.old.me
        (λ h. (seat.new.me ≡ (after_turn seat.old.me.0 h, []))
        × KnowsMine (after_turn seat.old.me.0 h)) }
{
    let next = ticket + 1;
    table.store::<Post<M>>(seat, 1, next);
    table.store::<Ring>(seat, bell(next), next);
    table.wake_all(bell(next));
}
