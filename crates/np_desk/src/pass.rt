//! The passes of those who take turns at a desk.

ghost use Rattle.std.specs.Prelude.{◌≡◌, List, [], ◌∷◌, length, Bool, true, IfSome};
ghost use Rattle.np_desk.specs.Rule.{StartsWith, AreRising, added, merged};
ghost use Rattle.np_desk.specs.Part.{IsWhole, first_half, second_half, joined};
ghost use Rattle.np_desk.specs.Step.{PassView, IsOf, IsAllMine, sight_of, pass_view, IsPass};
ghost use Rattle.np_desk.specs.Series.{TookAtOnce, Turned};

use crate::desk::Desk;
use crate::object::SeqObject;
use crate::rule::{Halve, Learn, Unite};
use crate::series::Series;
use crate::step;
use crate::view::SeatView;
use atomic_table::Seat;
use np_text::{Ample, NoMemory};
use std::marker::Model;
use std::sync::Wait;

/// A thread's right to take turns at a desk, and what it knows of the history. It has no bytes. A
/// pass that is dropped takes its part with it, and the desk can then not be closed.
#[derive(Drop)]
pub struct Pass<M: SeqObject> {
    pub(crate) seat: Seat<M, SeatView<M::Fixed, M::Entry>>,
}

impl<M: SeqObject> Model for Pass<M> {
    ghost Value = { PassView M.Fixed M.Entry };

    ghost view = { λ p. pass_view p.seat.table_id p.seat.me.0 };

    ghost invariant = { λ p. IsPass M.legal p.seat.me };
}

impl<M: SeqObject> Pass<M> {
    /// Guarantees what is true of every pass: what it has seen is legal and begins with the history
    /// of the set-up, its places rise within that, and if it is whole they are all that were added.
    pub fn know(&self)
        ensures rising { AreRising 0 self.now.mine (length self.now.seen) }
        ensures legal { IfSome self.now.origin (λ o. M.legal o.fixed self.now.seen ≡ true) }
        ensures begins { IfSome self.now.origin (λ o. StartsWith self.now.seen o.history) }
        ensures whole { IsWhole self.now.part
            → IfSome self.now.origin (λ o. self.now.mine ≡ added o.history self.now.seen) }
    {
        let _ = &self.seat;
    }

    /// Takes a turn at the object: draws a ticket, waits until it is served, asks, and calls the
    /// next ticket, even if memory ran out. Wakes the threads that wait at the next ticket's bell: one
    /// at most, if no more than 64 wait at the desk.
    pub fn turn<R: Wait>(
        &mut self,
        rt: &R,
        desk: &Desk<M>,
        ask: M::Ask,
    ) -> Result<M::Turn, NoMemory>
        requires own { IsOf self.old desk.now }
        ensures own { IsOf self.new desk.now }
        ensures turn { Turned M.answers M.recorded desk.now.origin.fixed
            (sight_of self.old) ask result (sight_of self.new) }
        ensures legal { M.legal desk.now.origin.fixed self.new.seen ≡ true }
        ensures part { self.new.part ≡ self.old.part }
        ensures whole { IsAllMine self.new desk.now }
    {
        let table = &desk.table.shared;
        let seat = &mut self.seat;
        let ticket = step::draw(rt, table, seat);
        step::take(rt, table, seat, ticket);
        let turn = step::ask(table, seat, ask);
        step::post(table, seat, ticket);
        turn
    }

    /// Takes the turns of a series with one ticket, at most `most` of them, and then calls the next
    /// ticket, even if memory ran out. The threads that wait, wait for all of these turns.
    pub fn turns<R: Wait, S: Series<Ask = M::Ask, Turn = M::Turn>>(
        &mut self,
        rt: &R,
        desk: &Desk<M>,
        series: &mut S,
        most: u32,
    ) -> Ample
        requires own { IsOf self.old desk.now }
        ensures own { IsOf self.new desk.now }
        ensures turns { TookAtOnce M.answers M.recorded S.asks S.hears desk.now.origin.fixed
            (sight_of self.old) series.old most result (sight_of self.new) series.new }
        ensures legal { M.legal desk.now.origin.fixed self.new.seen ≡ true }
        ensures part { self.new.part ≡ self.old.part }
        ensures whole { IsAllMine self.new desk.now }
    {
        let table = &desk.table.shared;
        let seat = &mut self.seat;
        let ticket = step::draw(rt, table, seat);
        step::take(rt, table, seat, ticket);
        let end = step::ask_in_row(table, seat, series, most);
        step::post(table, seat, ticket);
        end
    }

    /// Gives half of the part to a new pass, which has seen the same and made nothing.
    pub fn split(&mut self, desk: &Desk<M>) -> Pass<M>
        requires own { IsOf self.old desk.now }
        ensures kept { self.new ≡ record self.old { part = first_half self.old.part } }
        ensures given { result ≡ record self.old { mine = []; part = second_half self.old.part } }
    {
        let seat = desk.table.shared.split_seat::<Halve>(&mut self.seat);
        Pass { seat }
    }

    /// Takes in another pass: this one has then seen what both saw, and made what both made. If the
    /// other has the half that this one gave away last, the part is as before that split.
    pub fn join(&mut self, desk: &Desk<M>, other: Pass<M>)
        requires own { IsOf self.old desk.now }
        requires other { IsOf other desk.now }
        ensures own { IsOf self.new desk.now }
        ensures seen { StartsWith self.new.seen self.old.seen }
        ensures told { StartsWith self.new.seen other.seen }
        ensures mine { self.new.mine ≡ merged self.old.mine other.mine }
        ensures legal { M.legal desk.now.origin.fixed self.new.seen ≡ true }
        ensures part { self.new.part ≡ joined self.old.part other.part }
        ensures back { (w : List Bool) → self.old.part ≡ first_half (w ∷ [])
            → other.part ≡ second_half (w ∷ []) → self.new.part ≡ w ∷ [] }
        ensures whole { IsAllMine self.new desk.now }
    {
        let Pass { seat } = other;
        desk.table.shared.join_seat::<Unite>(&mut self.seat, seat);
        desk.table.shared.load::<Learn<M>>(&mut self.seat, 0);
    }

    /// Sees what another pass has seen. Each keeps its places, and this one gets half of the
    /// other's part.
    pub fn meet(&mut self, desk: &Desk<M>, other: &mut Pass<M>)
        requires own { IsOf self.old desk.now }
        requires other { IsOf other.old desk.now }
        ensures own { IsOf self.new desk.now }
        ensures seen { StartsWith self.new.seen self.old.seen }
        ensures told { StartsWith self.new.seen other.old.seen }
        ensures mine { self.new.mine ≡ self.old.mine }
        ensures legal { M.legal desk.now.origin.fixed self.new.seen ≡ true }
        ensures part { self.new.part ≡ joined self.old.part (second_half other.old.part) }
        ensures other { other.new ≡ record other.old { part = first_half other.old.part } }
    {
        let half = other.split(desk);
        self.join(desk, half);
    }
}
