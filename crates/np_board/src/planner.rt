//! Turns at the desk of a board, of launchers that plan and of others.

ghost use Rattle.std.specs.Prelude.{◌≡◌, IfOk, Some};
ghost use Rattle.np_board.specs.Lower.{IsOf, Took, Turned, WasUseful, answers_also, recorded, sight_of};
ghost use Rattle.np_board.specs.Outstanding.{HasEnded, TookWithTicket, TookWithTickets, launchers_before};

use crate::batch::{Batch, Stage};
use crate::board::Board;
use crate::once::Once;
use np_config::Config;
use np_desk::{Desk, Pass, Series, Turns};
use np_event::Entry;
use np_text::{Ample, NoMemory};
use np_worker::{Ask, Turn};
use std::sync::Wait;

/// A pass beside the desk of a board. A turn may wait for the turns of others.
/// Whoever asks need not know of plans: the turn of a launcher is several at the desk.
#[derive(Drop)]
pub struct Planner<'a, R: Wait> {
    pub rt: &'a R,
    pub desk: &'a Desk<Board>,
    pub pass: Pass<Board>,
}

impl<'a, R: Wait> Planner<'a, R> {
    /// Takes the turns of the series that come with one ticket. After four tickets in which nothing
    /// was committed the launcher asks without a plan.
    fn ticket<S: Series<Ask = Ask, Turn = Turn>>(
        &mut self,
        series: &mut S,
        left: &mut u32,
        tries: u32,
    ) -> Ample
        requires own { IsOf self.old.pass self.old.desk.now }
        ensures own { IsOf self.new.pass self.new.desk.now }
        ensures desk { self.new.desk.now ≡ self.old.desk.now }
        ensures part { self.new.pass.part ≡ self.old.pass.part }
        ensures turns { TookWithTicket S.asks S.hears self.old.desk.now.origin.fixed
            (sight_of self.old.pass) series.old left.old (sight_of self.new.pass) series.new left.new }
    {
        let stage = if tries < 4 {
            Stage::Committing
        } else {
            Stage::Asking
        };
        let mut batch = Batch {
            series: *series,
            left: *left,
            stage,
        };
        let most = left.saturating_mul(2).saturating_add(4);
        let end = self.pass.turns(self.rt, self.desk, &mut batch, most);
        *series = batch.series;
        *left = batch.left;
        end
    }

    /// Takes the turns of the series until it is over, or no more are left.
    fn tickets<S: Series<Ask = Ask, Turn = Turn>>(
        &mut self,
        series: &mut S,
        left: &mut u32,
    ) -> Ample
        requires own { IsOf self.old.pass self.old.desk.now }
        ensures own { IsOf self.new.pass self.new.desk.now }
        ensures desk { self.new.desk.now ≡ self.old.desk.now }
        ensures part { self.new.pass.part ≡ self.old.pass.part }
        ensures turns { TookWithTickets S.asks S.hears self.old.desk.now.origin.fixed
            (sight_of self.old.pass) series.old left.old (sight_of self.new.pass) series.new left.new }
        ensures ended { IfOk result (λ _. HasEnded S.asks series.new left.new) }
    {
        let mut tries: u32 = 0;
        for _ in self.rt.forever() {
            if *left == 0 {
                return Ok(());
            }
            let Some(_) = series.ask() else {
                return Ok(());
            };
            let before = *left;
            self.ticket(series, left, tries)?;
            tries = if *left < before {
                0
            } else {
                tries.saturating_add(1)
            };
        }
        unreachable!()
    }

    /// Takes the turns of a series, at most `most` of them. An event that a launcher commits takes one
    /// ticket, and the turns of others in a row take one together.
    pub fn take_turns<S: Series<Ask = Ask, Turn = Turn>>(
        &mut self,
        series: &mut S,
        most: u32,
    ) -> Ample
        requires own { IsOf self.old.pass self.old.desk.now }
        ensures own { IsOf self.new.pass self.new.desk.now }
        ensures desk { self.new.desk.now ≡ self.old.desk.now }
        ensures part { self.new.pass.part ≡ self.old.pass.part }
        ensures turns { Took (answers_also launchers_before) recorded S.asks S.hears
            self.old.desk.now.origin.fixed (sight_of self.old.pass) series.old most result
            (sight_of self.new.pass) series.new }
    {
        let mut left = most;
        self.tickets(series, &mut left)
    }

    /// Takes the turn that the ask names. A launcher's has at most five tickets, and most often one
    /// to plan and one to commit.
    pub fn take_turn(&mut self, ask: Ask) -> Result<Turn, NoMemory>
        requires own { IsOf self.old.pass self.old.desk.now }
        ensures own { IsOf self.new.pass self.new.desk.now }
        ensures desk { self.new.desk.now ≡ self.old.desk.now }
        ensures part { self.new.pass.part ≡ self.old.pass.part }
        ensures turn { Turned (answers_also launchers_before) recorded
            self.old.desk.now.origin.fixed (sight_of self.old.pass) ask result
            (sight_of self.new.pass) }
    {
        let mut once = Once { ask, turn: None };
        let mut left = 1;
        let end = self.tickets(&mut once, &mut left);
        match once.turn {
            Some(turn) => Ok(turn),
            None => match end {
                Err(error) => Err(error),
                // A series that is over has heard a turn.
                Ok(()) => unreachable!(),
            },
        }
    }
}

impl<'a, R: Wait> Turns for Planner<'a, R> {
    type Ask = Ask;

    type Entry = Entry;

    type Turn = Turn;

    type Fixed = Config;

    ghost ready = { λ o. IsOf o.pass o.desk.now };

    ghost fixed = { λ o. o.desk.now.origin.fixed };

    ghost sight = { λ o. sight_of o.pass };

    ghost place = { λ o. Some record { desk = o.desk.now; part = o.pass.part } };

    ghost answers = { answers_also WasUseful };

    ghost recorded = { recorded };

    fn turn(&mut self, ask: Ask) -> Result<Turn, NoMemory> {
        self.take_turn(ask)
    }

    fn turns<S: Series<Ask = Ask, Turn = Turn>>(&mut self, series: &mut S, most: u32) -> Ample {
        self.take_turns(series, most)
    }
}
