//! Turns at the desk of a board, of those who plan nothing.

ghost use Rattle.std.specs.Prelude.{Some};
ghost use Rattle.np_rounds.specs.Lower.{IsOf, answers, recorded, sight_of};
ghost use Rattle.np_rounds.specs.Played.{HearsPlain, asks_plain};

use np_board::{Board, PlanAsk, PlanTurn};
use np_config::Config;
use np_desk::{Desk, Pass, Series, Turns};
use np_event::Entry;
use np_text::{Ample, NoMemory};
use np_worker::{Ask, Turn};
use std::sync::Wait;

/// A series that asks without a plan.
#[derive(Clone, Copy)]
struct PlainSeries<S> {
    series: S,
}

impl<S: Series<Ask = Ask, Turn = Turn>> Series for PlainSeries<S> {
    type Ask = PlanAsk;

    type Turn = PlanTurn;

    ghost asks = { asks_plain S.asks };

    ghost hears = { HearsPlain S.hears };

    fn ask(&self) -> Option<PlanAsk> {
        match self.series.ask() {
            None => None,
            Some(ask) => Some(PlanAsk::Plain(ask)),
        }
    }

    fn hear(&mut self, turn: PlanTurn) {
        // No other turn answers such an ask.
        if let PlanTurn::Plain(turn) = turn {
            self.series.hear(turn);
        }
    }
}

/// A pass beside the desk of a board. Whoever has it plans nothing. It may wait for the turns of
/// others.
#[derive(Drop)]
pub(crate) struct PlainTurns<'a, R: Wait> {
    pub(crate) rt: &'a R,
    pub(crate) desk: &'a Desk<Board>,
    pub(crate) pass: Pass<Board>,
}

impl<'a, R: Wait> Turns for PlainTurns<'a, R> {
    type Ask = Ask;

    type Entry = Entry;

    type Turn = Turn;

    type Fixed = Config;

    ghost ready = { λ o. IsOf o.pass o.desk.now };

    ghost fixed = { λ o. o.desk.now.origin.fixed };

    ghost sight = { λ o. sight_of o.pass };

    ghost place = { λ o. Some record { desk = o.desk.now; part = o.pass.part } };

    ghost answers = { answers };

    ghost recorded = { recorded };

    fn turn(&mut self, ask: Ask) -> Result<Turn, NoMemory> {
        match self.pass.turn(self.rt, self.desk, PlanAsk::Plain(ask))? {
            PlanTurn::Plain(turn) => Ok(turn),
            // No other turn answers such an ask.
            _ => unreachable!(),
        }
    }

    fn turns<S: Series<Ask = Ask, Turn = Turn>>(&mut self, series: &mut S, most: u32) -> Ample {
        let mut plain = PlainSeries { series: *series };
        let end = self.pass.turns(self.rt, self.desk, &mut plain, most);
        *series = plain.series;
        end
    }
}
