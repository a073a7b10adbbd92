//! The board as an object at which turns are taken.

use crate::board::Board;
use crate::board::plan::{PlanAsk, PlanTurn};
use np_config::Config;
use np_desk::SeqObject;
use np_event::Entry;
use np_text::NoMemory;

impl SeqObject for Board {
    ghost use Rattle.np_board.specs.Lower.{is_legal};
    ghost use Rattle.np_board.specs.Batch.{plan_answers, plan_recorded};

    type Ask = PlanAsk;

    type Entry = Entry;

    type Turn = PlanTurn;

    type Fixed = Config;

    ghost fixed = { λ b. b.configuration };

    ghost history = { λ b. b.journal };

    ghost legal = { is_legal };

    ghost answers = { plan_answers };

    ghost recorded = { plan_recorded };

    fn turn(&mut self, ask: PlanAsk) -> Result<PlanTurn, NoMemory> {
        self.take_turn(ask)
    }
}
