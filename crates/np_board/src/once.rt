//! A series of one turn.

ghost use Rattle.np_board.specs.Batch.{asks_once, hears_once};

use np_desk::Series;
use np_worker::{Ask, Turn};

/// One ask, and its answer once it has been heard.
#[derive(Clone, Copy)]
pub(crate) struct Once {
    pub(crate) ask: Ask,
    pub(crate) turn: Option<Turn>,
}

impl Series for Once {
    type Ask = Ask;

    type Turn = Turn;

    ghost asks = { asks_once };

    ghost hears = { hears_once };

    fn ask(&self) -> Option<Ask> {
        match self.turn {
            None => Some(self.ask),
            Some(_) => None,
        }
    }

    fn hear(&mut self, turn: Turn) {
        self.turn = Some(turn);
    }
}
