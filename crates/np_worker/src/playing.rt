//! The turns of a worker that come one after another.

ghost use Rattle.np_worker.specs.Stage.{asks, Hears};

use crate::stage::{Stage, after_turn, ask_of};
use crate::{Ask, Turn};
use np_desk::Series;

/// The series of turns from a stage on, until a launch or a removal comes, or the roles have taken
/// their turns. It counts the entries of the round.
#[derive(Clone, Copy)]
pub(crate) struct Playing {
    pub stage: Stage,
    /// At most 2^64 - 1, however many there are.
    pub entries: u64,
}

impl Series for Playing {
    type Ask = Ask;

    type Turn = Turn;

    ghost asks = { asks };

    ghost hears = { Hears };

    fn ask(&self) -> Option<Ask> {
        ask_of(self.stage)
    }

    fn hear(&mut self, turn: Turn) {
        self.stage = after_turn(self.stage, turn);
        if let Turn::Did(_) = turn {
            self.entries = self.entries.saturating_add(1);
        }
    }
}
