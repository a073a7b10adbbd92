//! Turns at an object that no other thread has.

ghost use Rattle.std.specs.Prelude.{◌≡◌, true, None};
ghost use Rattle.np_desk.specs.Step.{whole_sight};

use crate::object::SeqObject;
use crate::row::take_turns;
use crate::series::Series;
use crate::turns::Turns;
use np_text::{Ample, NoMemory};

/// An object in whose history every place is one's own.
#[derive(Drop)]
pub struct Alone<M: SeqObject> {
    pub object: M,
}

impl<M: SeqObject> Turns for Alone<M> {
    type Ask = M::Ask;

    type Entry = M::Entry;

    type Turn = M::Turn;

    type Fixed = M::Fixed;

    ghost ready = { λ a. M.legal (M.fixed a.object) (M.history a.object) ≡ true };

    ghost fixed = { λ a. M.fixed a.object };

    ghost sight = { λ a. whole_sight (M.history a.object) };

    ghost place = { λ _. None };

    ghost answers = { M.answers };

    ghost recorded = { M.recorded };

    fn turn(&mut self, ask: M::Ask) -> Result<M::Turn, NoMemory> {
        self.object.turn(ask)
    }

    fn turns<S: Series<Ask = M::Ask, Turn = M::Turn>>(
        &mut self,
        series: &mut S,
        most: u32,
    ) -> Ample {
        take_turns(&mut self.object, series, most)
    }
}
