//! Turns at a desk.

ghost use Rattle.std.specs.Prelude.{◌≡◌, Some};
ghost use Rattle.np_desk.specs.Step.{IsOf, sight_of};

use crate::desk::Desk;
use crate::object::SeqObject;
use crate::pass::Pass;
use crate::series::Series;
use crate::turns::Turns;
use np_text::{Ample, NoMemory};
use std::sync::Wait;

/// A pass beside its desk. A turn may wait for the turns of others.
#[derive(Drop)]
pub struct OnDesk<'a, R: Wait, M: SeqObject> {
    pub rt: &'a R,
    pub desk: &'a Desk<M>,
    pub pass: Pass<M>,
}

impl<'a, R: Wait, M: SeqObject> Turns for OnDesk<'a, R, M> {
    type Ask = M::Ask;

    type Entry = M::Entry;

    type Turn = M::Turn;

    type Fixed = M::Fixed;

    ghost ready = { λ o. IsOf o.pass o.desk.now };

    ghost fixed = { λ o. o.desk.now.origin.fixed };

    ghost sight = { λ o. sight_of o.pass };

    ghost place = { λ o. Some record { desk = o.desk.now; part = o.pass.part } };

    ghost answers = { M.answers };

    ghost recorded = { M.recorded };

    fn turn(&mut self, ask: M::Ask) -> Result<M::Turn, NoMemory> {
        self.pass.turn(self.rt, self.desk, ask)
    }

    fn turns<S: Series<Ask = M::Ask, Turn = M::Turn>>(
        &mut self,
        series: &mut S,
        most: u32,
    ) -> Ample {
        self.pass.turns(self.rt, self.desk, series, most)
    }
}
