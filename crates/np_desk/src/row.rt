//! Turns at an object, one after another.

ghost use Rattle.std.specs.Prelude.{◌≡◌, ℕ, List, true};
ghost use Rattle.np_desk.specs.Rule.{StartsWith};
ghost use Rattle.np_desk.specs.Series.{TookAtOnce, grown};

use crate::object::SeqObject;
use crate::series::Series;
use np_text::Ample;

/// Takes the turns of a series at an object, at most `most` of them.
pub(crate) fn take_turns<M: SeqObject, S: Series<Ask = M::Ask, Turn = M::Turn>>(
    object: &mut M,
    series: &mut S,
    most: u32,
) -> Ample
    requires legal { M.legal (M.fixed object.old) (M.history object.old) ≡ true }
    ensures fixed { M.fixed object.new ≡ M.fixed object.old }
    ensures legal { M.legal (M.fixed object.old) (M.history object.new) ≡ true }
    ensures begins { StartsWith (M.history object.new) (M.history object.old) }
    ensures turns { (mine : List ℕ) →
        TookAtOnce M.answers M.recorded S.asks S.hears (M.fixed object.old)
        (grown mine (M.history object.old) (M.history object.old)) series.old most result
        (grown mine (M.history object.old) (M.history object.new)) series.new }
{
    for _turn in 0..most {
        match series.ask() {
            None => return Ok(()),
            Some(ask) => {
                let turn = object.turn(ask)?;
                series.hear(turn);
            }
        }
    }
    Ok(())
}
