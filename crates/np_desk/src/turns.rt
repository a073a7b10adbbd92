//! Whoever can take turns, at a desk or alone.

ghost use Rattle.std.specs.Prelude.{◌≡◌, List, Option};
ghost use Rattle.np_desk.specs.Step.{Place, Sight};
ghost use Rattle.np_desk.specs.Series.{Took, Turned};

use crate::series::Series;
use np_text::{Ample, NoMemory};

/// Takes turns at an object, and knows what it has seen of the history and which places in it are
/// its own.
pub trait Turns {
    /// What may be asked in a turn.
    type Ask: Copy;

    /// What is in the history.
    type Entry: Copy;

    /// What a turn answers.
    type Turn: Copy;

    /// What no turn changes. It is for clauses alone.
    type Fixed;

    /// Turns can be taken: the parts of this value belong together.
    ghost ready: { Self → Type 0 };

    /// What no turn changes.
    ghost fixed: { Self → Self.Fixed };

    /// The history so far as it was seen, and the places in it that were made through this value.
    ghost sight: { Self → Sight Self.Entry };

    /// The desk, and the part of the right to take turns at it. None if there is no desk.
    ghost place: { Self → Option (Place Self.Fixed Self.Entry) };

    /// The turn is an answer to the ask after the history.
    ghost answers: { Self.Fixed → List Self.Entry → Self.Ask → Self.Turn → Type 0 };

    /// The entry that a turn recorded, if any.
    ghost recorded: { Self.Ask → Self.Turn → Option Self.Entry };

    /// Takes a turn. If memory runs out, nothing of it is in the history.
    fn turn(&mut self, ask: Self::Ask) -> Result<Self::Turn, NoMemory>
        requires ready { ready self.old }
        ensures ready { ready self.new }
        ensures fixed { fixed self.new ≡ fixed self.old }
        ensures place { place self.new ≡ place self.old }
        ensures turn { Turned answers recorded (fixed self.old)
            (sight self.old) ask result (sight self.new) };

    /// Takes the turns of a series, at most `most` of them. If memory runs out, nothing of the last
    /// one is in the history, and the series has not heard of it.
    fn turns<S: Series<Ask = Self::Ask, Turn = Self::Turn>>(
        &mut self,
        series: &mut S,
        most: u32,
    ) -> Ample
        requires ready { ready self.old }
        ensures ready { ready self.new }
        ensures fixed { fixed self.new ≡ fixed self.old }
        ensures place { place self.new ≡ place self.old }
        ensures turns { Took answers recorded S.asks S.hears (fixed self.old)
            (sight self.old) series.old most result (sight self.new) series.new };
}
