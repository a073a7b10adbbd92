//! What is asked in turns one after another.

ghost use Rattle.std.specs.Prelude.{◌≡◌, Option};

/// Asks in one turn after another. What it asks next may follow from the answers that it heard. A copy
/// of it asks and hears on by itself.
pub trait Series: Copy {
    /// What may be asked in a turn.
    type Ask: Copy;

    /// What a turn answers.
    type Turn: Copy;

    /// What is asked next. None if the series is over.
    ghost asks: { Self → Option Self.Ask };

    /// What hearing an answer makes of the series.
    ghost hears: { Self → Self.Turn → Self → Type 0 };

    /// What is asked next. None if the series is over.
    fn ask(&self) -> Option<Self::Ask>
        ensures { result ≡ asks self.now };

    /// Hears the answer to what was asked.
    fn hear(&mut self, turn: Self::Turn)
        ensures { hears self.old turn self.new };
}
