//! The object that turns are taken at.

ghost use Rattle.std.specs.Prelude.{◌≡◌, List, ◌++◌, Bool, true, IfOk, Option, MatchResult};
ghost use Rattle.np_desk.specs.Series.{entries_of};

use np_text::NoMemory;

/// An object that answers one ask at a time, and keeps a history of entries. A turn adds the entry
/// that it records, if any, and nothing else.
pub trait SeqObject {
    /// What may be asked in a turn.
    type Ask: Copy;

    /// What is in the history.
    type Entry: Copy;

    /// What a turn answers.
    type Turn: Copy;

    /// What no turn changes. It is for clauses alone.
    type Fixed;

    /// What no turn changes.
    ghost fixed: { Self → Self.Fixed };

    /// The entries of all turns, in order.
    ghost history: { Self → List Self.Entry };

    /// Whether a history is one that turns can make.
    ghost legal: { Self.Fixed → List Self.Entry → Bool };

    /// The turn is an answer to the ask after the history.
    ghost answers: { Self.Fixed → List Self.Entry → Self.Ask → Self.Turn → Type 0 };

    /// The entry that a turn recorded, if any.
    ghost recorded: { Self.Ask → Self.Turn → Option Self.Entry };

    /// Takes a turn. If memory runs out, nothing of it is in the history.
    fn turn(&mut self, ask: Self::Ask) -> Result<Self::Turn, NoMemory>
        requires legal { legal (fixed self.old) (history self.old) ≡ true }
        ensures fixed { fixed self.new ≡ fixed self.old }
        ensures legal { legal (fixed self.old) (history self.new) ≡ true }
        ensures answer { IfOk result (λ t. answers (fixed self.old) (history self.old) ask t) }
        ensures history { MatchResult result
            (λ t. history self.new ≡ history self.old ++ entries_of (recorded ask t))
            (λ _. history self.new ≡ history self.old) };
}
