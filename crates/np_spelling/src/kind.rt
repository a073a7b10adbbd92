//! What every kind of record has: its spelling, read and written.
ghost use Rattle.std.specs.Prelude.{◌≡◌, ℕ, List, Ok, IfOk, IfErr};
ghost use Rattle.np_spelling.specs.Spelling.{StopsAt};

use crate::fault::BadRecord;
use np_text::NoMemory;
use std::alloc::Global;

/// A kind of record, with its spelling as bytes: compact JSON, keys in byte order, absent keys left
/// out.
pub trait Record: Sized {
    /// Whether the value may be in a record.
    ghost is_sound: { Self → Type 0 };

    /// Whether these bytes are a spelling of the value.
    ghost spells: { Self → List ℕ → Type 0 };

    /// The spelling that is written.
    ghost written: { Self → List ℕ };

    /// The record that the bytes spell, or how far they begin the spelling of one. It takes no
    /// memory, and its time grows with the number of bytes.
    fn read(bytes: &[u8]) -> Result<Self, BadRecord>
        ensures spelled { IfOk result (λ v. Self.spells v bytes.now) }
        ensures all { (v : Self) → Self.spells v bytes.now → result ≡ Ok v }
        ensures bad { IfErr result (λ bad. StopsAt Self.spells bytes.now bad.place) };

    /// The record's spelling.
    fn text(&self, alloc: Global) -> Result<Vec<u8>, NoMemory>
        requires { Self.is_sound self.now }
        ensures { IfOk result (λ text. text.items ≡ Self.written self.now) };
}
