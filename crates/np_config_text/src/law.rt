//! The laws. Each function does nothing: its contract is the law.

ghost use Rattle.std.specs.Prelude.{◌≡◌, ◌<◌, ◌^◌, Ok, length};
ghost use Rattle.np_config_text.specs.Lower.{Configuration, IsSound, reads};
ghost use Rattle.np_config_text.specs.Canonical.{canonical, worked, worked_text, worked_canonical};

/// A text with every optional key absent, what it is read as, and its canonical text.
pub fn a_worked_text_is_read_and_printed()
    ensures read { reads worked_text ≡ Ok worked }
    ensures printed { canonical worked ≡ worked_canonical }
{}

/// The one text of a sound configuration is shorter than 2^32 bytes.
pub fn a_canonical_text_is_short()
    ensures { (c : Configuration) → IsSound c → length (canonical c) < 2 ^ 32 }
{}
