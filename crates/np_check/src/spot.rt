//! Lines and columns.

ghost use Rattle.std.specs.Prelude.{◌≡◌, ◌≤◌, length};
ghost use Rattle.np_check.specs.Spot.{behind, spot_of};

/// A place of a text, by its line and its column in bytes; both count from 1.
#[derive(Clone, Copy, Debug, PartialEq, Eq)]
pub struct Spot {
    pub line: u64,
    pub column: u64,
}

/// Where the byte at this place is, or the end of the text. Takes time linear in the place.
pub fn spot_of(text: &[u8], at: usize) -> Spot
    requires { at ≤ length text.now }
    ensures { result ≡ spot_of text.now at }
{
    let mut spot = Spot { line: 1, column: 1 };
    for byte in text.split_at(at).0 {
        let is_end = *byte == b'\n';
        spot = Spot {
            line: if is_end { spot.line + 1 } else { spot.line },
            column: if is_end { 1 } else { spot.column + 1 },
        };
    }
    spot
}
