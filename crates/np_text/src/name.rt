//! Names.
ghost use Rattle.std.specs.Prelude.{◌≡◌};
ghost use Rattle.std.specs.List.{list_all};
ghost use Rattle.np_text.specs.Name.{is_name_byte, is_name_text};

use crate::limit::NAME_BYTES;

fn is_name_byte(byte: u8) -> bool
    ensures { result ≡ is_name_byte byte }
{
    byte.is_ascii_alphanumeric() || matches!(byte, b'.' | b'_' | b'-')
}

fn has_name_bytes(text: &[u8]) -> bool
    ensures { result ≡ list_all is_name_byte text.now }
{
    text.iter().all(|byte| is_name_byte(*byte))
}

/// Whether `text` is a name: 1 to [`NAME_BYTES`] bytes of `A-Z a-z 0-9 . _ -`.
#[tactic(auto, unfolding(crate::specs::Name::is_name_text))]
pub fn is_name(text: &[u8]) -> bool
    ensures { result ≡ is_name_text text.now }
{
    (1..=NAME_BYTES).contains(&text.len()) && has_name_bytes(text)
}
