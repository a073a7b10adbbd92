//! The name of a file, as a word of the command line.

ghost use Rattle.std.specs.Prelude.{◌≡◌, true, IfOk, if◌then◌else◌, Some, None};
ghost use Rattle.np_replay.specs.FileName.{is_file_name};

use np_text::NoMemory;
use std::alloc::Global;
use std::marker::Model;

/// The name of a file: a word that isn't empty and doesn't begin with `-`. Contracts see its bytes.
#[derive(Drop)]
pub struct FileName {
    name: String,
}

impl Model for FileName {
    ghost use Rattle.std.specs.Prelude.{◌≡◌, List, ℕ, true, string_bytes};
    ghost use Rattle.np_replay.specs.FileName.{is_file_name};

    ghost Value = { List ℕ };

    ghost view = { λ file. string_bytes file.name };

    ghost invariant = { λ file. is_file_name (string_bytes file.name) ≡ true };
}

fn is_file_name(word: &str) -> bool
    ensures { result ≡ is_file_name word.now }
{
    match word.as_bytes() {
        [] => false,
        [first, ..] => *first != b'-',
    }
}

impl FileName {
    /// The word as a file's name, `None` if it can't be one. The time and the memory grow with the
    /// word's length.
    pub(crate) fn new(alloc: Global, word: &str) -> Result<Option<FileName>, NoMemory>
        ensures { IfOk result (λ name.
            name ≡ (if is_file_name word.now then Some word.now else None)) }
    {
        if !is_file_name(word) {
            return Ok(None);
        }
        let name = word.to_string(alloc)?;
        Ok(Some(FileName { name }))
    }

    /// The name, as the operating system takes it.
    pub fn as_str(&self) -> &str
        ensures name { result.now ≡ self.now }
        ensures form { is_file_name result.now ≡ true }
    {
        self.name.as_str()
    }
}
