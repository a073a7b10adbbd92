//! The words of a line: its parts between single spaces.
ghost use Rattle.std.specs.Prelude.{◌≡◌, ◌==◌, ◌∷◌, length, count_by, drop, position, slice_get};
ghost use Rattle.std.specs.Option.{option_copied};
ghost use Rattle.np_event.specs.Words.{is_space, left_of, words_of};

fn first_space(text: &[u8]) -> Option<usize>
    ensures { result ≡ position is_space text.now }
{
    text.iter().position(|byte| *byte == b' ')
}

/// The first word, and the rest of the line if there is one.
pub(crate) fn split_word(text: &[u8]) -> (&[u8], Option<&[u8]>)
    ensures { words_of text.now ≡ result.0.now ∷ left_of (option_copied result.1) }
{
    match first_space(text) {
        Some(at) => {
            let (word, behind) = text.split_at(at);
            (word, Some(behind.split_at(1).1))
        }
        None => (text, None),
    }
}

/// The next word of the rest of a line, and the rest after it.
pub(crate) fn next_word(rest: Option<&[u8]>) -> (Option<&[u8]>, Option<&[u8]>)
    ensures word { option_copied result.0 ≡ slice_get (left_of (option_copied rest.entry)) 0 }
    ensures rest { left_of (option_copied result.1) ≡ drop 1 (left_of (option_copied rest.entry)) }
{
    match rest {
        Some(text) => {
            let (word, behind) = split_word(text);
            (Some(word), behind)
        }
        None => (None, None),
    }
}

fn count_spaces(text: &[u8]) -> usize
    ensures { result ≡ count_by is_space text.now }
{
    text.iter().filter(|byte| **byte == b' ').count()
}

/// How many words the rest of a line has.
pub(crate) fn count_words(rest: Option<&[u8]>) -> usize
    ensures { result ≡ length (left_of (option_copied rest.entry)) }
{
    match rest {
        Some(text) => count_spaces(text) + 1,
        None => 0,
    }
}
