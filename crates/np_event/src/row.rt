//! A form's row, by which lines are read and written.
ghost use Rattle.std.specs.Prelude.{◌≡◌, ◌≤◌, ◌↔◌, ◌++◌, ◌∷◌, length, IsTrue, OnOk, OnErr};
ghost use Rattle.std.specs.Io.{StartsWith};
ghost use Rattle.std.specs.List.{flat_map};
ghost use Rattle.std.specs.Option.{option_copied};
ghost use Rattle.np_event.specs.Kind.{HasWord, field_text};
ghost use Rattle.np_event.specs.Line.{HaveWords, fields_from, stand, stands};
ghost use Rattle.np_event.specs.ReplyForm.{Row as SpecRow, blank};
ghost use Rattle.np_event.specs.Words.{left_of};

use crate::fault::LineFault;
use crate::field::{fixed_text, has_word, put_field, with_field};
use crate::kind::{BLANK, Fields, Kind};
use crate::words::next_word;
use np_text::Ample;

/// A form of a line: its first word, and what follows it.
#[derive(Clone, Copy)]
pub(crate) struct Row {
    pub head: &'static [u8],
    pub kinds: &'static [Kind],
    /// Which of the words after the first chooses among the forms of this first word, if these have
    /// different counts of words.
    pub decided_at: Option<u32>,
}

impl Row {
    /// A row that no word after the first chooses.
    pub(crate) fn of<const N: usize, const M: usize>(
        head: &'static [u8; N],
        kinds: &'static [Kind; M],
    ) -> Row
        ensures head { result.head.now ≡ head.now }
        ensures kinds { result.kinds.now ≡ kinds.now }
        ensures decided { result.decided_at ≡ None }
    {
        Row {
            head,
            kinds,
            decided_at: None,
        }
    }

    /// A row that the word at this place chooses.
    pub(crate) fn decided<const N: usize, const M: usize>(
        place: u32,
        head: &'static [u8; N],
        kinds: &'static [Kind; M],
    ) -> Row
        ensures head { result.head.now ≡ head.now }
        ensures kinds { result.kinds.now ≡ kinds.now }
        ensures decided { result.decided_at ≡ Some place }
    {
        Row {
            head,
            kinds,
            decided_at: Some(place),
        }
    }
}

/// What has a row: a form of an event's or a reply's line.
pub(crate) trait HasRow: Copy {
    /// The first word, and what follows it.
    ghost row_of: { Self → SpecRow };

    /// The first word, and what follows it.
    fn row(self) -> Row
        ensures head { result.head.now ≡ (row_of self).head }
        ensures kinds { result.kinds.now ≡ (row_of self).kinds };
}

/// Whether a fixed word is at its place. Other kinds are not checked.
fn stands(kind: Kind, text: Option<&[u8]>) -> bool
    ensures { result ≡ stands kind (option_copied text.entry) }
{
    match (kind, text) {
        (Kind::Fixed(word), Some(text)) => text == fixed_text(word).as_bytes(),
        (Kind::Fixed(_), None) => false,
        _ => true,
    }
}

/// Whether all fixed words are at their places.
pub(crate) fn stand(kinds: &[Kind], words: Option<&[u8]>) -> bool
    ensures { result ≡ stand kinds.now (left_of (option_copied words.entry)) }
{
    let mut left = words;
    for kind in kinds {
        let (text, rest) = next_word(left);
        if !stands(*kind, text) {
            return false;
        }
        left = rest;
    }
    true
}

/// The fields that the words after the first one say.
pub(crate) fn read_fields(kinds: &[Kind], words: Option<&[u8]>) -> Result<Fields, LineFault>
    requires { length kinds.now ≤ 16 }
    ensures { result ≡ fields_from 2 kinds.now (left_of (option_copied words.entry)) blank }
{
    let mut fields = BLANK;
    let mut left = words;
    for (at, kind) in kinds.iter().enumerate() {
        let (text, rest) = next_word(left);
        let Some(text) = text else {
            return Err(LineFault::WrongCount);
        };
        let Some(more) = with_field(*kind, text, fields) else {
            return Err(LineFault::BadArgument {
                word: at as u32 + 2,
            });
        };
        fields = more;
        left = rest;
    }
    Ok(fields)
}

/// Appends a space and what a line says, for each kind.
pub(crate) fn put_kinds(out: &mut Vec<u8>, kinds: &[Kind], fields: &Fields) -> Ample
    requires { HaveWords kinds.now fields.now }
    ensures ok { OnOk result (out.new.items ≡ out.old.items ++ flat_map (λ kind. 32 ∷ field_text kind fields.now) kinds.now) }
    ensures err { OnErr result (StartsWith out.new.items out.old.items) }
{
    for kind in kinds {
        out.push(b' ')?;
        put_field(out, *kind, fields)?;
    }
    Ok(())
}

/// Whether a line can say all of this.
pub(crate) fn have_words(kinds: &[Kind], fields: Fields) -> bool
    ensures { IsTrue result ↔ HaveWords kinds.now fields }
{
    for kind in kinds {
        if !has_word(*kind, fields) {
            return false;
        }
    }
    true
}
