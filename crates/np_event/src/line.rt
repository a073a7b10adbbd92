//! The lines of events and of entries.
ghost use Rattle.std.specs.Prelude.{◌≡◌, ◌≤◌, ◌↔◌, ◌++◌, ◌∷◌, codes, length, drop, IsTrue, IfOk, IfSome, OnOk, OnErr};
ghost use Rattle.std.specs.Io.{StartsWith};
ghost use Rattle.std.specs.List.{find, flat_map};
ghost use Rattle.std.specs.Option.{option_copied, option_map};
ghost use Rattle.std.specs.Str.{bytes_eq};
ghost use Rattle.np_event.specs.EventForm.{event_forms, event_row};
ghost use Rattle.np_event.specs.Kind.{field_text};
ghost use Rattle.np_event.specs.Line.{HasEntryLine, HasEventLine, HasReplyLine, OpensNoReaper, begins_reply, done_with, entry_in, entry_line, event_form_of, event_in, event_line, is_agreed, is_headed, is_headed_done, is_headed_refusal, refusal_in, reply_in, reply_line, sides_of, undecided, HaveWords, row_fields, stand};
ghost use Rattle.np_event.specs.ReplyForm.{done_forms, done_row, refusal_forms, refusal_row};
ghost use Rattle.np_event.specs.Words.{left_of, words_of};

use crate::event_form::{EVENT_FORMS, EventForm, event_fields, event_of, form_of};
use crate::fault::LineFault;
use crate::kind::{Fields, Kind};
use crate::reply_form::{
    DONE_FORMS, REFUSAL_FORMS, done_fields, done_of, refusal_fields, refusal_of,
};
use crate::row::{HasRow, Row, have_words, put_kinds, read_fields, stand};
use crate::words::{count_words, split_word};
use crate::{Done, Entry, Event, Refusal, Reply};
use np_text::{Ample, Role};

/// Room for any entry's line.
const LINE_BYTES: usize = 160;

#[tactic(auto, unfolding(crate::specs::EventForm::event_forms))]
fn event_forms() -> &'static [EventForm]
    ensures { result.now ≡ event_forms }
{
    &EVENT_FORMS
}

#[tactic(auto, unfolding(crate::specs::ReplyForm::done_forms))]
fn done_forms() -> &'static [Done]
    ensures { result.now ≡ done_forms }
{
    &DONE_FORMS
}

#[tactic(auto, unfolding(crate::specs::ReplyForm::refusal_forms))]
fn refusal_forms() -> &'static [Refusal]
    ensures { result.now ≡ refusal_forms }
{
    &REFUSAL_FORMS
}

fn is_headed<F: HasRow>(first: &[u8], form: F) -> bool
    ensures { result ≡ bytes_eq first.now (F.row_of form).head }
{
    first == form.row().head
}

fn headed<'a, F: HasRow>(forms: &'a [F], first: &[u8]) -> Option<&'a F>
    ensures { option_copied result ≡ find (λ form. bytes_eq first.now (F.row_of form).head) forms.now }
{
    forms.iter().find(|form| is_headed(first, **form))
}

fn is_agreed(first: &[u8], rest: Option<&[u8]>, form: EventForm) -> bool
    ensures { result ≡ is_agreed first.now (left_of (option_copied rest.entry)) form }
{
    is_headed(first, form) && stand(form.row().kinds, rest)
}

fn agreed<'a>(forms: &'a [EventForm], first: &[u8], rest: Option<&[u8]>) -> Option<&'a EventForm>
    ensures { option_copied result ≡ find (is_agreed first.now (left_of (option_copied rest.entry))) forms.now }
{
    forms.iter().find(|form| is_agreed(first, rest, **form))
}

fn undecided(form: EventForm, rest: Option<&[u8]>) -> Result<EventForm, LineFault>
    ensures { result ≡ undecided form (left_of (option_copied rest.entry)) (event_row form).decided_at }
{
    let Some(place) = form.row().decided_at else {
        return Ok(form);
    };
    if place as usize <= count_words(rest) {
        Err(LineFault::BadArgument { word: place + 1 })
    } else {
        Err(LineFault::WrongCount)
    }
}

fn event_form_of(first: &[u8], rest: Option<&[u8]>) -> Result<EventForm, LineFault>
    ensures { result ≡ event_form_of first.now (left_of (option_copied rest.entry)) }
{
    if let Some(form) = agreed(event_forms(), first, rest) {
        return Ok(*form);
    }
    match headed(event_forms(), first) {
        Some(form) => undecided(*form, rest),
        None => Err(LineFault::UnknownEvent),
    }
}

fn row_fields(kinds: &[Kind], rest: Option<&[u8]>) -> Result<Fields, LineFault>
    requires { length kinds.now ≤ 16 }
    ensures { result ≡ row_fields kinds.now (left_of (option_copied rest.entry)) }
{
    if count_words(rest) == kinds.len() {
        read_fields(kinds, rest)
    } else {
        Err(LineFault::WrongCount)
    }
}

/// The event of a line, if the line is its one spelling, and otherwise the first fault.
///
/// The first word decides the form; for `decline` and `done` the fourth or fifth word does too, and
/// is judged with it. Then the count of words is judged, and then each word from the left. It takes
/// no memory, and its time grows with the line's length.
#[tactic(auto, unfolding(crate::specs::Line::event_in))]
pub fn read_event(line: &[u8]) -> Result<Event, LineFault>
    ensures answer { result ≡ event_in (words_of line.now) }
    ensures has_line { IfOk result HasEventLine }
{
    let (first, rest) = split_word(line);
    let form = event_form_of(first, rest)?;
    let fields = row_fields(form.row().kinds, rest)?;
    Ok(event_of(form, fields))
}

fn done_form_of(first: &[u8]) -> Option<Done>
    ensures { result ≡ find (is_headed_done first.now) done_forms }
{
    headed(done_forms(), first).copied()
}

fn refusal_form_of(first: &[u8]) -> Option<Refusal>
    ensures { result ≡ find (is_headed_refusal first.now) refusal_forms }
{
    headed(refusal_forms(), first).copied()
}

fn read_done(first: &[u8], rest: Option<&[u8]>) -> Option<Reply>
    ensures { result ≡ done_with (left_of (option_copied rest.entry)) (find (is_headed_done first.now) done_forms) }
{
    let form = done_form_of(first)?;
    let fields = row_fields(form.row().kinds, rest).ok()?;
    Some(Reply::Done(done_of(form, fields)))
}

fn read_refusal(words: Option<&[u8]>) -> Option<Reply>
    ensures { result ≡ refusal_in (left_of (option_copied words.entry)) }
{
    let (first, rest) = split_word(words?);
    let form = refusal_form_of(first)?;
    let fields = row_fields(form.row().kinds, rest).ok()?;
    Some(Reply::Refused(refusal_of(form, fields)))
}

#[tactic(auto, unfolding(crate::specs::Line::reply_in))]
fn read_reply(text: &[u8]) -> Option<Reply>
    ensures { result ≡ reply_in (words_of text.now) }
{
    let (first, rest) = split_word(text);
    if first == b"refused".as_slice() {
        read_refusal(rest)
    } else {
        read_done(first, rest)
    }
}

fn begins_reply(text: &[u8]) -> bool
    ensures { result ≡ begins_reply text.now }
{
    matches!(text, [b' ', b'=', b' ', ..])
}

/// What comes before and after the first ` = `.
#[tactic(auto, using(crate::proofs::Fields::siding))]
fn sides_of(line: &[u8]) -> Option<(&[u8], &[u8])>
    ensures { option_map (λ sides. (sides.0.now, sides.1.now)) result ≡ sides_of line.now }
{
    for at in 0..line.len() {
        let (event, rest) = line.split_at(at);
        if begins_reply(rest) {
            return Some((event, rest.split_at(3).1));
        }
    }
    None
}

/// The entry of a line that [`put_entry`] writes, and `None` for any other line. It takes no
/// memory, and its time grows with the line's length.
///
/// A failed node and a failed request share one word, which is read as the request's.
#[tactic(auto, unfolding(crate::specs::Line::entry_in))]
pub fn read_entry(line: &[u8]) -> Option<Entry>
    ensures answer { result ≡ entry_in line.now }
    ensures has_line { IfSome result HasEntryLine }
{
    let (event, reply) = sides_of(line)?;
    let event = read_event(event).ok()?;
    let reply = read_reply(reply)?;
    Some(Entry { event, reply })
}

fn put_row(out: &mut Vec<u8>, row: Row, fields: &Fields) -> Ample
    requires { HaveWords row.kinds.now fields.now }
    ensures ok { OnOk result (out.new.items ≡ out.old.items ++ (row.head.now ++ flat_map (λ kind. 32 ∷ field_text kind fields.now) row.kinds.now)) }
    ensures err { OnErr result (StartsWith out.new.items out.old.items) }
{
    out.extend_from_slice(row.head)?;
    put_kinds(out, row.kinds, fields)
}

fn put_event_parts(out: &mut Vec<u8>, event: Event) -> Ample
    requires { HasEventLine event }
    ensures ok { OnOk result (out.new.items ≡ out.old.items ++ event_line event) }
    ensures err { OnErr result (StartsWith out.new.items out.old.items) }
{
    put_row(out, form_of(event).row(), &event_fields(event))
}

fn put_reply_parts(out: &mut Vec<u8>, reply: Reply) -> Ample
    requires { HasReplyLine reply }
    ensures ok { OnOk result (out.new.items ≡ out.old.items ++ reply_line reply) }
    ensures err { OnErr result (StartsWith out.new.items out.old.items) }
{
    match reply {
        Reply::Done(done) => put_row(out, done.row(), &done_fields(done)),
        Reply::Refused(refusal) => {
            out.extend_from_slice(b"refused ")?;
            put_row(out, refusal.row(), &refusal_fields(refusal))
        }
    }
}

fn put_entry_parts(out: &mut Vec<u8>, entry: Entry) -> Ample
    requires { HasEntryLine entry }
    ensures ok { OnOk result (out.new.items ≡ out.old.items ++ entry_line entry) }
    ensures err { OnErr result (StartsWith out.new.items out.old.items) }
{
    put_event_parts(out, entry.event)?;
    out.extend_from_slice(b" = ")?;
    put_reply_parts(out, entry.reply)
}

fn opens_no_reaper(event: Event) -> bool
    ensures { IsTrue result ↔ OpensNoReaper event }
{
    !matches!(event, Event::OpenSession { role: Role::Reaper })
}

/// Whether an event has a line: a reaper's session has none, nor has a request whose priority is
/// not of three digits, nor a relative priority above the largest of a job.
pub fn event_has_line(event: Event) -> bool
    ensures { IsTrue result ↔ HasEventLine event }
{
    opens_no_reaper(event) && have_words(form_of(event).row().kinds, event_fields(event))
}

fn reply_has_line(reply: Reply) -> bool
    ensures { IsTrue result ↔ HasReplyLine reply }
{
    match reply {
        Reply::Done(done) => have_words(done.row().kinds, done_fields(done)),
        Reply::Refused(refusal) => have_words(refusal.row().kinds, refusal_fields(refusal)),
    }
}

/// Whether an entry has a line: its event has one, no job ended as withdrawn, and the requests that
/// the reply names have three digits.
pub fn entry_has_line(entry: Entry) -> bool
    ensures { IsTrue result ↔ HasEntryLine entry }
{
    event_has_line(entry.event) && reply_has_line(entry.reply)
}

/// Appends an event's line, without a newline.
pub fn put_event(out: &mut Vec<u8>, event: Event) -> Ample
    requires { HasEventLine event }
    ensures ok { OnOk result (out.new.items ≡ out.old.items ++ event_line event) }
    ensures err { OnErr result (out.new.items ≡ out.old.items) }
{
    out.reserve(LINE_BYTES)?;
    let start = out.len();
    let put = put_event_parts(out, event);
    if put.is_err() {
        out.truncate(start);
    }
    put
}

/// Appends an entry's line, without a newline. Room is made once for the whole line.
pub fn put_entry(out: &mut Vec<u8>, entry: Entry) -> Ample
    requires { HasEntryLine entry }
    ensures ok { OnOk result (out.new.items ≡ out.old.items ++ entry_line entry) }
    ensures err { OnErr result (out.new.items ≡ out.old.items) }
{
    out.reserve(LINE_BYTES)?;
    let start = out.len();
    let put = put_entry_parts(out, entry);
    if put.is_err() {
        out.truncate(start);
    }
    put
}
