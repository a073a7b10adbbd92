//! What is at a place of a line, read and written.
ghost use Rattle.std.specs.Prelude.{◌≡◌, ℕ, ◌≤◌, ◌↔◌, ◌++◌, IsTrue, IfSome, OnOk, OnErr};
ghost use Rattle.std.specs.Io.{StartsWith};
ghost use Rattle.std.specs.Option.{option_map};
ghost use Rattle.np_event.specs.Lower.{ending_of, node_state_of, phase_of, request_state_of};
ghost use Rattle.np_event.specs.declared.reply.Found.TheVariants.{Request, Node, Job};
ghost use Rattle.np_event.specs.Kind.{HasWord, field_text, fixed_text, found_of, found_text, in_flight_of, lettered, number_behind, told_ending, with_field};

use crate::Found;
use crate::kind::{ATTEMPT, Fields, Fixed, Kind, NUMBER, PLACE, WIDE};
use np_text::{
    Ample, EndAs, Ending, JobId, LabelId, NodeId, NodeState, Phase, PoolId, RELATIVE_PRIORITY,
    RequestState, RequesterId, SemId, SessionId, put_number, read_number, read_request,
    request_text,
};

pub(crate) fn fixed_text(word: Fixed) -> &'static str
    ensures { result.now ≡ fixed_text word }
{
    match word {
        Fixed::Role(kind) => kind.word(),
        Fixed::Reason(kind) => kind.word(),
        Fixed::Ok => "ok",
        Fixed::Failed => "failed",
    }
}

fn found_text(found: Found) -> &'static str
    ensures { result.now ≡ found_text found }
{
    match found {
        Found::Request(state) => state.word(),
        Found::Node(state) => state.word(),
        Found::InFlight => "in-flight",
        Found::Job(phase) => phase.word(),
    }
}

/// No reply reports a withdrawn job.
fn read_ending(text: &[u8]) -> Option<Ending>
    ensures { result ≡ told_ending (ending_of text.now) }
{
    match Ending::from_word(text) {
        Some(Ending::Withdrawn) => None,
        ending => ending,
    }
}

/// A request's state comes before one of a node: they share the word `failed`.
#[tactic(auto, unfolding(crate::specs::Kind::found_of))]
fn read_found(text: &[u8]) -> Option<Found>
    ensures { result ≡ found_of text.now }
{
    if let Some(state) = RequestState::from_word(text) {
        return Some(Found::Request(state));
    }
    if text == b"in-flight".as_slice() {
        return Some(Found::InFlight);
    }
    if let Some(state) = NodeState::from_word(text) {
        return Some(Found::Node(state));
    }
    Some(Found::Job(Phase::from_word(text)?))
}

fn read_behind(letter: u8, text: &[u8], max: u64) -> Option<u64>
    ensures answer { result ≡ number_behind letter max text.now }
    ensures most { IfSome result (λ n. n ≤ max) }
{
    match text {
        [first, digits @ ..] if *first == letter => read_number(digits, max),
        _ => None,
    }
}

fn read_u32(letter: u8, text: &[u8]) -> Option<u32>
    ensures { result ≡ number_behind letter NUMBER text.now }
{
    let n = read_behind(letter, text, NUMBER)?;
    Some(n as u32)
}

fn read_u16(letter: u8, text: &[u8]) -> Option<u16>
    ensures { result ≡ number_behind letter PLACE text.now }
{
    let n = read_behind(letter, text, PLACE)?;
    Some(n as u16)
}

fn put(out: &mut Vec<u8>, text: &[u8]) -> Ample
    ensures ok { OnOk result (out.new.items ≡ out.old.items ++ text.now) }
    ensures err { OnErr result (out.new.items ≡ out.old.items) }
{
    out.extend_from_slice(text)?;
    Ok(())
}

fn put_behind(out: &mut Vec<u8>, letter: u8, n: u64) -> Ample
    ensures ok { OnOk result (out.new.items ≡ out.old.items ++ lettered letter n) }
    ensures err { OnErr result (StartsWith out.new.items out.old.items) }
{
    out.push(letter)?;
    put_number(out, n)
}

/// The fields with what a word says, if it fits its place.
pub(crate) fn with_field(kind: Kind, text: &[u8], fields: Fields) -> Option<Fields>
    ensures { result ≡ with_field kind text.now fields }
{
    let mut more = fields;
    match kind {
        Kind::Fixed(word) => {
            if text != fixed_text(word).as_bytes() {
                return None;
            }
        }
        Kind::Session => more.session = SessionId(read_u32(b's', text)?),
        Kind::Request => more.request = read_request(text)?,
        Kind::Node => more.node = NodeId(read_u32(b'n', text)?),
        Kind::Job => more.job = JobId(read_u32(b'j', text)?),
        Kind::Label => more.label = LabelId(read_u16(b'l', text)?),
        Kind::Pool => more.pool = PoolId(read_u16(b'p', text)?),
        Kind::Requester => more.requester = RequesterId(read_u16(b'q', text)?),
        Kind::Semaphore => more.semaphore = SemId(read_u16(b'x', text)?),
        Kind::Attempt => more.attempt = read_number(text, ATTEMPT)? as u8,
        Kind::Number => more.number = read_number(text, NUMBER)? as u32,
        Kind::Relative => more.relative = read_number(text, u64::from(RELATIVE_PRIORITY))? as u32,
        Kind::Server => more.server = read_number(text, WIDE)?,
        Kind::Instances => more.instances = read_number(text, WIDE)?,
        Kind::Cores => more.cores = read_number(text, WIDE)?,
        Kind::Ram => more.ram = read_number(text, WIDE)?,
        Kind::End => more.end = EndAs::from_word(text)?,
        Kind::Ending => more.ending = read_ending(text)?,
        Kind::Found => more.found = read_found(text)?,
    }
    Some(more)
}

/// Appends what a line says at a place. If memory runs out, a part of it may have been appended.
pub(crate) fn put_field(out: &mut Vec<u8>, kind: Kind, fields: &Fields) -> Ample
    requires { HasWord kind fields.now }
    ensures ok { OnOk result (out.new.items ≡ out.old.items ++ field_text kind fields.now) }
    ensures err { OnErr result (StartsWith out.new.items out.old.items) }
{
    match kind {
        Kind::Fixed(word) => put(out, fixed_text(word).as_bytes()),
        Kind::Session => put_behind(out, b's', u64::from(fields.session.0)),
        Kind::Request => put(out, &request_text(fields.request)),
        Kind::Node => put_behind(out, b'n', u64::from(fields.node.0)),
        Kind::Job => put_behind(out, b'j', u64::from(fields.job.0)),
        Kind::Label => put_behind(out, b'l', u64::from(fields.label.0)),
        Kind::Pool => put_behind(out, b'p', u64::from(fields.pool.0)),
        Kind::Requester => put_behind(out, b'q', u64::from(fields.requester.0)),
        Kind::Semaphore => put_behind(out, b'x', u64::from(fields.semaphore.0)),
        Kind::Attempt => put_number(out, u64::from(fields.attempt)),
        Kind::Number => put_number(out, u64::from(fields.number)),
        Kind::Relative => put_number(out, u64::from(fields.relative)),
        Kind::Server => put_number(out, fields.server),
        Kind::Instances => put_number(out, fields.instances),
        Kind::Cores => put_number(out, fields.cores),
        Kind::Ram => put_number(out, fields.ram),
        Kind::End => put(out, fields.end.word().as_bytes()),
        Kind::Ending => put(out, fields.ending.word().as_bytes()),
        Kind::Found => put(out, found_text(fields.found).as_bytes()),
    }
}

/// Whether a line can say this field.
pub(crate) fn has_word(kind: Kind, fields: Fields) -> bool
    ensures { IsTrue result ↔ HasWord kind fields }
{
    match kind {
        Kind::Request => (100..=999).contains(&fields.request.priority),
        Kind::Relative => fields.relative <= RELATIVE_PRIORITY,
        Kind::Ending => fields.ending != Ending::Withdrawn,
        Kind::Fixed(_) => true,
        Kind::Session => true,
        Kind::Node => true,
        Kind::Job => true,
        Kind::Label => true,
        Kind::Pool => true,
        Kind::Requester => true,
        Kind::Semaphore => true,
        Kind::Attempt => true,
        Kind::Number => true,
        Kind::Server => true,
        Kind::Instances => true,
        Kind::Cores => true,
        Kind::Ram => true,
        Kind::End => true,
        Kind::Found => true,
    }
}
