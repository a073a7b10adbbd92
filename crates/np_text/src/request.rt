//! The text of a node request.
ghost use Rattle.std.specs.Prelude.{◌≡◌, ◌≤◌, IfSome};
ghost use Rattle.np_text.specs.Request.{request_of, request_text_of, sequence_of};

use crate::id::RequestId;
use crate::limit::SEQUENCE;
use crate::number::{fill_digits, read_digits, read_number};

#[tactic(auto, unfolding(crate::specs::Request::sequence_of))]
fn read_sequence(text: &[u8]) -> Option<u64>
    ensures answer { result ≡ sequence_of text.now }
    ensures most { IfSome result (λ n. n ≤ SEQUENCE) }
{
    if text.len() == 10 {
        read_digits(text, SEQUENCE)
    } else {
        None
    }
}

/// Reads a request's text: three digits from 100 to 999, a dash and ten digits of a number of at
/// most [`SEQUENCE`]. `None` for anything else.
#[tactic(auto, unfolding(crate::specs::Request::request_of))]
pub fn read_request(text: &[u8]) -> Option<RequestId>
    ensures { result ≡ request_of text.now }
{
    let [a, b, c, b'-', digits @ ..] = text else {
        return None;
    };
    let priority = read_number(&[*a, *b, *c], 999)?;
    let seq = read_sequence(digits)?;
    Some(RequestId {
        priority: priority as u16,
        seq: seq as u32,
    })
}

/// A request's text, as `200-0000000000`. The byte order of these texts is the order of requests.
pub fn request_text(id: RequestId) -> [u8; 14]
    requires least { 100 ≤ id.priority }
    requires most { id.priority ≤ 999 }
    ensures { result ≡ request_text_of id }
{
    let mut text = [b'-'; 14];
    fill_digits(&mut text[..3], u64::from(id.priority));
    fill_digits(&mut text[4..], u64::from(id.seq));
    text
}
