//! Request ids.
ghost use Rattle.std.specs.Prelude.{◌≡◌};
ghost use Rattle.np_spelling.specs.Reading.{fixed, priority_in, request_in, sequence_limits};

use crate::cursor::Cursor;
use np_text::RequestId;

const PRIORITY_LIMITS: [u64; 3] = [9, 99, 999];

const SEQUENCE_LIMITS: [u64; 10] = [
    4,
    42,
    429,
    4_294,
    42_949,
    429_496,
    4_294_967,
    42_949_672,
    429_496_729,
    4_294_967_295,
];

#[tactic(auto, using(crate::proofs::Readers::priority_most), unfolding(crate::specs::Reading::priority_in))]
fn priority(cursor: &mut Cursor) -> Option<u16>
    ensures { priority_in cursor.old ≡ (result, cursor.new) }
{
    if cursor.begins(b'0') {
        return None;
    }
    let digits = cursor.fixed(&PRIORITY_LIMITS)?;
    Some(digits as u16)
}

#[tactic(auto, using(crate::proofs::Readers::sequence_most))]
fn sequence(cursor: &mut Cursor) -> Option<u32>
    ensures { fixed sequence_limits 0 cursor.old ≡ (result, cursor.new) }
{
    let digits = cursor.fixed(&SEQUENCE_LIMITS)?;
    Some(digits as u32)
}

/// A priority of three digits, a dash and a sequence number of ten.
#[tactic(auto, unfolding(crate::specs::Reading::request_in))]
pub(crate) fn request(cursor: &mut Cursor) -> Option<RequestId>
    ensures { request_in cursor.old ≡ (result, cursor.new) }
{
    let priority = priority(cursor)?;
    cursor.lead(b"-")?;
    let seq = sequence(cursor)?;
    Some(RequestId { priority, seq })
}
