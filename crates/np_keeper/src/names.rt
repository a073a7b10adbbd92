//! What the name of a swept pair's node spells.

ghost use Rattle.std.specs.Prelude.{◌≡◌, drop, take};
ghost use Rattle.np_keeper.specs.Lower.{pair_named, sequence_of};

use np_machine::Swept;
use np_text::{NodeId, read_number, read_request};

/// The number that ten digits spell. They are read as the sequence number of a request's text.
fn read_ten(digits: &[u8]) -> Option<u32>
    ensures { result ≡ sequence_of digits.now }
{
    let [a, b, c, d, e, f, g, h, i, j] = digits else {
        return None;
    };
    let text = [
        b'1', b'0', b'0', b'-', *a, *b, *c, *d, *e, *f, *g, *h, *i, *j,
    ];
    let request = read_request(&text)?;
    Some(request.seq)
}

/// The text up to a place, and from there on. If it ends before, all of it and nothing.
fn parts(text: &[u8], at: usize) -> (&[u8], &[u8])
    ensures front { result.0.now ≡ take at text.now }
    ensures back { result.1.now ≡ drop at text.now }
{
    if text.len() < at {
        return (text, &[]);
    }
    text.split_at(at)
}

/// The pair of a name: the ten digits of the node's number, a dash and the server's number. What
/// spells no number is 0; no name of a stored state does.
pub(crate) fn pair_named(name: &[u8]) -> Swept
    ensures { result ≡ pair_named name.now }
{
    let (node, _) = parts(name, 10);
    let (_, server) = parts(name, 11);
    Swept {
        node: NodeId(read_ten(node).unwrap_or(0)),
        server: read_number(server, u64::MAX).unwrap_or(0),
    }
}
