//! How far two texts agree.

ghost use Rattle.std.specs.Prelude.{◌≡◌, ◌<◌, ◌≤◌, ◌^◌, ◌-◌};
ghost use Rattle.np_report.specs.Agreement.{common_lines, newline_count, newlines};

fn newline_count(byte: u8) -> u32
    ensures { result ≡ newline_count byte }
{
    if byte == b'\n' { 1 } else { 0 }
}

/// How many lines, each with its newline, both texts begin with. The time grows with the length of
/// what they have in common.
#[tactic(auto, using(crate::proofs::Findings::agreeing))]
pub(crate) fn common_lines(text: &[u8], other: &[u8]) -> u32
    requires { newlines text.now < 2 ^ 32 - 1 }
    ensures value { result ≡ common_lines text.now other.now }
    ensures few { result ≤ newlines text.now }
{
    let mut count = 0;
    for at in 0..text.len().min(other.len()) {
        if text[at] != other[at] {
            return count;
        }
        count += newline_count(text[at]);
    }
    count
}
