//! Lines, and a text's two sections.
ghost use Rattle.std.specs.Prelude.{◌≡◌, ◌≤◌, ◌==◌, ◌&&◌, length, drop, position, IfSome};
ghost use Rattle.std.specs.Option.{option_map};
ghost use Rattle.np_text.specs.Lines.{line_in, line_length};
ghost use Rattle.np_text.specs.Sections.{begins_with_bar, sections_of};

fn first_newline(text: &[u8]) -> Option<usize>
    ensures { result ≡ position (λ b. b == 10) text.now }
{
    text.iter().position(|byte| *byte == b'\n')
}

fn line_length(text: &[u8]) -> usize
    ensures length { result ≡ line_length text.now }
    ensures within { result ≤ length text.now }
{
    first_newline(text).unwrap_or(text.len())
}

/// The start and the end of the line that begins at `from`, without its newline. `None` at the
/// text's end. Takes time linear in the line's length.
pub fn line_at(text: &[u8], from: usize) -> Option<(usize, usize)>
    requires { from ≤ length text.now }
    ensures answer { result ≡ line_in text.now from }
    ensures within { IfSome result (λ line. (line.0 ≡ from) × (from ≤ line.1) × (line.1 ≤ length text.now)) }
{
    if from == text.len() {
        return None;
    }
    let (_, rest) = text.split_at(from);
    Some((from, from + line_length(rest)))
}

fn begins_with_bar(text: &[u8]) -> bool
    ensures { result ≡ begins_with_bar text.now }
{
    matches!(text, [b'%', b'%'] | [b'%', b'%', b'\n', ..])
}

fn parts_here(fresh: bool, text: &[u8]) -> bool
    ensures { result ≡ (fresh && begins_with_bar text.now) }
{
    fresh && begins_with_bar(text)
}

fn after_bar(text: &[u8]) -> &[u8]
    ensures { result.now ≡ drop 3 text.now }
{
    text.split_at(text.len().min(3)).1
}

/// The bytes before the first line that is exactly `%%`, and those after that line. `None` if
/// there is no such line. Takes time linear in the length that it scans.
#[tactic(auto, using(crate::proofs::SectionLemmas::parting))]
pub fn split_sections(text: &[u8]) -> Option<(&[u8], &[u8])>
    ensures { option_map (λ parts. (parts.0.now, parts.1.now)) result ≡ sections_of text.now }
{
    let mut fresh = true;
    for (index, byte) in text.iter().enumerate() {
        let (before, rest) = text.split_at(index);
        if parts_here(fresh, rest) {
            return Some((before, after_bar(rest)));
        }
        fresh = *byte == b'\n';
    }
    None
}
