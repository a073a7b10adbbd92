//! Numbers and their decimal spelling.
ghost use Rattle.std.specs.Prelude.{◌≡◌, ℕ, ◌+◌, ◌*◌, ◌^◌, ◌<◌, ◌≤◌, not, ◌==◌, List, ◌++◌, Some, length, position, IfSome, SomeIff, OnOk, OnErr};
ghost use Rattle.std.specs.Fmt.{decimal};
ghost use Rattle.np_text.specs.Number.{digits_within, number_of, padded, ten_digits_of, without_zeros};

use crate::memory::Ample;

/// `value` with one more digit behind it, if that is still a `u64`.
fn with_digit(value: u64, digit: u8) -> Option<u64>
    ensures { SomeIff result (value * 10 + digit < 2 ^ 64) (value * 10 + digit) }
{
    value.checked_mul(10)?.checked_add(u64::from(digit))
}

/// Reads decimal digits, with any zeros in front, if they spell at most `max`.
#[tactic(auto, using(crate::proofs::NumberLemmas::reading))]
pub(crate) fn read_digits(text: &[u8], max: u64) -> Option<u64>
    ensures answer { result ≡ digits_within max text.now }
    ensures most { IfSome result (λ n. n ≤ max) }
{
    let mut value = 0;
    for byte in text {
        if !byte.is_ascii_digit() {
            return None;
        }
        let Some(longer) = with_digit(value, *byte - b'0') else {
            return None;
        };
        value = longer;
    }
    if value <= max { Some(value) } else { None }
}

/// Reads a decimal number of at most `max`. `None` for anything else: no digit, another byte, a
/// zero in front of other digits. Takes time linear in the text's length.
#[tactic(auto, unfolding(crate::specs::Number::number_of))]
pub fn read_number(text: &[u8], max: u64) -> Option<u64>
    ensures answer { result ≡ number_of max text.now }
    ensures most { IfSome result (λ n. n ≤ max) }
{
    match text {
        [] | [b'0', _, ..] => None,
        _ => read_digits(text, max),
    }
}

/// Fills `out` with the last digits of `n`, with zeros in front if it has fewer.
#[tactic(auto, using(crate::proofs::NumberLemmas::writing))]
pub(crate) fn fill_digits(out: &mut [u8], n: u64)
    requires some { 0 < length out.old }
    requires room { n < 10 ^ length out.old }
    ensures { out.new ≡ padded (length out.old) n }
{
    let mut rest = n;
    for at in (0..out.len()).rev() {
        out[at] = b'0' + (rest % 10) as u8;
        rest /= 10;
    }
}

/// The decimal spelling of `n` with zeros in front, ten digits in all, like the suffix of a
/// sequence node (ZooKeeper).
#[tactic(auto, unfolding(crate::specs::Number::ten_digits_of))]
pub fn ten_digits(n: u32) -> [u8; 10]
    ensures { result ≡ ten_digits_of n }
{
    let mut digits = [b'0'; 10];
    fill_digits(&mut digits, u64::from(n));
    digits
}

fn first_digit_above_zero(digits: &[u8]) -> Option<usize>
    ensures { result ≡ position (λ digit. not (digit == 48)) digits.now }
{
    digits.iter().position(|digit| *digit != b'0')
}

/// The digits without the zeros in front of them; the last digit stays.
#[tactic(auto, unfolding(crate::specs::Number::without_zeros))]
fn without_zeros(digits: &[u8]) -> &[u8]
    requires { 0 < length digits.now }
    ensures { result.now ≡ without_zeros digits.now }
{
    let front = first_digit_above_zero(digits).unwrap_or(digits.len() - 1);
    digits.split_at(front).1
}

/// Appends the decimal spelling of `n`.
pub fn put_number(out: &mut Vec<u8>, n: u64) -> Ample
    ensures ok { OnOk result (out.new.items ≡ out.old.items ++ decimal n) }
    ensures err { OnErr result (out.new.items ≡ out.old.items) }
{
    let mut digits = [b'0'; 20];
    fill_digits(&mut digits, n);
    out.extend_from_slice(without_zeros(&digits))?;
    Ok(())
}
