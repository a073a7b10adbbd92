//! The bytes that are left, and what may be at their front.
ghost use Rattle.std.specs.Prelude.{◌≡◌, ◌≤◌, ◌+◌, ◌-◌, ◌*◌, [], ◌∷◌, ◌&&◌, nat_le, if◌then◌else◌, false, drop, length, IfSome};
ghost use Rattle.std.specs.Bool.{OnTrue, OnFalse};
ghost use Rattle.std.specs.Char.{is_ascii_digit};
ghost use Rattle.np_spelling.specs.Reading.{answer, begins, digits, first_byte, fixed, lead, max_u8, max_u16, max_u32, max_u64, number, numbered, spelled};

use crate::fault::BadRecord;
use std::marker::Model;

/// The bytes that are left. Contracts see them as a list.
#[derive(Drop)]
pub(crate) struct Cursor<'a> {
    left: &'a [u8],
}

impl<'a> Model for Cursor<'a> {
    ghost use Rattle.std.specs.Prelude.{ℕ, List};

    ghost Value = { List ℕ };

    ghost view = { λ c. c.left.now };
}

impl<'a> Cursor<'a> {
    /// All of these bytes.
    pub(crate) fn new(bytes: &'a [u8]) -> Cursor<'a>
        ensures { result ≡ bytes.now }
    {
        Cursor { left: bytes }
    }

    /// How many bytes are left.
    pub(crate) fn len(&self) -> usize
        ensures { result ≡ length self.now }
    {
        self.left.len()
    }

    /// The answer of a reader of `count` bytes: what it found, if none are left.
    pub(crate) fn answer<T: Copy>(&self, count: usize, found: Option<T>) -> Result<T, BadRecord>
        requires { length self.now ≤ count }
        ensures { result ≡ answer count found self.now }
    {
        match found {
            Some(found) if self.len() == 0 => Ok(found),
            _ => Err(BadRecord {
                place: count - self.len(),
            }),
        }
    }

    /// Whether this byte comes next.
    #[inline(always)]
    pub(crate) fn begins(&self, byte: u8) -> bool
        ensures { result ≡ begins byte self.now }
    {
        match self.left {
            [first, ..] => *first == byte,
            [] => false,
        }
    }

    /// The byte that comes next, or 0 at the end.
    #[inline(always)]
    pub(crate) fn first(&self) -> u8
        ensures { result ≡ first_byte self.now }
    {
        match self.left {
            [first, ..] => *first,
            [] => 0,
        }
    }

    /// Passes this byte, if it comes next.
    #[inline(always)]
    pub(crate) fn pass(&mut self, byte: u8) -> bool
        ensures passed { OnTrue result (self.old ≡ byte ∷ self.new) }
        ensures other { OnFalse result ((begins byte self.old ≡ false) × (self.new ≡ self.old)) }
    {
        match self.left {
            [first, rest @ ..] if *first == byte => {
                self.left = rest;
                true
            }
            _ => false,
        }
    }

    /// Passes these bytes, as far as they come next.
    #[inline(always)]
    #[tactic(auto, using(crate::proofs::Readers::leads))]
    pub(crate) fn lead(&mut self, text: &[u8]) -> Option<()>
        ensures { lead text.now self.old ≡ (result, self.new) }
    {
        for byte in text {
            if !self.pass(*byte) {
                return None;
            }
        }
        Some(())
    }

    /// Passes these bytes, and returns this value.
    #[inline(always)]
    pub(crate) fn spelled<T: Copy>(&mut self, text: &[u8], value: T) -> Option<T>
        ensures { spelled text.now value self.old ≡ (result, self.new) }
    {
        self.lead(text)?;
        Some(value)
    }

    /// Passes a decimal number of at most `max`. A digit that would make it larger is left, and so
    /// are digits after a leading 0.
    #[inline(always)]
    #[tactic(auto, unfolding(crate::specs::Reading::number))]
    pub(crate) fn number(&mut self, max: u64) -> Option<u64>
        requires { 9 ≤ max }
        ensures answer { number max self.old ≡ (result, self.new) }
        ensures most { IfSome result (λ n. n ≤ max) }
    {
        let [first, rest @ ..] = self.left else {
            return None;
        };
        if !first.is_ascii_digit() {
            return None;
        }
        if *first == b'0' {
            self.left = rest;
            return Some(0);
        }
        let (value, count) = count_digits(rest, max, u64::from(*first - b'0'));
        self.left = rest.split_at(count).1;
        Some(value)
    }

    /// Passes these bytes and then a number of at most `max`.
    #[inline(always)]
    #[tactic(auto, unfolding(crate::specs::Reading::numbered))]
    pub(crate) fn numbered(&mut self, text: &[u8], max: u64) -> Option<u64>
        requires { 9 ≤ max }
        ensures answer { numbered text.now max self.old ≡ (result, self.new) }
        ensures most { IfSome result (λ n. n ≤ max) }
    {
        self.lead(text)?;
        self.number(max)
    }

    /// Passes a number of 8 bits.
    #[inline(always)]
    pub(crate) fn u8(&mut self) -> Option<u8>
        ensures { number max_u8 self.old ≡ (result, self.new) }
    {
        Some(self.number(u64::from(u8::MAX))? as u8)
    }

    /// Passes a number of 16 bits.
    #[inline(always)]
    pub(crate) fn u16(&mut self) -> Option<u16>
        ensures { number max_u16 self.old ≡ (result, self.new) }
    {
        Some(self.number(u64::from(u16::MAX))? as u16)
    }

    /// Passes a number of 32 bits.
    #[inline(always)]
    pub(crate) fn u32(&mut self) -> Option<u32>
        ensures { number max_u32 self.old ≡ (result, self.new) }
    {
        Some(self.number(u64::from(u32::MAX))? as u32)
    }

    /// Passes these bytes and then a number of 64 bits.
    #[inline(always)]
    pub(crate) fn u64_behind(&mut self, text: &[u8]) -> Option<u64>
        ensures { numbered text.now max_u64 self.old ≡ (result, self.new) }
    {
        self.numbered(text, u64::MAX)
    }

    /// Passes these bytes and then a number of 16 bits.
    #[inline(always)]
    pub(crate) fn u16_behind(&mut self, text: &[u8]) -> Option<u16>
        ensures { numbered text.now max_u16 self.old ≡ (result, self.new) }
    {
        Some(self.numbered(text, u64::from(u16::MAX))? as u16)
    }

    /// Passes these bytes and then a number of 32 bits.
    #[inline(always)]
    pub(crate) fn u32_behind(&mut self, text: &[u8]) -> Option<u32>
        ensures { numbered text.now max_u32 self.old ≡ (result, self.new) }
    {
        Some(self.numbered(text, u64::from(u32::MAX))? as u32)
    }
}

impl<'a> Cursor<'a> {
    /// Passes one digit, if the number with this digit appended is at most `limit`.
    #[inline(always)]
    #[tactic(auto, unfolding(crate::specs::Reading::fixed))]
    fn digit(&mut self, value: u64, limit: u64) -> Option<u64>
        ensures { fixed (limit ∷ []) value self.old ≡ (result, self.new) }
    {
        let [first, rest @ ..] = self.left else {
            return None;
        };
        let longer = with_digit(value, *first, limit)?;
        self.left = rest;
        Some(longer)
    }

    /// Passes one digit for each limit. What the digits make so far is at most that limit.
    #[inline(always)]
    #[tactic(auto, using(crate::proofs::Readers::fixing))]
    pub(crate) fn fixed(&mut self, limits: &[u64]) -> Option<u64>
        ensures { fixed limits.now 0 self.old ≡ (result, self.new) }
    {
        let mut value = 0;
        for limit in limits {
            value = self.digit(value, *limit)?;
        }
        Some(value)
    }
}

/// A number with this digit appended, if that is at most `max`.
#[inline(always)]
fn with_digit(value: u64, byte: u8, max: u64) -> Option<u64>
    ensures { result ≡ (if is_ascii_digit byte && nat_le (value * 10 + (byte - 48)) max then Some (value * 10 + (byte - 48)) else None) }
{
    if !byte.is_ascii_digit() {
        return None;
    }
    let longer = value.checked_mul(10)?.checked_add(u64::from(byte - b'0'))?;
    if longer <= max { Some(longer) } else { None }
}

/// The number that `start` makes with the digits at the front of the text, as many as keep it at
/// most `max`, and how many these are.
#[inline(always)]
#[tactic(auto, using(crate::proofs::Readers::counting))]
fn count_digits(text: &[u8], max: u64, start: u64) -> (u64, usize)
    requires { start ≤ max }
    ensures answer { digits max start text.now ≡ (Some result.0, drop result.1 text.now) }
    ensures within { result.1 ≤ length text.now }
    ensures most { result.0 ≤ max }
{
    let mut value = start;
    for (at, byte) in text.iter().enumerate() {
        let Some(longer) = with_digit(value, *byte, max) else {
            return (value, at);
        };
        value = longer;
    }
    (value, text.len())
}
