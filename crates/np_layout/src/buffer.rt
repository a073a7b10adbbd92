//! Sixty-four bytes in which a path's text is put together.

ghost use Rattle.std.specs.Prelude.{◌≡◌, ◌+◌, ◌≤◌, ◌<◌, ◌++◌, length, drop};
ghost use Rattle.std.specs.Fmt.{decimal};
ghost use Rattle.np_layout.specs.Lower.{request_text_of, ten_digits_of};

use np_text::{RequestId, request_text, ten_digits};
use std::marker::Model;

/// A text of at most 64 bytes, which takes no memory.
#[derive(Drop)]
pub struct Buffer {
    bytes: [u8; 64],
    len: usize,
}

impl Model for Buffer {
    ghost use Rattle.std.specs.Prelude.{List, ℕ, ◌≤◌, take};

    ghost Value = { List ℕ };

    ghost view = { λ b. take b.len b.bytes };

    ghost invariant = { λ b. b.len ≤ 64 };
}

impl Buffer {
    /// This text alone.
    pub fn new(text: &[u8]) -> Buffer
        requires { length text.now ≤ 64 }
        ensures { result ≡ text.now }
    {
        let mut bytes = [0; 64];
        bytes[..text.len()].copy_from_slice(text);
        Buffer {
            bytes,
            len: text.len(),
        }
    }

    /// The text with more text behind it.
    pub fn with_text(mut self, text: &[u8]) -> Buffer
        requires { length self + length text.now ≤ 64 }
        ensures text { result ≡ self ++ text.now }
        ensures length { length result ≡ length self + length text.now }
    {
        let start = self.len;
        let end = start + text.len();
        self.bytes[start..end].copy_from_slice(text);
        self.len = end;
        self
    }

    /// The text with ten digits behind it.
    pub fn with_ten(self, n: u32) -> Buffer
        requires { length self + 10 ≤ 64 }
        ensures text { result ≡ self ++ ten_digits_of n }
        ensures length { length result ≡ length self + 10 }
    {
        self.with_text(&ten_digits(n))
    }

    /// The text with a decimal number behind it.
    pub fn with_decimal(self, n: u64) -> Buffer
        requires { length self + 20 ≤ 64 }
        ensures text { result ≡ self ++ decimal n }
        ensures length { length result ≡ length self + length (decimal n) }
    {
        let (digits, at) = decimal_digits(n);
        self.with_text(&digits[at..])
    }

    /// The text with a request's text behind it.
    pub fn with_request(self, id: RequestId) -> Buffer
        requires room { length self + 14 ≤ 64 }
        requires least { 100 ≤ id.priority }
        requires most { id.priority ≤ 999 }
        ensures text { result ≡ self ++ request_text_of id }
        ensures length { length result ≡ length self + 14 }
    {
        self.with_text(&request_text(id))
    }

    /// The text.
    pub fn bytes(&self) -> &[u8]
        ensures { result.now ≡ self.now }
    {
        &self.bytes[..self.len]
    }
}

/// The decimal spelling of `n` at the end of the bytes, and where it begins.
fn decimal_digits(n: u64) -> ([u8; 20], usize)
    ensures at { result.1 < 20 }
    ensures digits { drop result.1 result.0 ≡ decimal n }
{
    let mut digits = [b'0'; 20];
    let mut at = 19;
    let mut rest = n;
    while rest >= 10 {
        digits[at] = b'0' + (rest % 10) as u8;
        rest /= 10;
        at -= 1;
    }
    digits[at] = b'0' + rest as u8;
    (digits, at)
}
