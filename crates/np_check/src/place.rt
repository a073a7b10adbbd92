//! Where a JSON pointer points to in a text.

use np_text::{NoMemory, read_number};
use std::alloc::Global;

/// What a walk through a text has found of a pointer.
#[derive(Clone, Copy)]
pub(crate) struct Found {
    /// Where the value begins, or the innermost one on the way to it that is there.
    pub at: usize,
    /// The first key of the object there that is none of the keys that it may have: where it begins
    /// and where it ends, between its quotes.
    pub stranger: Option<(usize, usize)>,
}

/// A walk through the bytes of a JSON text, one byte after another.
#[derive(Drop)]
struct Walk<'a> {
    text: &'a [u8],
    steps: &'a [&'a [u8]],
    keys: &'a [&'a str],
    /// How many objects and lists are open.
    depth: usize,
    /// How many steps lead to the value that the walk is in. It is directly in that value if one
    /// more object or list is open.
    passed: usize,
    /// Whether that value is an object, and whether a key of it comes next.
    is_object: bool,
    wants_key: bool,
    /// Whether the key before is the next step.
    is_next: bool,
    /// The place of the item in that value, if it is a list.
    index: u64,
    in_text: bool,
    in_key: bool,
    is_escaped: bool,
    /// Where the text or the key began.
    start: usize,
    found: Found,
}

/// The steps of a pointer.
pub(crate) fn steps_of(alloc: Global, pointer: &[u8]) -> Result<Vec<&[u8]>, NoMemory> {
    let mut steps = Vec::new(alloc);
    let mut from = 0;
    for (at, byte) in pointer.iter().enumerate() {
        if *byte == b'/' {
            if at > 0
                && let Some(step) = pointer.get(from..at)
            {
                steps.push(step)?;
            }
            from = at + 1;
        }
    }
    if from > 0
        && let Some(step) = pointer.get(from..pointer.len())
    {
        steps.push(step)?;
    }
    Ok(steps)
}

/// The number that a step of a list is.
fn index_of(step: &[u8]) -> Option<u64> {
    read_number(step, u64::MAX)
}

fn is_among(key: &[u8], keys: &[&str]) -> bool {
    keys.iter().any(|known| known.as_bytes() == key)
}

impl Walk<'_> {
    /// Whether the walk is directly in the value that the steps so far lead to.
    fn is_direct(&self) -> bool {
        self.depth == self.passed.saturating_add(1)
    }

    /// A value begins here: it may be the next step.
    fn begin_value(&mut self, at: usize, byte: u8) {
        let is_container = byte == b'{' || byte == b'[';
        let is_step = if self.depth == 0 {
            true
        } else {
            self.is_direct() && self.is_the_next_step()
        };
        if is_step {
            self.found = Found { at, stranger: None };
            self.passed = if self.depth == 0 {
                0
            } else {
                self.passed.saturating_add(1)
            };
        }
        if is_container {
            self.depth = self.depth.saturating_add(1);
        }
        if is_step && is_container {
            self.is_object = byte == b'{';
            self.wants_key = self.is_object;
            self.index = 0;
        }
    }

    fn is_the_next_step(&self) -> bool {
        match self.steps.get(self.passed) {
            None => false,
            Some(step) if self.is_object => self.is_next && !step.is_empty(),
            Some(step) => index_of(step) == Some(self.index),
        }
    }

    /// A value has ended, so that the walk is directly in the one around it.
    fn leave(&mut self) {
        let outer = self.depth.saturating_sub(1);
        if self.passed > outer {
            self.passed = outer;
            let index = self.steps.get(outer).and_then(|step| index_of(step));
            self.is_object = index.is_none();
            self.index = index.unwrap_or(0);
        }
    }

    /// A key has ended before this place.
    fn end_key(&mut self, at: usize) {
        self.in_key = false;
        self.wants_key = false;
        let Some(key) = self.text.get(self.start..at) else {
            return;
        };
        self.is_next = matches!(self.steps.get(self.passed), Some(step) if *step == key);
        let is_last = self.passed == self.steps.len();
        let is_plain = !key.contains(&b'\\');
        if is_last && is_plain && self.found.stranger.is_none() && !is_among(key, self.keys) {
            self.found.stranger = Some((self.start, at));
        }
    }

    /// Goes past a byte of a text or a key.
    fn pass_in_text(&mut self, at: usize, byte: u8) {
        if self.is_escaped {
            self.is_escaped = false;
        } else if byte == b'\\' {
            self.is_escaped = true;
        } else if byte == b'"' {
            self.in_text = false;
            if self.in_key {
                self.end_key(at);
            }
        }
    }

    fn begin_text(&mut self, at: usize) {
        self.in_text = true;
        self.is_escaped = false;
        self.start = at.saturating_add(1);
        if self.is_direct() && self.is_object && self.wants_key {
            self.in_key = true;
        } else {
            self.begin_value(at, b'"');
        }
    }

    /// Goes past a byte.
    fn pass(&mut self, at: usize, byte: u8) {
        if self.in_text {
            self.pass_in_text(at, byte);
            return;
        }
        match byte {
            b'"' => self.begin_text(at),
            b' ' | b'\n' | b'\r' | b'\t' | b':' => (),
            b',' => {
                self.leave();
                if self.is_direct() {
                    self.wants_key = self.is_object;
                    self.index = self.index.saturating_add(1);
                }
            }
            b'}' | b']' => {
                self.leave();
                self.depth = self.depth.saturating_sub(1);
                self.leave();
            }
            _ => self.begin_value(at, byte),
        }
    }
}

/// Where the value is to which the steps lead in a JSON text, or the innermost one on the way that
/// is there, and its first key that is none of these. Of two equal keys the last one counts; a key
/// that is written with an escape is passed over. Takes time linear in the text.
pub(crate) fn find(text: &[u8], steps: &[&[u8]], keys: &[&str]) -> Found {
    let mut walk = Walk {
        text,
        steps,
        keys,
        depth: 0,
        passed: 0,
        is_object: false,
        wants_key: false,
        is_next: false,
        index: 0,
        in_text: false,
        in_key: false,
        is_escaped: false,
        start: 0,
        found: Found {
            at: 0,
            stranger: None,
        },
    };
    for (at, byte) in text.iter().enumerate() {
        walk.pass(at, *byte);
    }
    walk.found
}
