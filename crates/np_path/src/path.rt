//! A path.

ghost use Rattle.std.specs.Prelude.{◌≡◌, ◌↔◌, ◌++◌, true, IfOk, IfSome, IsSome};
ghost use Rattle.std.specs.List.{before_last, list_all, list_any};
ghost use Rattle.std.specs.String.{string_bytes};
ghost use Rattle.std.specs.Option.{option_copied};
ghost use Rattle.np_text.specs.Number.{ten_digits_of};
ghost use Rattle.np_path.specs.Grammar.{name_fault, path_fault, is_element, is_kept, is_path, is_slash, below, name_of, parent_of, slashed};
ghost use Rattle.np_path.specs.Makes.{Makes};

use crate::fault::PathFault;
use crate::grammar::{are_kept, is_element, name_place};
use np_text::ten_digits;
use std::alloc::{AllocError, Global};
use std::marker::Model;

/// The path of a node: `/`, or elements with a slash before each. An element isn't empty, `.` or
/// `..`, and has no slash, no byte below 0x20 and no 0x7F.
#[derive(Drop)]
pub struct Path {
    text: String,
    // Where the name begins: just after the last slash.
    name_at: usize,
}

impl Model for Path {
    ghost use Rattle.std.specs.Prelude.{List, ℕ};
    ghost use Rattle.std.specs.String.{string_bytes};
    ghost use Rattle.np_path.specs.Grammar.{IsNameAt};

    ghost Value = { List ℕ };

    ghost view = { λ p. string_bytes p.text };

    ghost invariant = { λ p. IsNameAt (string_bytes p.text) p.name_at };
}

impl Path {
    /// Reads a text as a path, in one walk over its bytes.
    pub fn new(alloc: Global, text: &str) -> Result<Path, PathFault>
        ensures { Makes (path_fault text.now) text.now result }
    {
        match name_place(text.as_bytes()) {
            Ok(name_at) => Ok(Path {
                text: String::from_str(alloc, text)?,
                name_at,
            }),
            Err(place) => Err(PathFault::Bad { place }),
        }
    }

    /// The path as it is written. The time of `text`, `parent` and `name` doesn't grow with the path.
    pub fn text(&self) -> &str
        ensures text { result.now ≡ self.now }
        ensures path { is_path self.now ≡ true }
    {
        let _ = self.name_at;
        self.text.as_str()
    }

    /// The path of the node above; only `/` has none.
    pub fn parent(&self) -> Option<&str>
        ensures { option_copied result ≡ parent_of self.now }
    {
        let text = self.text.as_str();
        if text.len() == 1 {
            return None;
        }
        let (root, _) = text.split_at(1);
        if self.name_at == 1 {
            return Some(root);
        }
        let (parent, _) = text.split_at(self.name_at - 1);
        Some(parent)
    }

    /// The node's name below its parent, which is empty only for `/`.
    pub fn name(&self) -> &str
        ensures { result.now ≡ name_of self.now }
    {
        let (_, name) = self.text.as_str().split_at(self.name_at);
        name
    }

    /// What is before the last slash, and the name after it. For `/`, and for a child of `/`, the
    /// first is empty.
    pub fn halves(&self) -> (&[u8], &[u8])
        ensures before { result.0.now ≡ before_last is_slash self.now }
        ensures name { result.1.now ≡ name_of self.now }
    {
        let (before, name) = self.text.as_bytes().split_at(self.name_at);
        (&before[..self.name_at - 1], name)
    }

    /// The path of the child of that name, which must be an element. Copies this path.
    pub fn child(&self, name: &str) -> Result<Path, PathFault>
        ensures { Makes (name_fault name.now) (below self.now name.now) result }
    {
        if !is_element(name.as_bytes()) {
            return Err(PathFault::Bad { place: 0 });
        }
        let mut text = self.slashed(name.len())?;
        let name_at = text.len();
        text.push_str(name)?;
        Ok(Path { text, name_at })
    }

    /// The path of the child whose name is the prefix and the ten digits of `n`, as the name of a
    /// sequence node is made.
    pub fn sequence_child(&self, prefix: &str, n: u32) -> Result<Path, PathFault>
        ensures { let name = prefix.now ++ ten_digits_of n in
            Makes (name_fault name) (below self.now name) result }
    {
        if !are_kept(prefix.as_bytes()) {
            return Err(PathFault::Bad { place: 0 });
        }
        match self.numbered(prefix, n) {
            Ok(path) => Ok(path),
            Err(_) => Err(PathFault::NoMemory),
        }
    }

    /// That path, if each byte of the prefix may be in an element.
    #[tactic(auto, using(crate::proofs::PartsLemmas::numbered_names))]
    fn numbered(&self, prefix: &str, n: u32) -> Result<Path, AllocError>
        requires { list_all is_kept prefix.now ≡ true }
        ensures path { IfOk result (λ path. path ≡ below self.now (prefix.now ++ ten_digits_of n)) }
        ensures name { is_element (prefix.now ++ ten_digits_of n) ≡ true }
    {
        let mut text = self.slashed(prefix.len().saturating_add(10))?;
        let name_at = text.len();
        text.push_str(prefix)?;
        for digit in ten_digits(n) {
            text.push(char::from(digit))?;
        }
        Ok(Path { text, name_at })
    }

    /// This path and a slash, as it comes before a child's name, with room for `more` bytes.
    fn slashed(&self, more: usize) -> Result<String, AllocError>
        ensures text { IfOk result (λ text. string_bytes text ≡ slashed self.now) }
        ensures path { is_path self.now ≡ true }
    {
        let _ = self.name_at;
        let path = self.text.as_str();
        let alloc = *self.text.allocator();
        let mut text = String::with_capacity(
            alloc,
            path.len().saturating_add(1).saturating_add(more),
        )?;
        text.push_str(path)?;
        if path.len() > 1 {
            text.push('/')?;
        }
        Ok(text)
    }
}

/// What is before the last slash of a text, and what is after it; none if there is no slash.
/// The text need not be a path.
pub fn halves(text: &[u8]) -> Option<(&[u8], &[u8])>
    ensures none { IsSome result ↔ (list_any is_slash text.now ≡ true) }
    ensures before { IfSome result (λ parts. parts.0.now ≡ before_last is_slash text.now) }
    ensures name { IfSome result (λ parts. parts.1.now ≡ name_of text.now) }
{
    let mut at = text.len();
    while at > 0 && text[at - 1] != b'/' {
        at -= 1;
    }
    if at == 0 {
        return None;
    }
    let (before, name) = text.split_at(at);
    Some((&before[..at - 1], name))
}
