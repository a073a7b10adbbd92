//! The kinds of values, each with the fault if the value is of another kind.

ghost use Rattle.std.specs.Prelude.{List, ℕ, ◌≡◌, ◌≤◌, map, IfOk};
ghost use Rattle.std.specs.List.{list_any};
ghost use Rattle.std.specs.Str.{bytes_eq};
ghost use Rattle.serde_json.specs.View.{view, members_view, items_view};
ghost use Rattle.np_json.specs.Reading.{Gives, pointer_to};
ghost use Rattle.np_json.specs.Leaf.{at_most, one_to, behind, only_keys, object_at, required, text_value, flag_value, whole_value, list_value};

use crate::fault::{ConfigKind, Place, Reading, fault_at, fault_in};
use serde_json::{Map, Value};
use std::alloc::Global;

fn is_one_of(key: &str, keys: &[&str]) -> bool
    ensures { result ≡ list_any (λ k. bytes_eq key.now k.now) keys.now }
{
    keys.iter().any(|known| key == *known)
}

#[tactic(auto, using(crate::proofs::Lists::list_any_mapped))]
fn is_among(key: &str, keys: &[&str]) -> bool
    ensures { result ≡ list_any (bytes_eq key.now) (map (λ k. k.now) keys.now) }
{
    is_one_of(key, keys)
}

fn has_only(members: &Map<String, Value>, keys: &[&str]) -> bool
    ensures { result ≡ only_keys (map (λ k. k.now) keys.now) (members_view members.now.entries) }
{
    for (key, _) in members {
        if !is_among(key.as_str(), keys) {
            return false;
        }
    }
    true
}

/// Tests that the value is an object, and has no keys except these.
pub fn object(alloc: Global, at: &[u8], keys: &[&str], value: &Value) -> Reading<()>
    ensures { Gives (λ done. done) result
        (object_at at.now (map (λ k. k.now) keys.now) (view value.now)) }
{
    let Some(members) = value.as_object() else {
        return Err(fault_at(alloc, ConfigKind::WrongType, at));
    };
    if !has_only(members, keys) {
        return Err(fault_at(alloc, ConfigKind::UnknownKey, at));
    }
    Ok(())
}

/// The member with this key, which must be there.
pub fn required<'a>(alloc: Global, at: &[u8], key: &str, value: &'a Value) -> Reading<&'a Value>
    ensures { Gives (λ v. view v.now) result (required at.now key.now (view value.now)) }
{
    let Some(member) = value.get(key) else {
        return Err(fault_in(alloc, ConfigKind::Missing, Place::Member(at, key)));
    };
    Ok(member)
}

/// A text.
pub fn text_of<'a>(alloc: Global, place: Place<'_>, value: &'a Value) -> Reading<&'a str>
    ensures { Gives (λ t. t.now) result (text_value (pointer_to place.entry) (view value.now)) }
{
    let Some(text) = value.as_str() else {
        return Err(fault_in(alloc, ConfigKind::WrongType, place));
    };
    Ok(text)
}

/// `true` or `false`.
pub fn flag_of(alloc: Global, place: Place<'_>, value: &Value) -> Reading<bool>
    ensures { Gives (λ b. b) result (flag_value (pointer_to place.entry) (view value.now)) }
{
    let Some(flag) = value.as_bool() else {
        return Err(fault_in(alloc, ConfigKind::WrongType, place));
    };
    Ok(flag)
}

/// A whole number of the range.
pub fn whole_of(
    alloc: Global,
    place: Place<'_>,
    least: u32,
    most: u32,
    value: &Value,
) -> Reading<u32>
    ensures gives { Gives (λ n. n) result
        (whole_value (pointer_to place.entry) least most (view value.now)) }
    ensures least { IfOk result (λ n. least ≤ n) }
    ensures most { IfOk result (λ n. n ≤ most) }
{
    let Some(number) = value.as_u64() else {
        return Err(fault_in(alloc, ConfigKind::WrongType, place));
    };
    if number < u64::from(least) || number > u64::from(most) {
        return Err(fault_in(alloc, ConfigKind::OutOfRange, place));
    }
    Ok(number as u32)
}

/// How many items a list may have.
#[derive(Clone, Copy)]
pub struct Length {
    /// How many items the earlier lists have that share the limit.
    pub before: usize,
    pub least: usize,
    pub most: usize,
}

impl Length {
    /// At most `most` items.
    pub const fn at_most(most: usize) -> Length
        ensures { result ≡ at_most most }
    {
        Length {
            before: 0,
            least: 0,
            most,
        }
    }

    /// One item or more.
    pub const fn one_to(most: usize) -> Length
        ensures { result ≡ one_to most }
    {
        Length {
            before: 0,
            least: 1,
            most,
        }
    }

    /// The same after earlier lists that share the limit, which have `earlier` items.
    pub const fn behind(self, earlier: usize) -> Length
        ensures { result ≡ behind earlier self }
    {
        Length {
            before: earlier,
            ..self
        }
    }
}

ghost use Rattle.std.specs.Prelude.{◌+◌, vec_len};

/// A list whose number of items is allowed.
#[tactic(auto, using(crate::proofs::Lists::counts))]
pub fn list_of<'a>(
    alloc: Global,
    place: Place<'_>,
    length: Length,
    value: &'a Value,
) -> Reading<&'a Vec<Value>>
    ensures gives { Gives (λ v. items_view v.now.items) result
        (list_value (pointer_to place.entry) length (view value.now)) }
    ensures most { IfOk result (λ v. length.before + vec_len v.now ≤ length.most) }
{
    let Some(items) = value.as_array() else {
        return Err(fault_in(alloc, ConfigKind::WrongType, place));
    };
    if length.before > length.most || items.len() > length.most - length.before {
        return Err(fault_in(alloc, ConfigKind::TooMany, place));
    }
    if items.len() < length.least {
        return Err(fault_in(alloc, ConfigKind::OutOfRange, place));
    }
    Ok(items)
}
