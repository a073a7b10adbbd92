//! Members with a number or a flag.

ghost use Rattle.std.specs.Prelude.{◌≡◌, ◌≤◌, IfOk};
ghost use Rattle.serde_json.specs.View.{view};
ghost use Rattle.np_json.specs.Reading.{Gives};
ghost use Rattle.np_json.specs.Leaf.{whole_required, whole_or, whole_maybe, flag_or};

use crate::fault::{Place, Reading};
use crate::leaf::{flag_of, required, whole_of};
use serde_json::Value;
use std::alloc::Global;

/// A whole number of the range, which must be there.
#[tactic(auto, using(crate::proofs::Binds::exits), unfolding(crate::specs::Leaf::whole_required))]
pub fn whole_required(
    alloc: Global,
    at: &[u8],
    key: &str,
    least: u32,
    most: u32,
    value: &Value,
) -> Reading<u32>
    ensures gives { Gives (λ n. n) result
        (whole_required at.now key.now least most (view value.now)) }
    ensures most { IfOk result (λ n. n ≤ most) }
{
    let member = required(alloc, at, key, value)?;
    whole_of(alloc, Place::Member(at, key), least, most, member)
}

/// A whole number of the range, or its default if it is absent.
pub fn whole(
    alloc: Global,
    at: &[u8],
    key: &str,
    least: u32,
    most: u32,
    absent: u32,
    value: &Value,
) -> Reading<u32>
    requires { absent ≤ most }
    ensures gives { Gives (λ n. n) result
        (whole_or at.now key.now least most absent (view value.now)) }
    ensures most { IfOk result (λ n. n ≤ most) }
{
    let Some(member) = value.get(key) else {
        return Ok(absent);
    };
    whole_of(alloc, Place::Member(at, key), least, most, member)
}

/// A whole number of the range, if it is there.
pub fn whole_maybe(
    alloc: Global,
    at: &[u8],
    key: &str,
    least: u32,
    most: u32,
    value: &Value,
) -> Reading<Option<u32>>
    ensures { Gives (λ n. n) result (whole_maybe at.now key.now least most (view value.now)) }
{
    let Some(member) = value.get(key) else {
        return Ok(None);
    };
    Ok(Some(whole_of(alloc, Place::Member(at, key), least, most, member)?))
}

/// `true` or `false`, or its default if it is absent.
pub fn flag(alloc: Global, at: &[u8], key: &str, absent: bool, value: &Value) -> Reading<bool>
    ensures { Gives (λ b. b) result (flag_or at.now key.now absent (view value.now)) }
{
    let Some(member) = value.get(key) else {
        return Ok(absent);
    };
    flag_of(alloc, Place::Member(at, key), member)
}
