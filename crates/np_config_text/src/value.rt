//! Lists and members as values.

ghost use Rattle.std.specs.Prelude.{◌≡◌, ◌==◌, ◌<◌, ◌^◌, ℕ, Option, All, filter, length, IfOk, OnOk};
ghost use Rattle.std.specs.Option.{option_map};
ghost use Rattle.std.specs.Str.{IsAscii};
ghost use Rattle.serde_json.specs.Data.{Data, string, array};
ghost use Rattle.serde_json.specs.View.{view, items_of, members_view};
ghost use Rattle.np_config_text.specs.Lower.{Configuration};
ghost use Rattle.np_config_text.specs.Canonical.{list_data, list_if_any, placed, put_given, put_count, put_limit};

use np_amount::Limit;
use np_config::Config;
use serde_json::{Map, Value, put};
use std::alloc::{AllocError, Global};
use std::str;

/// A text of ASCII bytes as a value.
#[tactic(auto, using(crate::proofs::Again::utf8))]
pub(crate) fn text_value(alloc: Global, text: &[u8]) -> Result<Value, AllocError>
    requires { IsAscii text.now }
    ensures { IfOk result (λ v. view v ≡ string text.now) }
{
    let Ok(text) = str::from_utf8(text) else {
        unreachable!()
    };
    Value::try_from_str(alloc, text)
}

/// A row that has a value.
pub(crate) trait Shown {
    /// What holds of a row that can be shown.
    ghost can_show: { Self → Type 0 };

    ghost shown: { Configuration → Self → Data };

    fn value(&self, alloc: Global, config: &Config) -> Result<Value, AllocError>
        requires { can_show self.now }
        ensures { IfOk result (λ v. view v ≡ shown config.now self.now) };
}

pub(crate) fn list_value<T: Shown>(
    alloc: Global,
    config: &Config,
    rows: &[T],
) -> Result<Value, AllocError>
    requires { All T.can_show rows.now }
    ensures { IfOk result (λ v. view v ≡ list_data (T.shown config.now) rows.now) }
{
    let mut values = Vec::with_capacity(alloc, rows.len())?;
    for row in rows {
        values.push(row.value(alloc, config)?)?;
    }
    Ok(Value::Array(values))
}

/// The list of the rows, if there are any.
pub(crate) fn list_if_any<T: Shown>(
    alloc: Global,
    config: &Config,
    rows: &[T],
) -> Result<Option<Value>, AllocError>
    requires { All T.can_show rows.now }
    ensures { IfOk result
        (λ v. option_map (λ w. view w) v ≡ list_if_any (T.shown config.now) rows.now) }
{
    if rows.is_empty() {
        return Ok(None);
    }
    Ok(Some(list_value(alloc, config, rows)?))
}

/// A row of an owner.
pub(crate) trait Owned: Shown {
    ghost owner: { Self → ℕ };

    fn owner(&self) -> u16
        ensures { result ≡ owner self.now };
}

pub(crate) fn owned_value<T: Owned>(
    alloc: Global,
    config: &Config,
    owner: u16,
    rows: &[T],
) -> Result<Value, AllocError>
    requires { All T.can_show rows.now }
    ensures { IfOk result (λ v. view v
        ≡ list_data (T.shown config.now) (filter (λ r. T.owner r == owner) rows.now)) }
{
    let mut values = Vec::new(alloc);
    for row in rows {
        if row.owner() == owner {
            values.push(row.value(alloc, config)?)?;
        }
    }
    Ok(Value::Array(values))
}

/// A row whose value depends on its place.
pub(crate) trait Placed {
    ghost can_show: { Self → Type 0 };

    ghost shown: { Configuration → ℕ → Self → Data };

    fn value_at(&self, alloc: Global, config: &Config, place: u16) -> Result<Value, AllocError>
        requires { can_show self.now }
        ensures { IfOk result (λ v. view v ≡ shown config.now place self.now) };
}

pub(crate) fn placed_value<T: Placed>(
    alloc: Global,
    config: &Config,
    rows: &[T],
) -> Result<Value, AllocError>
    requires shown { All T.can_show rows.now }
    requires few { length rows.now < 2 ^ 16 }
    ensures { IfOk result (λ v. view v ≡ array (items_of (placed (T.shown config.now) 0 rows.now))) }
{
    let mut values = Vec::with_capacity(alloc, rows.len())?;
    for (place, row) in rows.iter().enumerate() {
        values.push(row.value_at(alloc, config, place as u16)?)?;
    }
    Ok(Value::Array(values))
}

/// Puts a value, if there is one.
pub(crate) fn put_given(
    members: &mut Map<String, Value>,
    alloc: Global,
    key: &str,
    value: Option<Value>,
) -> Result<(), AllocError>
    ensures { OnOk result (members_view members.new.entries
        ≡ put_given key.now (option_map (λ v. view v) value) (members_view members.old.entries)) }
{
    let Some(value) = value else {
        return Ok(());
    };
    put(members, alloc, key, value)
}

/// Puts a number, if there is one.
pub(crate) fn put_count(
    members: &mut Map<String, Value>,
    alloc: Global,
    key: &str,
    number: Option<u64>,
) -> Result<(), AllocError>
    ensures { OnOk result (members_view members.new.entries
        ≡ put_count key.now number (members_view members.old.entries)) }
{
    let Some(number) = number else {
        return Ok(());
    };
    put(members, alloc, key, Value::from(number))
}

/// Puts the limits that are there.
pub(crate) fn put_limit(
    members: &mut Map<String, Value>,
    alloc: Global,
    limit: Limit,
) -> Result<(), AllocError>
    ensures { OnOk result (members_view members.new.entries
        ≡ put_limit limit (members_view members.old.entries)) }
{
    put_count(members, alloc, "max-cores", limit.cores)?;
    put_count(members, alloc, "max-ram", limit.ram)?;
    put_count(members, alloc, "max-servers", limit.instances)
}
