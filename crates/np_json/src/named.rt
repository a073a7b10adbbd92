//! Rows with names of their own.

ghost use Rattle.std.specs.Prelude.{◌≡◌, ◌<◌, ◌+◌, ◌^◌, List, ℕ, ◌++◌, ◌∷◌, [], false, length, position, OnOk, OnErr, IfOk, IfSome};
ghost use Rattle.std.specs.List.{list_any};
ghost use Rattle.std.specs.Str.{bytes_eq};

use indexmap::IndexSet;
use np_config::{Name, Named};
use std::alloc::{AllocError, Global};
use std::marker::Model;

/// At most 65,535 rows in order, found by their names, no two of which are equal.
#[derive(Drop)]
pub struct Table<T: Named> {
    rows: Vec<T>,
    names: IndexSet<Vec<u8>>,
}

impl<T: Named> Model for Table<T> {
    ghost use Rattle.std.specs.Prelude.{List, length, map, ◌≡◌, ◌<◌, ◌^◌};

    ghost Value = { List T };

    ghost view = { λ t. t.rows.items };

    ghost invariant = { λ t. (map (λ k. k.items) t.names.keys ≡ map T.name t.rows.items)
        × (length t.rows.items < 2 ^ 16) };
}

impl<T: Named> Table<T> {
    /// A table without rows.
    pub fn new(alloc: Global) -> Table<T>
        ensures { result ≡ [] }
    {
        Table {
            rows: Vec::new(alloc),
            names: IndexSet::new(alloc),
        }
    }

    /// How many rows there are.
    pub fn len(&self) -> usize
        ensures len { result ≡ length self.now }
        ensures small { result < 2 ^ 16 }
    {
        self.rows.len()
    }

    /// Whether there is no row.
    pub fn is_empty(&self) -> bool
        ensures { result ≡ (length self.now == 0) }
    {
        self.rows.is_empty()
    }

    /// The rows, in order.
    pub fn rows(&self) -> &[T]
        ensures { result.now ≡ self.now }
    {
        self.rows.as_slice()
    }

    /// The rows themselves. It takes no memory.
    pub fn into_rows(self) -> Vec<T>
        ensures { result.items ≡ self }
    {
        let Table { rows, names: _ } = self;
        rows
    }

    /// Whether a row has this name. The cost does not grow with the rows.
    pub fn has(&self, name: &[u8]) -> bool
        ensures { result ≡ list_any (λ row. bytes_eq name.now (T.name row)) self.now }
    {
        self.names.contains(name)
    }

    /// The place of the row with this name. The cost does not grow with the rows.
    pub fn place(&self, name: &[u8]) -> Option<u16>
        ensures place { result ≡ position (λ row. bytes_eq name.now (T.name row)) self.now }
        ensures within { IfSome result (λ place. place < length self.now) }
        ensures small { IfSome result (λ place. place + 1 < 2 ^ 16) }
    {
        let place = self.names.get_index_of(name)?;
        Some(place as u16)
    }

    /// Adds a row at the end.
    pub fn push(&mut self, alloc: Global, row: T) -> Result<(), AllocError>
        requires new { list_any (λ other. bytes_eq (T.name row) (T.name other)) self.old ≡ false }
        requires room { length self.old + 1 < 2 ^ 16 }
        ensures ok { OnOk result (self.new ≡ self.old ++ row ∷ []) }
        ensures err { OnErr result (self.new ≡ self.old) }
    {
        self.rows.reserve(1)?;
        let name = Vec::from_slice(alloc, row.name())?;
        self.names.insert(name)?;
        self.rows.push(row)?;
        Ok(())
    }
}

ghost use Rattle.std.specs.Prelude.{◌==◌, codes, map};
ghost use Rattle.serde_json.specs.View.{view};
ghost use Rattle.np_json.specs.Reading.{Gives, pointer_to};
ghost use Rattle.np_json.specs.Leaf.{new_name, name_at, named_at};

use crate::fault::{ConfigKind, Place, Reading, fault_in};
use crate::leaf::{object, required, text_of};
use np_text::is_name;
use serde_json::Value;

#[tactic(auto, unfolding(crate::specs::Leaf::new_name))]
fn new_name<T: Named>(
    alloc: Global,
    place: Place<'_>,
    earlier: &Table<T>,
    text: &[u8],
) -> Reading<Vec<u8>>
    ensures gives { Gives (λ n. n.items) result
        (new_name T.name (pointer_to place.entry) earlier.now text.now) }
    ensures fresh { IfOk result
        (λ n. list_any (λ row. bytes_eq n.items (T.name row)) earlier.now ≡ false) }
{
    if !is_name(text) {
        return Err(fault_in(alloc, ConfigKind::BadName, place));
    }
    if earlier.has(text) {
        return Err(fault_in(alloc, ConfigKind::Repeated, place));
    }
    Ok(Vec::from_slice(alloc, text)?)
}

/// The name of a row, which none of the earlier ones has.
#[tactic(auto, using(crate::proofs::Binds::exits), unfolding(crate::specs::Leaf::name_at))]
fn name<T: Named>(alloc: Global, at: &[u8], earlier: &Table<T>, value: &Value) -> Reading<Vec<u8>>
    ensures gives { Gives (λ n. n.items) result
        (name_at T.name at.now earlier.now (view value.now)) }
    ensures fresh { IfOk result
        (λ n. list_any (λ row. bytes_eq n.items (T.name row)) earlier.now ≡ false) }
{
    let member = required(alloc, at, "name", value)?;
    let place = Place::Member(at, "name");
    let text = text_of(alloc, place, member)?;
    new_name(alloc, place, earlier, text.as_bytes())
}

/// What is read first of a row: where it is, and its name.
#[derive(Drop)]
pub struct NamedRow {
    /// The pointer to the row.
    pub at: Vec<u8>,
    pub name: Name,
}

/// The name of a row, an object with no keys except these. None of the earlier rows has it.
#[tactic(auto, using(crate::proofs::Binds::exits), unfolding(crate::specs::Leaf::named_at))]
pub fn named_row<T: Named>(
    alloc: Global,
    place: Place<'_>,
    keys: &[&str],
    earlier: &Table<T>,
    value: &Value,
) -> Reading<NamedRow>
    ensures gives { Gives (λ r. r.name) result (named_at T.name (map (λ k. k.now) keys.now)
        (pointer_to place.entry) earlier.now (view value.now)) }
    ensures at { IfOk result (λ r. r.at.items ≡ pointer_to place.entry) }
    ensures fresh { IfOk result
        (λ r. list_any (λ row. bytes_eq r.name (T.name row)) earlier.now ≡ false) }
{
    let at = place.pointer(alloc)?;
    object(alloc, at.as_slice(), keys, value)?;
    let name = Name::new(name(alloc, at.as_slice(), earlier, value)?);
    Ok(NamedRow { at, name })
}
