//! The swept pairs of a tree.

ghost use Rattle.std.specs.Prelude.{◌≡◌, length, slice_get, IfOk, OnOk};
ghost use Rattle.np_keeper.specs.Lower.{NonePass, Rises, SweptPairs, insert_before, is_pair_before, option_map, pair_named, same_pair, swept_at, under};

use crate::names::pair_named;
use np_layout::{PathText, Place};
use np_machine::Swept;
use np_tables::SweptTable;
use np_tree::Tree;
use np_tree_rows::children;
use std::alloc::{AllocError, Global};

/// Puts a pair that is not there at its place.
fn put(table: &mut SweptTable, pair: Swept) -> Result<(), AllocError>
    requires { NonePass (λ other. same_pair other pair) table.old.rows }
    ensures { OnOk result
        (table.new.rows ≡ insert_before (is_pair_before pair) pair table.old.rows) }
{
    table.reserve()?;
    table.insert(pair);
    Ok(())
}

/// How many swept pairs the tree has.
fn count(tree: &Tree) -> u32
    ensures { result ≡ length (under SweptPairs tree.now) }
{
    let directory = PathText::of(Place::SweptPairs);
    children(tree, directory.text())
}

/// The pair at a place, in the order of the names. `None` past the last one.
fn pair_at(tree: &Tree, at: u32) -> Option<Swept>
    ensures { result
        ≡ option_map (λ row. pair_named row.name) (slice_get (under SweptPairs tree.now) at) }
{
    let directory = PathText::of(Place::SweptPairs);
    let name = tree.child_at(directory.text(), at)?;
    Some(pair_named(name.as_bytes()))
}

/// The swept pairs of the state that the tree lays out. It reads the name of each once, and costs a
/// binary search for each and a move of those behind it, since names stand in another order.
pub fn swept_pairs(alloc: Global, tree: &Tree) -> Result<SweptTable, AllocError>
    requires { Rises is_pair_before (swept_at tree.now) }
    ensures { IfOk result (λ table. table.rows ≡ swept_at tree.now) }
{
    let mut table = SweptTable::new(alloc);
    for at in 0..count(tree) {
        if let Some(pair) = pair_at(tree, at) {
            put(&mut table, pair)?;
        }
    }
    Ok(table)
}
