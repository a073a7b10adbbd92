//! The watches.

ghost use Rattle.std.specs.Prelude.{◌≡◌, [], true, false, not, filter, find, length, Ok, IfOk, OnErr, option_map, if◌then◌else◌};
ghost use Rattle.np_lists.specs.Change.{remove_first};
ghost use Rattle.np_watch.specs.Watching.{AreWatches, is_between, is_fired, is_watched, watch_of, with_watch};

use crate::watch::{ByKey, Watch, is_between, is_fired};
use np_lists::KeyTable;
use np_path::Path;
use np_text::NoMemory;
use np_tree::Tree;
use std::alloc::Global;
use std::marker::Model;

/// Watches of paths, each with a key of its own.
#[derive(Drop)]
pub struct Watches {
    alloc: Global,
    table: KeyTable<ByKey>,
}

impl Model for Watches {
    ghost use Rattle.std.specs.Prelude.{List};
    ghost use Rattle.np_watch.specs.Watching.{AreWatches};
    ghost use Rattle.np_watch.specs.declared.watch.Watch.{Watch};

    ghost Value = { List Watch };

    ghost view = { λ watches. watches.table };

    ghost invariant = { λ watches. AreWatches watches.table };
}

impl Watches {
    /// No watches. It takes no memory.
    pub fn new(alloc: Global) -> Watches
        ensures { result ≡ [] }
    {
        Watches {
            alloc,
            table: KeyTable::new(alloc),
        }
    }

    /// How many watches there are. Its contract also guarantees what is always true of them.
    pub fn count(&self) -> u32
        ensures number { result ≡ length self.now }
        ensures watches { AreWatches self.now }
    {
        self.table.count() as u32
    }

    /// Watches a path from the tree's last change on, and answers whether the key is new. If it is
    /// watched already, its watch stays as it is. Copies the path.
    pub fn set(&mut self, tree: &Tree, key: u32, path: &Path) -> Result<bool, NoMemory>
        ensures answer { IfOk result (λ is_new. is_new ≡ not (is_watched key self.old)) }
        ensures watched { is_watched key self.old ≡ true → result ≡ Ok false }
        ensures ok { IfOk result (λ is_new. self.new ≡
            (if is_new then with_watch (watch_of tree.now key path.now) self.old else self.old)) }
        ensures err { OnErr result (self.new ≡ self.old) }
    {
        set_watch(self.alloc, &mut self.table, tree, key, path)
    }

    /// The lowest key whose path has changed since its watch was set. That watch is taken out. Takes
    /// no memory, and looks two nodes up for each watch up to that one.
    pub fn take_fired(&mut self, tree: &Tree) -> Option<u32>
        ensures key { result ≡ option_map (λ watch. watch.key) (find (is_fired tree.now) self.old) }
        ensures rest { self.new ≡ remove_first (is_fired tree.now) self.old }
    {
        take_fired_watch(&mut self.table, tree)
    }

    /// Takes out the watches with a key from one number up to but not including another. Takes no
    /// memory.
    pub fn drop_keys(&mut self, from: u32, to: u32)
        ensures { self.new ≡ filter (λ watch. not (is_between from to watch)) self.old }
    {
        drop_between(&mut self.table, from, to);
    }
}

/// `Watches::set`.
fn set_watch(
    alloc: Global,
    table: &mut KeyTable<ByKey>,
    tree: &Tree,
    key: u32,
    path: &Path,
) -> Result<bool, NoMemory>
    requires { AreWatches table.old }
    ensures answer { IfOk result (λ is_new. is_new ≡ not (is_watched key table.old)) }
    ensures watched { is_watched key table.old ≡ true → result ≡ Ok false }
    ensures ok { IfOk result (λ is_new. table.new ≡
        (if is_new then with_watch (watch_of tree.now key path.now) table.old else table.old)) }
    ensures err { OnErr result (table.new ≡ table.old) }
    ensures watches { AreWatches table.new }
{
    if table.has(key) {
        return Ok(false);
    }
    if table.count() >= 4_294_967_295 {
        return Err(NoMemory);
    }
    let watch = new_watch(alloc, tree, key, path)?;
    table.insert(watch)?;
    Ok(true)
}

/// A watch of a path as it is in the tree.
fn new_watch(alloc: Global, tree: &Tree, key: u32, path: &Path) -> Result<Watch, NoMemory>
    ensures { IfOk result (λ watch. watch ≡ watch_of tree.now key path.now) }
{
    let Ok(path) = Path::new(alloc, path.text()) else {
        return Err(NoMemory);
    };
    Ok(Watch {
        key,
        path,
        at: tree.changes(),
    })
}

/// The key of the first watch whose path has changed.
fn first_fired(watches: &[Watch], tree: &Tree) -> Option<u32>
    ensures { result ≡ option_map (λ watch. watch.key) (find (is_fired tree.now) watches.now) }
{
    let watch = watches.iter().find(|watch| is_fired(tree, watch))?;
    Some(watch.key)
}

/// `Watches::take_fired`.
fn take_fired_watch(table: &mut KeyTable<ByKey>, tree: &Tree) -> Option<u32>
    requires { AreWatches table.old }
    ensures key { result ≡ option_map (λ watch. watch.key) (find (is_fired tree.now) table.old) }
    ensures rest { table.new ≡ remove_first (is_fired tree.now) table.old }
    ensures watches { AreWatches table.new }
{
    let key = first_fired(table.rows(), tree)?;
    table.remove(key);
    Some(key)
}

/// The key of the first watch with a key from one number up to but not including another.
fn first_between(watches: &[Watch], from: u32, to: u32) -> Option<u32>
    ensures { result ≡ option_map (λ watch. watch.key) (find (is_between from to) watches.now) }
{
    let watch = watches.iter().find(|watch| is_between(from, to, watch))?;
    Some(watch.key)
}

/// `Watches::drop_keys`.
fn drop_between(table: &mut KeyTable<ByKey>, from: u32, to: u32)
    requires { AreWatches table.old }
    ensures rest { table.new ≡ filter (λ watch. not (is_between from to watch)) table.old }
    ensures watches { AreWatches table.new }
{
    while let Some(key) = first_between(table.rows(), from, to) {
        table.remove(key);
    }
}
