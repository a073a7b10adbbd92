//! A machine read back from its tree.

ghost use Rattle.std.specs.Prelude.{◌≡◌, [], IfErr, IfOk};
ghost use Rattle.np_board.specs.Lower.{IsHeld, RunsOn, decoded};

use np_config::Config;
use np_keeper::{TreeStore, tables_of_tree};
use np_rules::Machine;
use np_tree::Tree;
use std::alloc::Global;

/// Memory ran out before the machine was made. The tree is the one that was read.
#[derive(Drop)]
pub struct NotRead {
    pub tree: Tree,
}

impl NotRead {
    /// Gives up the tree, with the memory that it has.
    pub fn close(self) {}
}

/// Gives up a machine over a tree, with the memory that it has.
pub fn close_machine(machine: Machine<TreeStore>) {
    let _machine = machine;
}

/// The machine whose state the tree lays out. So many entries led to that state; the journal, which
/// the tree doesn't have, is empty. If memory runs out, the tree comes back. It costs what
/// `tables_of_tree` and `Index::rebuild` do.
pub fn machine_of_tree(
    alloc: Global,
    config: Config,
    tree: Tree,
    earlier: u32,
) -> Result<Machine<TreeStore>, NotRead>
    requires held { IsHeld config tree }
    requires runs { RunsOn config earlier [] (decoded config tree) }
    ensures ok { IfOk result (λ machine. machine ≡ record {
      configuration = config;
      earlier = earlier;
      journal = [];
      state = decoded config tree;
      store = tree;
    }) }
    ensures err { IfErr result (λ not_read. not_read.tree ≡ tree) }
{
    config.know_soundness();
    let Ok(tables) = tables_of_tree(alloc, config, &tree) else {
        return Err(NotRead { tree });
    };
    let store = TreeStore::of_tree(alloc, tree);
    match Machine::of_tables(alloc, tables, earlier, store) {
        Ok(machine) => Ok(machine),
        Err(not_made) => Err(NotRead {
            tree: not_made.store.into_tree(),
        }),
    }
}
