//! A board may cross threads. The functions do nothing: they show it part by part, since one proof for
//! all that a board is made of is too long to be found, and a caller's proof takes the facts from them.

ghost use Rattle.std.specs.Thread.{IsSend, IsSync};
ghost use Rattle.np_active.specs.contracts.active.Active as active;
ghost use Rattle.np_index.specs.contracts.awaited.Awaited as awaited;
ghost use Rattle.np_board.specs.contracts.board.Board as board;
ghost use Rattle.np_classes.specs.contracts.classes.Classes as classes;
ghost use Rattle.np_config.specs.contracts.config.Config as config;
ghost use Rattle.np_active.specs.contracts.given.Given as given;
ghost use Rattle.np_index.specs.contracts.index.Index as index;
ghost use Rattle.np_keeper.specs.contracts.store.TreeStore as store;
ghost use Rattle.np_lookups.specs.contracts.lookups.Lookups as lookups;
ghost use Rattle.np_lookups.specs.contracts.requests.Open as requested;
ghost use Rattle.np_tables.specs.contracts.tables.Tables as tables;
ghost use Rattle.np_tree.specs.contracts.tree.Tree as tree;

use np_active::{Active, Given};
use np_board::{Board, Plan};
use np_classes::Classes;
use np_config::Config;
use np_event::Entry;
use np_index::{Awaited, Index};
use np_keeper::TreeStore;
use np_lists::Items;
use np_lookups::{Lookups, Open};
use np_path::Path;
use np_rules::Machine;
use np_tables::Tables;
use np_tree::Tree;
use np_watch::Watches;

/// A type with these bounds may be moved to other threads, and shared with them.
fn crosses<T: Send + Sync>()
    ensures send { IsSend T.row }
    ensures sync { IsSync T.row }
{}

/// A type with this bound may be moved to other threads.
pub(crate) fn sends<T: Send>()
    ensures { IsSend T.row }
{}

fn config_crosses()
    ensures send { IsSend config.the_row }
    ensures sync { IsSync config.the_row }
{
    crosses::<Config>();
}

fn tree_crosses()
    ensures send { IsSend tree.the_row }
    ensures sync { IsSync tree.the_row }
{
    crosses::<Tree>();
}

fn lookups_cross()
    ensures send { IsSend lookups.the_row }
    ensures sync { IsSync lookups.the_row }
{
    crosses::<Lookups>();
}

fn awaited_cross()
    ensures send { IsSend awaited.the_row }
    ensures sync { IsSync awaited.the_row }
{
    crosses::<Awaited>();
}

fn classes_cross()
    ensures send { IsSend classes.the_row }
    ensures sync { IsSync classes.the_row }
{
    crosses::<Classes>();
}

fn active_crosses()
    ensures send { IsSend active.the_row }
    ensures sync { IsSync active.the_row }
{
    crosses::<Active>();
}

fn given_crosses()
    ensures send { IsSend given.the_row }
    ensures sync { IsSync given.the_row }
{
    crosses::<Given>();
}

fn requested_crosses()
    ensures send { IsSend requested.the_row }
    ensures sync { IsSync requested.the_row }
{
    crosses::<Open>();
}

/// An index may be moved to other threads, and shared with them.
fn index_crosses()
    ensures send { IsSend index.the_row }
    ensures sync { IsSync index.the_row }
{
    lookups_cross();
    awaited_cross();
    classes_cross();
    requested_crosses();
    active_crosses();
    given_crosses();
    crosses::<Index>();
}

/// Tables may be moved to other threads, and shared with them.
fn tables_cross()
    ensures send { IsSend tables.the_row }
    ensures sync { IsSync tables.the_row }
{
    config_crosses();
    crosses::<Tables>();
}

/// A store in a tree may be moved to other threads, and shared with them.
fn store_crosses()
    ensures send { IsSend store.the_row }
    ensures sync { IsSync store.the_row }
{
    tree_crosses();
    crosses::<TreeStore>();
}

/// A board may be moved to other threads, and shared with them.
pub(crate) fn board_crosses()
    ensures send { IsSend board.the_row }
    ensures sync { IsSync board.the_row }
{
    tables_cross();
    index_crosses();
    store_crosses();
    crosses::<Vec<Entry>>();
    crosses::<Machine<TreeStore>>();
    crosses::<Plan>();
    crosses::<Items<Path>>();
    crosses::<Watches>();
    crosses::<Board>();
}
