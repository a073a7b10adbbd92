//! All tables of a state.

ghost use Rattle.std.specs.Prelude.{◌≡◌, ◌<◌, ◌^◌, IfOk};
ghost use Rattle.np_keeper.specs.Lower.{Fits, IsCarried, IsReached, IsStored, decoded};

use crate::handles::all_handles;
use crate::lists::{
    janitors_of, jobs_of, launchers_of, registrations_of, requesters_of, sessions_of,
};
use crate::locked::{nodes_of, requests_of};
use crate::swept::swept_pairs;
use np_config::Config;
use np_look::Rows;
use np_tables::{SweptTable, Tables, Vectors};
use np_tree::Tree;
use np_tree_rows::TreeRows;
use std::alloc::{AllocError, Global};

/// The state of the rows, in vectors. Rows list no swept pairs, so these come from the caller. Each
/// table is read once, from its first row to its last: the cost is one call of the rows for each row
/// and for each session in a queue.
pub fn vectors_of_rows<R: Rows>(
    alloc: Global,
    rows: &R,
    swept: SweptTable,
) -> Result<Vectors, AllocError>
    // A run reaches the state, whose numbers leave room, and which a tree can carry.
    requires reached { IsReached (R.site rows.now) (R.state rows.now) }
    requires fits { Fits (R.site rows.now) (R.state rows.now) }
    requires carried { IsCarried (R.site rows.now) (R.state rows.now) }
    requires swept { swept.rows ≡ (R.state rows.now).swept }
    ensures { IfOk result (λ vectors. vectors.state ≡ R.state rows.now) }
{
    let sessions = sessions_of(alloc, rows)?;
    let registrations = registrations_of(alloc, rows)?;
    let requests = requests_of(alloc, rows)?;
    let nodes = nodes_of(alloc, rows)?;
    let handles = all_handles(alloc, rows)?;
    let jobs = jobs_of(alloc, rows)?;
    let launchers = launchers_of(alloc, rows)?;
    let janitors = janitors_of(alloc, rows)?;
    let requesters = requesters_of(alloc, rows)?;
    Ok(Vectors {
        alloc,
        tick: rows.tick(),
        sessions,
        registrations,
        requests,
        nodes,
        handles,
        jobs,
        launchers,
        janitors,
        requesters,
        swept,
        next_request: rows.next_request(),
        next_node: rows.next_node(),
    })
}

/// The state that the tree lays out, in vectors.
fn vectors_of_tree(alloc: Global, config: &Config, tree: &Tree) -> Result<Vectors, AllocError>
    requires stored { IsStored config.now (decoded config.now tree.now) tree.now }
    requires begun { tree.now.begun < 2 ^ 32 }
    requires reached { IsReached config.now (decoded config.now tree.now) }
    requires fits { Fits config.now (decoded config.now tree.now) }
    ensures { IfOk result (λ vectors. vectors.state ≡ decoded config.now tree.now) }
{
    let swept = swept_pairs(alloc, tree)?;
    vectors_of_rows(alloc, &TreeRows::new(config, tree), swept)
}

/// The tables of the state that the tree lays out. The cost is that of `vectors_of_rows` and
/// `swept_pairs`, each call of the rows being a few look-ups in the tree; for each registration it
/// walks the pools, and for each handle the jobs.
pub fn tables_of_tree(alloc: Global, config: Config, tree: &Tree) -> Result<Tables, AllocError>
    requires stored { IsStored config (decoded config tree.now) tree.now }
    // The last session has a number of 32 bits.
    requires begun { tree.now.begun < 2 ^ 32 }
    // A run reaches the state, whose numbers leave room.
    requires reached { IsReached config (decoded config tree.now) }
    requires fits { Fits config (decoded config tree.now) }
    ensures configuration { IfOk result (λ tables. tables.configuration ≡ config) }
    ensures state { IfOk result (λ tables. tables.state ≡ decoded config tree.now) }
{
    config.know_soundness();
    let vectors = vectors_of_tree(alloc, &config, tree)?;
    Ok(Tables::of_vectors(config, vectors))
}
