//! Reading planned faults.

ghost use Rattle.std.specs.Prelude.{◌≡◌, ◌+◌, ◌<◌, ℕ, List, Option, IfOk, length, map, codes};
ghost use Rattle.serde_json.specs.View.{view};
ghost use Rattle.np_config_read.specs.Lower.{Gives, fault_kind_of, pointer_to, role_kind_of};
ghost use Rattle.np_config_read.specs.Requesters.{word_value};
ghost use Rattle.np_config_read.specs.Providers.{pool_named};
ghost use Rattle.np_config_read.specs.Walk.{role_named, required_word, role_at, fault_at};

use crate::names::PoolName;
use crate::requesters::meaning;
use np_config::{Fault, FaultKind, Requester};
use np_json::{Place, Reading, Rows, Table, object, required, text_of, whole_required};
use np_lists::Items;
use np_text::{FAULT_ACTS, PoolId, RequesterId, Role, RoleKind};
use serde_json::Value;
use std::alloc::Global;

/// The pools, by their full names, and the requesters that faults may refer to.
#[derive(Drop)]
pub(crate) struct Roles {
    pub pools: Table<PoolName>,
    pub requesters: Table<Requester>,
}

fn pool_place(roles: &Roles, name: &[u8]) -> Option<u16>
    ensures { result ≡ pool_named (map (λ n. n.text) roles.now.pools) name.now }
{
    roles.pools.place(name)
}

fn role_named(roles: &Roles, kind: RoleKind, name: &[u8]) -> Option<Role>
    ensures { result ≡ role_named (map (λ n. n.text) roles.now.pools) roles.now.requesters kind name.now }
{
    match kind {
        RoleKind::Launcher => Some(Role::Launcher(PoolId(pool_place(roles, name)?))),
        RoleKind::Janitor => Some(Role::Janitor(PoolId(pool_place(roles, name)?))),
        RoleKind::Requester => Some(Role::Requester(RequesterId(roles.requesters.place(name)?))),
    }
}

#[tactic(auto, using(np_json::proofs::Binds::exits), unfolding(crate::specs::Walk::required_word, crate::specs::Requesters::word_value))]
fn role_kind(alloc: Global, at: &[u8], value: &Value) -> Reading<RoleKind>
    ensures { Gives (λ k. k) result
        (required_word role_kind_of at.now (codes "role") (view value.now)) }
{
    let member = required(alloc, at, "role", value)?;
    let place = Place::Member(at, "role");
    let word = text_of(alloc, place, member)?;
    meaning(alloc, place, RoleKind::from_word(word.as_bytes()))
}

#[tactic(auto, using(np_json::proofs::Binds::exits), unfolding(crate::specs::Walk::required_word, crate::specs::Requesters::word_value))]
fn role_of_kind(
    alloc: Global,
    roles: &Roles,
    kind: RoleKind,
    at: &[u8],
    value: &Value,
) -> Reading<Role>
    ensures { Gives (λ r. r) result (required_word
        (role_named (map (λ n. n.text) roles.now.pools) roles.now.requesters kind)
        at.now (codes "name") (view value.now)) }
{
    let member = required(alloc, at, "name", value)?;
    let place = Place::Member(at, "name");
    let name = text_of(alloc, place, member)?;
    meaning(alloc, place, role_named(roles, kind, name.as_bytes()))
}

#[tactic(auto, using(np_json::proofs::Binds::exits), unfolding(crate::specs::Walk::role_at))]
fn role_of(alloc: Global, roles: &Roles, at: &[u8], value: &Value) -> Reading<Role>
    ensures { Gives (λ r. r) result
        (role_at (map (λ n. n.text) roles.now.pools) roles.now.requesters at.now (view value.now)) }
{
    let kind = role_kind(alloc, at, value)?;
    role_of_kind(alloc, roles, kind, at, value)
}

#[tactic(auto, using(np_json::proofs::Binds::exits), unfolding(crate::specs::Walk::required_word, crate::specs::Requesters::word_value))]
fn fault_kind(alloc: Global, at: &[u8], value: &Value) -> Reading<FaultKind>
    ensures { Gives (λ k. k) result
        (required_word fault_kind_of at.now (codes "kind") (view value.now)) }
{
    let member = required(alloc, at, "kind", value)?;
    let place = Place::Member(at, "kind");
    let word = text_of(alloc, place, member)?;
    meaning(alloc, place, FaultKind::from_word(word.as_bytes()))
}

impl Rows<Roles> for Items<Fault> {
    ghost reads = { λ roles at earlier d.
        fault_at (map (λ n. n.text) roles.pools) roles.requesters at earlier d };

    ghost count = { length };

    #[tactic(auto, using(np_json::proofs::Binds::exits), unfolding(crate::specs::Walk::fault_at))]
    fn read(
        &mut self,
        alloc: Global,
        roles: &Roles,
        place: Place<'_>,
        value: &Value,
    ) -> Reading<()> {
        let at = place.pointer(alloc)?;
        let at = at.as_slice();
        object(alloc, at, &["role", "name", "kind", "after"], value)?;
        let role = role_of(alloc, roles, at, value)?;
        let kind = fault_kind(alloc, at, value)?;
        let after = whole_required(alloc, at, "after", 0, FAULT_ACTS, value)?;
        self.push(Fault { role, kind, after })?;
        Ok(())
    }
}
