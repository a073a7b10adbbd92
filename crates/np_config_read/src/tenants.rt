//! Reading tenants, and what their names stand for.

ghost use Rattle.std.specs.Prelude.{◌≡◌, ◌+◌, ◌<◌, length, codes};
ghost use Rattle.std.specs.Str.{bytes_eq};
ghost use Rattle.serde_json.specs.View.{view};
ghost use Rattle.np_config_read.specs.Lower.{Gives, default_name, pointer_to};
ghost use Rattle.np_config_read.specs.Providers.{tenant_id, tenant_named};
ghost use Rattle.np_config_read.specs.Requesters.{word_value, word_or};
ghost use Rattle.np_config_read.specs.Walk.{tenant_at};

use crate::labels::{Alone, Known};
use crate::providers::limit_of;
use crate::requesters::meaning;
use np_config::Tenant;
use np_json::{ConfigKind, NamedRow, Place, Reading, Rows, Table, fault_in, named_row, text_of};
use np_text::TenantId;
use serde_json::Value;
use std::alloc::Global;

fn is_default(name: &[u8]) -> bool
    ensures { result ≡ bytes_eq name.now default_name }
{
    name == b"default".as_slice()
}

impl Rows<Alone> for Table<Tenant> {
    ghost reads = { λ _ at earlier d. tenant_at at earlier d };

    ghost count = { length };

    #[tactic(auto, using(np_json::proofs::Binds::exits), unfolding(crate::specs::Walk::tenant_at))]
    fn read(
        &mut self,
        alloc: Global,
        _alone: &Alone,
        place: Place<'_>,
        value: &Value,
    ) -> Reading<()> {
        let keys = ["name", "max-servers", "max-cores", "max-ram"];
        let NamedRow { at, name } = named_row(alloc, place, &keys, self, value)?;
        let at = at.as_slice();
        if is_default(name.items()) {
            return Err(fault_in(alloc, ConfigKind::Repeated, Place::Member(at, "name")));
        }
        let limit = limit_of(alloc, at, value)?;
        self.push(alloc, Tenant { name, limit })?;
        Ok(())
    }
}

fn tenant_named(tenants: &Table<Tenant>, text: &[u8]) -> Option<TenantId>
    ensures { result ≡ tenant_named tenants.now text.now }
{
    if is_default(text) {
        return Some(TenantId(0));
    }
    let at = tenants.place(text)?;
    Some(TenantId(at + 1))
}

#[tactic(auto, using(np_json::proofs::Binds::exits), unfolding(crate::specs::Requesters::word_value))]
fn tenant_word(alloc: Global, known: &Known, place: Place<'_>, value: &Value) -> Reading<TenantId>
    ensures { Gives (λ t. t) result
        (word_value (tenant_named known.now.tenants) (pointer_to place.entry) (view value.now)) }
{
    let word = text_of(alloc, place, value)?;
    meaning(alloc, place, tenant_named(&known.tenants, word.as_bytes()))
}

/// The tenant that a job names, or the default one if it names none.
pub(crate) fn tenant_of(alloc: Global, known: &Known, at: &[u8], value: &Value) -> Reading<TenantId>
    ensures { Gives (λ t. t) result (word_or (tenant_named known.now.tenants)
        at.now (codes "tenant") (tenant_id 0) (view value.now)) }
{
    let Some(member) = value.get("tenant") else {
        return Ok(TenantId(0));
    };
    tenant_word(alloc, known, Place::Member(at, "tenant"), member)
}
