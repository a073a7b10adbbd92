//! Reading labels and semaphores.

ghost use Rattle.std.specs.Prelude.{◌≡◌, ◌+◌, ◌<◌, IfOk, length};
ghost use Rattle.np_config_read.specs.Walk.{label_at, semaphore_at};

use np_config::{Label, Name, Sem, Tenant};
use np_json::{NamedRow, Place, Reading, Rows, Table, named_row, whole};
use np_text::{AGE, HANDLES, MIN_READY};
use serde_json::Value;
use std::alloc::Global;

/// The context of rows that refer to nothing.
pub(crate) struct Alone;

ghost use Rattle.serde_json.specs.View.{view};
ghost use Rattle.np_config_read.specs.Lower.{Gives};
ghost use Rattle.np_config_read.specs.Walk.{label_row};

#[tactic(auto, using(np_json::proofs::Binds::exits), unfolding(crate::specs::Walk::label_row))]
fn label_row(alloc: Global, at: &[u8], name: Name, value: &Value) -> Reading<Label>
    ensures gives { Gives (λ l. l) result (label_row at.now name (view value.now)) }
    ensures name { IfOk result (λ l. l.name ≡ name) }
{
    let min_ready = whole(alloc, at, "min-ready", 0, MIN_READY, 0, value)?;
    let max_ready_age = whole(alloc, at, "max-ready-age", 0, AGE, 0, value)?;
    Ok(Label {
        name,
        min_ready,
        max_ready_age,
    })
}

impl Rows<Alone> for Table<Label> {
    ghost reads = { λ _ at earlier d. label_at at earlier d };

    ghost count = { length };

    #[tactic(auto, using(np_json::proofs::Binds::exits), unfolding(crate::specs::Walk::label_at))]
    fn read(
        &mut self,
        alloc: Global,
        _alone: &Alone,
        place: Place<'_>,
        value: &Value,
    ) -> Reading<()> {
        let keys = ["name", "min-ready", "max-ready-age"];
        let NamedRow { at, name } = named_row(alloc, place, &keys, self, value)?;
        let label = label_row(alloc, at.as_slice(), name, value)?;
        self.push(alloc, label)?;
        Ok(())
    }
}

/// The labels that rows may refer to.
#[derive(Drop)]
pub(crate) struct Labels {
    pub table: Table<Label>,
}

/// The labels, semaphores and tenants that jobs may refer to.
#[derive(Drop)]
pub(crate) struct Known {
    pub labels: Labels,
    pub semaphores: Table<Sem>,
    pub tenants: Table<Tenant>,
}

impl Rows<Alone> for Table<Sem> {
    ghost reads = { λ _ at earlier d. semaphore_at at earlier d };

    ghost count = { length };

    #[tactic(auto, using(np_json::proofs::Binds::exits), unfolding(crate::specs::Walk::semaphore_at))]
    fn read(
        &mut self,
        alloc: Global,
        _alone: &Alone,
        place: Place<'_>,
        value: &Value,
    ) -> Reading<()> {
        let NamedRow { at, name } = named_row(alloc, place, &["name", "max"], self, value)?;
        let max = whole(alloc, at.as_slice(), "max", 1, HANDLES, 1, value)?;
        self.push(alloc, Sem { name, max })?;
        Ok(())
    }
}
