//! A row of cells.

ghost use Rattle.std.specs.Prelude.{◌≡◌, ◌++◌, ◌∷◌, [], ℕ, List, decimal, map, IfOk, OnOk};
ghost use Rattle.np_listing.specs.Lower.{Configuration, flat_map, job_words, label_words, node_words, pool_words, request_words, role_words, semaphore_words, session_words, tenant_words};
ghost use Rattle.np_listing.specs.Listing.{decline_words, each_words, or_dash};

use np_config::Config;
use np_explain_lines::{
    put, put_job, put_label, put_node, put_pool, put_request, put_role, put_semaphore, put_session,
    put_tenant,
};
use np_lists::Items;
use np_record::Declined;
use np_text::{
    Ample, JobId, LabelId, NoMemory, NodeId, PoolId, RequestId, Role, SemId, SessionId, TenantId,
    put_number, put_reason,
};
use std::alloc::Global;

/// The text of a cell.
pub(crate) type Cell = Items<u8>;

/// The cells of a row.
pub(crate) type Row = Items<Cell>;

/// What is told in words.
pub(crate) trait Told {
    ghost words: { Configuration → Self → List ℕ };

    /// Appends the words.
    fn tell(&self, out: &mut Vec<u8>, config: &Config) -> Ample
        ensures { OnOk result (out.new.items ≡ out.old.items ++ words config.now self.now) };
}

impl Told for u64 {
    ghost words = { λ _ n. decimal n };

    fn tell(&self, out: &mut Vec<u8>, _config: &Config) -> Ample {
        put_number(out, *self)
    }
}

impl Told for NodeId {
    ghost words = { λ _ node. node_words node };

    fn tell(&self, out: &mut Vec<u8>, _config: &Config) -> Ample {
        put_node(out, *self)
    }
}

impl Told for RequestId {
    ghost words = { λ _ request. request_words request };

    fn tell(&self, out: &mut Vec<u8>, _config: &Config) -> Ample {
        put_request(out, *self)
    }
}

impl Told for SessionId {
    ghost words = { λ _ session. session_words session };

    fn tell(&self, out: &mut Vec<u8>, _config: &Config) -> Ample {
        put_session(out, *self)
    }
}

impl Told for JobId {
    ghost words = { job_words };

    fn tell(&self, out: &mut Vec<u8>, config: &Config) -> Ample {
        put_job(out, config, *self)
    }
}

impl Told for LabelId {
    ghost words = { label_words };

    fn tell(&self, out: &mut Vec<u8>, config: &Config) -> Ample {
        put_label(out, config, *self)
    }
}

impl Told for PoolId {
    ghost words = { pool_words };

    fn tell(&self, out: &mut Vec<u8>, config: &Config) -> Ample {
        put_pool(out, config, *self)
    }
}

impl Told for SemId {
    ghost words = { semaphore_words };

    fn tell(&self, out: &mut Vec<u8>, config: &Config) -> Ample {
        put_semaphore(out, config, *self)
    }
}

impl Told for TenantId {
    ghost words = { tenant_words };

    fn tell(&self, out: &mut Vec<u8>, config: &Config) -> Ample {
        put_tenant(out, config, *self)
    }
}

impl Told for Role {
    ghost words = { role_words };

    fn tell(&self, out: &mut Vec<u8>, config: &Config) -> Ample {
        put_role(out, config, *self)
    }
}

impl Told for Declined {
    ghost words = { decline_words };

    fn tell(&self, out: &mut Vec<u8>, config: &Config) -> Ample {
        put_pool(out, config, self.pool)?;
        put(out, b": ")?;
        put_reason(out, self.reason)?;
        Ok(())
    }
}

/// Appends the words of each, with this before each.
pub(crate) fn put_each<T: Told>(out: &mut Vec<u8>, config: &Config, gap: &[u8], each: &[T]) -> Ample
    ensures { OnOk result (out.new.items ≡ out.old.items
        ++ flat_map (λ told. gap.now ++ T.words config.now told) each.now) }
{
    for told in each {
        put(out, gap)?;
        told.tell(out, config)?;
    }
    Ok(())
}

/// Adds a cell with this text, which it takes.
fn push_cell(row: &mut Row, text: Vec<u8>) -> Ample
    ensures { OnOk result (row.new ≡ row.old ++ text.items ∷ []) }
{
    row.push(Items::new(text))?;
    Ok(())
}

/// Adds a cell with this text.
pub(crate) fn push_text(alloc: Global, row: &mut Row, text: &[u8]) -> Ample
    ensures { OnOk result (row.new ≡ row.old ++ text.now ∷ []) }
{
    push_cell(row, Vec::from_slice(alloc, text)?)
}

/// A cell for each word.
pub(crate) fn head(alloc: Global, words: &[&str]) -> Result<Row, NoMemory>
    ensures { IfOk result (λ row. row ≡ map (λ word. word.now) words.now) }
{
    let mut row = Items::none(alloc);
    for word in words {
        push_text(alloc, &mut row, word.as_bytes())?;
    }
    Ok(row)
}

/// Adds a cell with the words.
pub(crate) fn push<T: Told>(alloc: Global, row: &mut Row, config: &Config, told: &T) -> Ample
    ensures { OnOk result (row.new ≡ row.old ++ T.words config.now told.now ∷ []) }
{
    let mut text = Vec::new(alloc);
    told.tell(&mut text, config)?;
    push_cell(row, text)
}

/// Adds a cell for what may be missing.
pub(crate) fn push_or_dash<T: Told>(
    alloc: Global,
    row: &mut Row,
    config: &Config,
    told: &Option<T>,
) -> Ample
    ensures { OnOk result (row.new ≡ row.old ++ or_dash (T.words config.now) told.now ∷ []) }
{
    match told {
        None => push_text(alloc, row, b"-"),
        Some(told) => push(alloc, row, config, told),
    }
}

/// Adds a cell for all of these.
pub(crate) fn push_each<T: Told>(alloc: Global, row: &mut Row, config: &Config, each: &[T]) -> Ample
    ensures { OnOk result (row.new ≡ row.old ++ each_words (T.words config.now) each.now ∷ []) }
{
    let mut text = Vec::new(alloc);
    match each {
        [] => put(&mut text, b"-")?,
        [first, more @ ..] => {
            first.tell(&mut text, config)?;
            put_each(&mut text, config, b", ", more)?;
        }
    }
    push_cell(row, text)
}
