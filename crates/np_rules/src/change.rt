//! The changes of an accepted event, made in store, tables and index.

ghost use Rattle.std.specs.Prelude.{◌≡◌, IfOk, OnErr, OnOk};
ghost use Rattle.np_changes.specs.Prelude.{Fits, IsPlanned, IsReached, changed, judge, next, plan, reply_of};
ghost use Rattle.np_decision.specs.Verdicts.{answer_of};
ghost use Rattle.np_index.specs.Index.{IsIndexOf};

use np_changes::Changes;
use np_decision::Ruling;
use np_event::{Event, Reply};
use np_index::{Index, ending};
use np_look::Store;
use np_tables::Tables;
use std::alloc::{AllocError, Global};

/// Makes the changes: all memory first, then in the store, then in tables and index. If memory runs
/// out, the state stays everywhere.
fn change<S: Store>(
    alloc: Global,
    tables: &mut Tables,
    index: &mut Index,
    store: &mut S,
    changes: &Changes,
) -> Result<(), AllocError>
    requires reached { IsReached tables.old.configuration tables.old.state }
    requires fits { Fits tables.old.configuration tables.old.state }
    requires planned { IsPlanned tables.old.configuration tables.old.state changes.now }
    requires index { IsIndexOf tables.old.configuration tables.old.state index.old }
    requires held { S.holds store.old tables.old.configuration tables.old.state }
    ensures configuration { tables.new.configuration ≡ tables.old.configuration }
    ensures ok { OnOk result
        (tables.new.state ≡ changed tables.old.configuration changes.now tables.old.state) }
    ensures err { OnErr result (tables.new.state ≡ tables.old.state) }
    ensures index { IsIndexOf tables.new.configuration tables.new.state index.new }
    ensures held { S.holds store.new tables.new.configuration tables.new.state }
    ensures later { S.later store.old store.new }
{
    let prepared = index.prepare(alloc, tables, changes)?;
    let reserved = match tables.reserve(changes) {
        Ok(reserved) => reserved,
        Err(fault) => {
            index.take_back(changes, &prepared);
            return Err(fault);
        }
    };
    if let Err(_) = store.write(tables, changes) {
        index.take_back(changes, &prepared);
        return Err(AllocError);
    }
    let session = ending(&changes.sessions);
    tables.change(
        changes,
        reserved,
        index.requests_of(session),
        index.nodes_of(session),
    );
    index.note(tables, changes, &prepared);
    Ok(())
}

/// The reply to an event that is decided, with its changes made if it is accepted. If memory runs
/// out, the state stays everywhere.
pub(crate) fn step<S: Store>(
    alloc: Global,
    tables: &mut Tables,
    index: &mut Index,
    store: &mut S,
    event: Event,
    decided: Ruling,
) -> Result<Reply, AllocError>
    requires reached { IsReached tables.old.configuration tables.old.state }
    requires fits { Fits tables.old.configuration tables.old.state }
    requires answer { answer_of decided ≡
        judge tables.old.configuration tables.old.state event }
    requires changes { IfOk decided
        (λ v. v.changes ≡ plan tables.old.configuration tables.old.state event) }
    requires index { IsIndexOf tables.old.configuration tables.old.state index.old }
    requires held { S.holds store.old tables.old.configuration tables.old.state }
    ensures configuration { tables.new.configuration ≡ tables.old.configuration }
    ensures reply { IfOk result (λ r. r ≡
        reply_of (judge tables.old.configuration tables.old.state event)) }
    ensures ok { OnOk result
        (tables.new.state ≡ next tables.old.configuration tables.old.state event) }
    ensures err { OnErr result (tables.new.state ≡ tables.old.state) }
    ensures index { IsIndexOf tables.new.configuration tables.new.state index.new }
    ensures held { S.holds store.new tables.new.configuration tables.new.state }
    ensures later { S.later store.old store.new }
{
    let _event = event;
    match decided {
        Err(refusal) => Ok(Reply::Refused(refusal)),
        Ok(verdict) => {
            change(alloc, tables, index, store, &verdict.changes)?;
            Ok(Reply::Done(verdict.done))
        }
    }
}
