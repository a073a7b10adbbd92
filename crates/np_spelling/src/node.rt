//! The records of nodes.
ghost use Rattle.std.specs.Prelude.{◌≡◌, ◌++◌, ◌∷◌, [], OnOk, IfSome, codes, length};
ghost use Rattle.std.specs.Fmt.{decimal};
ghost use Rattle.np_spelling.specs.Lower.{HasText, node_state_word};
ghost use Rattle.np_spelling.specs.Reading.{answer, chosen, node_age_in, node_front_in, node_head_in, node_in, node_place_in, node_server_in, node_state_by, node_state_in, node_tenant_in};
ghost use Rattle.np_spelling.specs.Spelling.{IsNode, SpellsNode, flag_text, joined, node_front, node_server, node_tenant, node_text};

use crate::cursor::Cursor;
use crate::fault::BadRecord;
use crate::id::request;
use crate::kind::Record;
use crate::text::{
    put, put_number_between, put_request_between, put_u8, put_u16_behind, put_u32_behind,
};
use crate::word::{flag, flag_word};
use np_record::NodeRecord;
use np_text::{Ample, LabelId, NoMemory, NodeState, PoolId, RequestId, TenantId};
use std::alloc::Global;

#[tactic(auto, unfolding(crate::specs::Reading::node_front_in))]
fn front(cursor: &mut Cursor) -> Option<Option<RequestId>>
    ensures { node_front_in cursor.old ≡ (result, cursor.new) }
{
    cursor.lead(b"{\"a")?;
    if cursor.begins(b'l') {
        cursor.lead(b"llocated-to\":\"")?;
        let id = request(cursor)?;
        cursor.spelled(b"\",\"attempts\":", Some(id))
    } else {
        cursor.spelled(b"ttempts\":", None)
    }
}

#[tactic(auto, unfolding(crate::specs::Reading::node_head_in))]
fn head(cursor: &mut Cursor) -> Option<(Option<RequestId>, u8, bool)>
    ensures { node_head_in cursor.old ≡ (result, cursor.new) }
{
    let allocated_to = front(cursor)?;
    let attempts = cursor.u8()?;
    cursor.lead(b",\"in-flight\":")?;
    let in_flight = flag(cursor)?;
    Some((allocated_to, attempts, in_flight))
}

#[tactic(auto, unfolding(crate::specs::Reading::node_server_in))]
fn server(cursor: &mut Cursor) -> Option<Option<u64>>
    ensures { node_server_in cursor.old ≡ (result, cursor.new) }
{
    cursor.lead(b",\"s")?;
    if cursor.begins(b'e') {
        let server = cursor.u64_behind(b"erver\":")?;
        cursor.spelled(b",\"since\":", Some(server))
    } else {
        cursor.spelled(b"ince\":", None)
    }
}

#[tactic(auto, unfolding(crate::specs::Reading::node_place_in))]
fn place(cursor: &mut Cursor) -> Option<(LabelId, PoolId, Option<u64>)>
    ensures { node_place_in cursor.old ≡ (result, cursor.new) }
{
    let label = cursor.u16_behind(b",\"label\":")?;
    let pool = cursor.u16_behind(b",\"pool\":")?;
    let server = server(cursor)?;
    Some((LabelId(label), PoolId(pool), server))
}

fn state_by(first: u8) -> NodeState
    ensures { result ≡ node_state_by first }
{
    match first {
        b'b' => NodeState::Building,
        b'r' => NodeState::Ready,
        b'i' => NodeState::InUse,
        b'u' => NodeState::Used,
        b'h' => NodeState::Hold,
        b'd' => NodeState::Deleting,
        _ => NodeState::Failed,
    }
}

#[tactic(auto, unfolding(crate::specs::Reading::chosen))]
fn state_word(cursor: &mut Cursor) -> Option<NodeState>
    ensures { chosen node_state_by node_state_word cursor.old ≡ (result, cursor.new) }
{
    let state = state_by(cursor.first());
    cursor.lead(state.word().as_bytes())?;
    Some(state)
}

#[tactic(auto, unfolding(crate::specs::Reading::node_state_in))]
fn state(cursor: &mut Cursor) -> Option<NodeState>
    ensures { node_state_in cursor.old ≡ (result, cursor.new) }
{
    cursor.lead(b",\"state\":\"")?;
    let state = state_word(cursor)?;
    cursor.spelled(b"\"", state)
}

#[tactic(auto, unfolding(crate::specs::Reading::node_age_in))]
fn age(cursor: &mut Cursor) -> Option<(u32, u32, NodeState)>
    ensures { node_age_in cursor.old ≡ (result, cursor.new) }
{
    let since = cursor.u32()?;
    let start = cursor.u32_behind(b",\"start\":")?;
    let state = state(cursor)?;
    Some((since, start, state))
}

#[tactic(auto, unfolding(crate::specs::Reading::node_tenant_in))]
fn tenant(cursor: &mut Cursor) -> Option<Option<TenantId>>
    ensures { node_tenant_in cursor.old ≡ (result, cursor.new) }
{
    if cursor.begins(b'}') {
        return cursor.spelled(b"}", Some(TenantId(0)));
    }
    cursor.lead(b",\"tenant\":")?;
    if cursor.begins(b'"') {
        return cursor.spelled(b"\"none\"}", None);
    }
    let tenant = cursor.u16()?;
    cursor.spelled(b"}", Some(TenantId(tenant)))
}

#[tactic(auto, unfolding(crate::specs::Reading::node_in))]
fn node(cursor: &mut Cursor) -> Option<NodeRecord>
    ensures { node_in cursor.old ≡ (result, cursor.new) }
{
    let (allocated_to, attempts, in_flight) = head(cursor)?;
    let (label, pool, server) = place(cursor)?;
    let (since, start, state) = age(cursor)?;
    let tenant = tenant(cursor)?;
    Some(NodeRecord {
        allocated_to,
        attempts,
        in_flight,
        label,
        pool,
        server,
        since,
        start,
        state,
        tenant,
    })
}

fn read_node(bytes: &[u8]) -> Result<NodeRecord, BadRecord>
    ensures { result ≡ answer (length bytes.now) (node_in bytes.now).0 (node_in bytes.now).1 }
{
    let mut cursor = Cursor::new(bytes);
    let found = node(&mut cursor);
    cursor.answer(bytes.len(), found)
}

fn put_front(out: &mut Vec<u8>, allocated_to: Option<RequestId>) -> Ample
    requires { IfSome allocated_to HasText }
    ensures { OnOk result (out.new.items ≡ out.old.items ++ node_front allocated_to) }
{
    match allocated_to {
        Some(id) => { put_request_between(out, b"{\"allocated-to\":\"", id, b"\",\"attempts\":") }
        None => put(out, b"{\"attempts\":"),
    }
}

fn put_head(out: &mut Vec<u8>, node: &NodeRecord) -> Ample
    requires { IfSome node.now.allocated_to HasText }
    ensures { OnOk result (out.new.items ≡ out.old.items ++ joined (node_front node.now.allocated_to ∷ decimal node.now.attempts ∷ codes ",\"in-flight\":" ∷ flag_text node.now.in_flight ∷ [])) }
{
    put_front(out, node.allocated_to)?;
    put_u8(out, node.attempts)?;
    put(out, b",\"in-flight\":")?;
    put(out, flag_word(node.in_flight))?;
    Ok(())
}

fn put_server(out: &mut Vec<u8>, server: Option<u64>) -> Ample
    ensures { OnOk result (out.new.items ≡ out.old.items ++ node_server server) }
{
    match server {
        Some(server) => put_number_between(out, b",\"server\":", server, b",\"since\":"),
        None => put(out, b",\"since\":"),
    }
}

fn put_place(out: &mut Vec<u8>, node: &NodeRecord) -> Ample
    ensures { OnOk result (out.new.items ≡ out.old.items ++ joined (codes ",\"label\":" ∷ decimal node.now.label.0 ∷ codes ",\"pool\":" ∷ decimal node.now.pool.0 ∷ node_server node.now.server ∷ [])) }
{
    put_u16_behind(out, b",\"label\":", node.label.0)?;
    put_u16_behind(out, b",\"pool\":", node.pool.0)?;
    put_server(out, node.server)
}

fn put_age(out: &mut Vec<u8>, node: &NodeRecord) -> Ample
    ensures { OnOk result (out.new.items ≡ out.old.items ++ joined (decimal node.now.since ∷ codes ",\"start\":" ∷ decimal node.now.start ∷ codes ",\"state\":\"" ∷ node_state_word node.now.state ∷ codes "\"" ∷ [])) }
{
    put_u32_behind(out, b"", node.since)?;
    put_u32_behind(out, b",\"start\":", node.start)?;
    put(out, b",\"state\":\"")?;
    put(out, node.state.word().as_bytes())?;
    put(out, b"\"")
}

fn put_tenant(out: &mut Vec<u8>, tenant: Option<TenantId>) -> Ample
    ensures { OnOk result (out.new.items ≡ out.old.items ++ node_tenant tenant) }
{
    match tenant {
        Some(tenant) => put_number_between(out, b",\"tenant\":", u64::from(tenant.0), b"}"),
        None => put(out, b",\"tenant\":\"none\"}"),
    }
}

fn put_node(out: &mut Vec<u8>, node: &NodeRecord) -> Ample
    requires { IsNode node.now }
    ensures { OnOk result (out.new.items ≡ out.old.items ++ node_text node.now) }
{
    put_head(out, node)?;
    put_place(out, node)?;
    put_age(out, node)?;
    put_tenant(out, node.tenant)?;
    Ok(())
}

impl Record for NodeRecord {
    ghost is_sound = { IsNode };

    ghost spells = { SpellsNode };

    ghost written = { node_text };

    #[tactic(auto, using(crate::proofs::Records::node_law))]
    fn read(bytes: &[u8]) -> Result<NodeRecord, BadRecord> {
        read_node(bytes)
    }

    fn text(&self, alloc: Global) -> Result<Vec<u8>, NoMemory> {
        let mut out = Vec::new(alloc);
        put_node(&mut out, self)?;
        Ok(out)
    }
}
