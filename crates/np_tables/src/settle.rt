//! What may not fail: how each table changes once the tables have grown.

ghost use Rattle.std.specs.Prelude.{◌≡◌, ◌≤◌, None, filter, length, map, not};
ghost use Rattle.np_tables.specs.Lower.{all_in_use, all_without_handle, change_at, change_session, ended, handles_changed, is_session, jobs_changed, marked, muted, nodes_changed, put_job, registrations_left, requests_changed, semaphores_of, sessions_changed, with_mark};
ghost use Rattle.np_changes.specs.declared.changes.NodesChange.TheVariants as nodes_change;
ghost use Rattle.np_changes.specs.declared.changes.RequestsChange.TheVariants as requests_change;
ghost use Rattle.np_tables.specs.CanChange.{CanSettle, TakesEdit, settled_in_queues, rows_of};

use crate::edits::{Edit, Free, Leave, Put, TakeOver};
use crate::handles::drop_handles;
use crate::keys::{HandleTable, NodeTable, RequestTable};
use crate::vectors::Vectors;
use np_changes::{
    Changes, HandlesChange, JobsChange, Maker, NodesChange, RequestEdit, RequestsChange,
    SessionsChange,
};
use np_config::Config;
use np_machine::{Registration, SessionFacts};
use np_record::{JobRecord, MarkRow, Marked};
use np_text::{JobId, NodeId, RequestId, SessionId};

/// The request's record is edited.
fn edit_request(requests: &mut RequestTable, request: RequestId, edit: RequestEdit)
    requires { TakesEdit (requests_change.Edit request edit) requests.old.rows }
    ensures { requests.new.rows ≡
        requests_changed None (requests_change.Edit request edit) requests.old.rows }
{
    requests.edit(request, Edit { edit });
}

/// The maker leaves the request's queue.
fn leave_request(requests: &mut RequestTable, maker: Option<Maker>, request: RequestId)
    ensures { requests.new.rows ≡ requests_changed maker (requests_change.Leave request) requests.old.rows }
{
    if let Some(maker) = maker {
        let session = maker.session;
        requests.edit(request, Leave { session });
    }
}

fn settle_requests(requests: &mut RequestTable, maker: Option<Maker>, change: RequestsChange)
    requires { TakesEdit change requests.old.rows }
    ensures { requests.new.rows ≡ requests_changed maker change requests.old.rows }
{
    match change {
        RequestsChange::Same => {}
        RequestsChange::Edit { request, edit } => edit_request(requests, request, edit),
        RequestsChange::Remove { request } => requests.remove(request),
        RequestsChange::Leave { request } => leave_request(requests, maker, request),
    }
}

/// The maker leaves the node's queue.
fn leave_node(nodes: &mut NodeTable, maker: Option<Maker>, tick: u32, node: NodeId)
    ensures { nodes.new.rows ≡ nodes_changed maker tick (nodes_change.Leave node) nodes.old.rows }
{
    if let Some(maker) = maker {
        let session = maker.session;
        nodes.edit(node, Leave { session });
    }
}

/// Each of the nodes is in use from this tick.
fn take_over(nodes: &mut NodeTable, tick: u32, numbers: &[NodeId])
    ensures { nodes.new.rows ≡ all_in_use tick numbers.now nodes.old.rows }
{
    for node in numbers {
        nodes.edit(*node, TakeOver { tick });
    }
}

fn settle_nodes(nodes: &mut NodeTable, maker: Option<Maker>, tick: u32, change: &NodesChange)
    ensures { nodes.new.rows ≡ nodes_changed maker tick change.now nodes.old.rows }
{
    match change {
        NodesChange::Same => {}
        NodesChange::Put { node, kept } => nodes.edit(*node, Put { kept: *kept }),
        NodesChange::Remove { node } => nodes.remove(*node),
        NodesChange::Leave { node } => leave_node(nodes, maker, tick, *node),
        NodesChange::FreeAll { request } => nodes.change_all(&Free { request: *request }),
        NodesChange::TakeOver { nodes: numbers } => take_over(nodes, tick, numbers.items()),
    }
}

/// Another record of the job.
fn put_job(jobs: &mut Vec<JobRecord>, job: JobId, kept: &JobRecord)
    ensures { jobs.new.items ≡ put_job job kept.now jobs.old.items }
{
    let at = job.0 as usize;
    if at >= jobs.len() {
        return;
    }
    jobs[at] = *kept;
}

/// The marks of a job with this node marked ended.
fn marks_with(node: NodeId, marks: &[Marked]) -> MarkRow
    requires { length marks.now ≤ 32 }
    ensures { result ≡ map (marked node) marks.now }
{
    let mut row = MarkRow::new();
    for mark in marks {
        let _room = row.push(Marked {
            node: mark.node,
            ended: mark.ended || mark.node.0 == node.0,
        });
    }
    row
}

/// The node is marked ended in the job.
fn mark_ended(jobs: &mut Vec<JobRecord>, job: JobId, node: NodeId)
    ensures { jobs.new.items ≡ change_at job.0 (with_mark node) jobs.old.items }
{
    let at = job.0 as usize;
    if at >= jobs.len() {
        return;
    }
    let kept = &mut jobs[at];
    let _most = kept.nodes.len();
    kept.nodes = marks_with(node, kept.nodes.items());
}

fn settle_jobs(jobs: &mut Vec<JobRecord>, change: &JobsChange)
    ensures { jobs.new.items ≡ jobs_changed change.now jobs.old.items }
{
    match change {
        JobsChange::Same => {}
        JobsChange::Put { job, kept } => put_job(jobs, *job, kept),
        JobsChange::EndNode { job, node } => mark_ended(jobs, *job, *node),
    }
}

fn settle_handles(handles: &mut Vec<HandleTable>, config: &Config, change: HandlesChange)
    ensures { rows_of handles.new.items ≡ handles_changed config.now change (rows_of handles.old.items) }
{
    match change {
        HandlesChange::Same => {}
        HandlesChange::Release { job } => release(handles, config, job),
    }
}

/// The job gives all its handles back.
fn release(handles: &mut Vec<HandleTable>, config: &Config, job: JobId)
    ensures { rows_of handles.new.items ≡
        all_without_handle job (semaphores_of config.now job) (rows_of handles.old.items) }
{
    if let Some(row) = config.job(job) {
        drop_handles(handles, row.semaphores.items(), job);
    }
}

/// The session is mute from now on.
fn mute(sessions: &mut Vec<SessionFacts>, session: SessionId)
    ensures { sessions.new.items ≡ change_session session muted sessions.old.items }
{
    let at = (session.0 as usize).saturating_sub(1);
    if at >= sessions.len() {
        return;
    }
    let facts = &mut sessions[at];
    facts.mute = true;
}

/// The session has expired.
fn expire(sessions: &mut Vec<SessionFacts>, session: SessionId)
    ensures { sessions.new.items ≡ change_session session ended sessions.old.items }
{
    let at = (session.0 as usize).saturating_sub(1);
    if at >= sessions.len() {
        return;
    }
    let facts = &mut sessions[at];
    facts.live = false;
}

/// The session's registration is removed.
fn drop_registrations(registrations: &mut Vec<Registration>, session: SessionId)
    ensures { registrations.new.items ≡
        filter (λ g. not (is_session g.session session)) registrations.old.items }
{
    registrations.retain(|g| g.session.0 != session.0);
}

impl Vectors {
    /// What changes once the tables have grown, but a session that ends is still in its queues.
    pub(crate) fn settle(&mut self, config: &Config, changes: &Changes)
        requires { CanSettle changes.now self.old.state }
        ensures { self.new.state ≡ settled_in_queues config.now changes.now self.old.state }
    {
        settle_requests(&mut self.requests, changes.maker, changes.requests);
        settle_nodes(&mut self.nodes, changes.maker, self.tick, &changes.nodes);
        settle_jobs(&mut self.jobs, &changes.jobs);
        settle_handles(&mut self.handles, config, changes.handles);
        self.count_deed(changes.maker, changes.deed);
        self.settle_sessions(changes.sessions);
        if changes.ticks {
            self.tick += 1;
        }
    }

    /// The session is mute from now on, or ends and leaves its registration.
    fn settle_sessions(&mut self, change: SessionsChange)
        ensures { self.new.state ≡ record self.old.state {
          sessions = sessions_changed change self.old.state.sessions;
          registrations = registrations_left change self.old.state.registrations;
        } }
    {
        match change {
            SessionsChange::Same => {}
            SessionsChange::Mute { session } => mute(&mut self.sessions, session),
            SessionsChange::End { session } => {
                expire(&mut self.sessions, session);
                drop_registrations(&mut self.registrations, session);
            }
        }
    }
}
