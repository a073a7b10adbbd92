//! A bare tree at which events happen. The crate of an event's group answers it and makes its
//! changes.

ghost use Rattle.std.specs.Prelude.{◌≡◌, ◌<◌, true, is_ok, OnOk, OnErr};
ghost use Rattle.np_changes.specs.Prelude.{Fits, IsReached, judge, next, reply_of};
ghost use Rattle.np_layout.specs.Decoded.{decoded};
ghost use Rattle.np_keeper.specs.Keeper.{IsHeld};
ghost use Rattle.np_reqstep.specs.Requests.{is_request_event};
ghost use Rattle.np_nodestep.specs.Nodes.{is_node_event};
ghost use Rattle.np_semstep.specs.Groups.{is_semaphore_event};
ghost use Rattle.np_board_tests.specs.Leads.{Leads};

use crate::sites::config_of;
use np_config::Config;
use np_event::{Entry, Event, Reply};
use np_keeper::first_tree;
use np_nodestep::{enact_node, judge_node};
use np_reqstep::{enact_request, judge_request};
use np_semstep::{enact_semaphore, judge_semaphore};
use np_text::{Ample, JOURNAL_ENTRIES, NoMemory};
use np_tree::Tree;
use std::alloc::Global;
use std::marker::Model;

/// From this change number on, a tree takes no more events.
const MOST_CHANGES: u64 = 16_777_214;

/// A configuration, a tree, and the journal that led to it.
#[derive(Drop)]
pub struct Bare {
    alloc: Global,
    config: Config,
    tree: Tree,
    journal: Vec<Entry>,
}

impl Model for Bare {
    ghost use Rattle.np_tree_nodes.specs.TreeState.{TreeState};
    ghost use Rattle.np_board_tests.specs.Leads.{Leads};

    ghost Value = { TreeState };

    ghost view = { λ b. b.tree };

    ghost invariant = { λ b. Leads b.config b.journal.items b.tree };
}

/// Whether the event is one of requests.
fn is_request_event(event: Event) -> bool
    ensures { result ≡ is_request_event event }
{
    matches!(
        event,
        Event::Register { .. }
            | Event::Submit { .. }
            | Event::Revise { .. }
            | Event::MinReady { .. }
            | Event::LockRequest { .. }
            | Event::UnlockRequest { .. }
            | Event::Accept { .. }
            | Event::Decline { .. }
            | Event::Fulfil { .. }
            | Event::Reset { .. }
            | Event::FailDeclined { .. }
    )
}

/// Whether the event is one of nodes.
fn is_node_event(event: Event) -> bool
    ensures { result ≡ is_node_event event }
{
    matches!(
        event,
        Event::TakeReady { .. }
            | Event::Create { .. }
            | Event::Start { .. }
            | Event::Done { .. }
            | Event::LockNode { .. }
            | Event::UnlockNode { .. }
            | Event::EndNode { .. }
            | Event::MarkDeleting { .. }
            | Event::Gone { .. }
            | Event::FreeNode { .. }
            | Event::Sweep { .. }
    )
}

/// Whether the event is one of semaphores.
fn is_semaphore_event(event: Event) -> bool
    ensures { result ≡ is_semaphore_event event }
{
    matches!(
        event,
        Event::Acquire { .. }
            | Event::Take { .. }
            | Event::Finish { .. }
            | Event::Withdraw { .. }
            | Event::Release { .. }
    )
}

/// The reply to the event, by the crate of its group; np_keeper answers those of sessions.
fn judge_event(tree: &Tree, config: &Config, event: Event) -> Reply
    requires held { IsHeld config.now tree.now }
    requires fits { Fits config.now (decoded config.now tree.now) }
    ensures { result ≡ reply_of (judge config.now (decoded config.now tree.now) event) }
{
    if is_request_event(event) {
        judge_request(tree, config, event)
    } else if is_node_event(event) {
        judge_node(tree, config, event)
    } else if is_semaphore_event(event) {
        judge_semaphore(tree, config, event)
    } else {
        np_keeper::judge(tree, config, event)
    }
}

/// Makes the changes of an accepted event, by the crate of its group; np_keeper makes those of
/// sessions.
fn enact_event(alloc: Global, tree: &mut Tree, config: &Config, event: Event) -> Ample
    requires held { IsHeld config.now tree.old }
    requires reached { IsReached config.now (decoded config.now tree.old) }
    requires low { tree.old.changes < 16777214 }
    requires accepted { is_ok (judge config.now (decoded config.now tree.old) event) ≡ true }
    ensures held { IsHeld config.now tree.new }
    ensures ok { OnOk result (decoded config.now tree.new
        ≡ next config.now (decoded config.now tree.old) event) }
    ensures err { OnErr result (decoded config.now tree.new ≡ decoded config.now tree.old) }
{
    if is_request_event(event) {
        enact_request(alloc, tree, config, event)
    } else if is_node_event(event) {
        enact_node(alloc, tree, config, event)
    } else if is_semaphore_event(event) {
        enact_semaphore(alloc, tree, config, event)
    } else {
        np_keeper::enact(alloc, tree, config, event)
    }
}

/// Makes the changes of the event if the reply says that it is done.
fn enact_done(alloc: Global, tree: &mut Tree, config: &Config, event: Event, reply: Reply) -> Ample
    requires held { IsHeld config.now tree.old }
    requires reached { IsReached config.now (decoded config.now tree.old) }
    requires low { tree.old.changes < 16777214 }
    requires reply { reply ≡ reply_of (judge config.now (decoded config.now tree.old) event) }
    ensures held { IsHeld config.now tree.new }
    ensures ok { OnOk result (decoded config.now tree.new
        ≡ next config.now (decoded config.now tree.old) event) }
    ensures err { OnErr result (decoded config.now tree.new ≡ decoded config.now tree.old) }
{
    match reply {
        Reply::Done(_) => enact_event(alloc, tree, config, event),
        Reply::Refused(_) => Ok(()),
    }
}

/// The journal leads to a state that a run reaches, and whose numbers fit. It does nothing.
fn know_soundness(tree: &Tree, config: &Config, journal: &Vec<Entry>)
    requires { Leads config.now journal.now.items tree.now }
    ensures reached { IsReached config.now (decoded config.now tree.now) }
    ensures fits { Fits config.now (decoded config.now tree.now) }
{
    config.know_soundness();
}

impl Bare {
    /// The tree before the first event.
    pub fn new(alloc: Global, site: &str) -> Option<Bare> {
        let config = config_of(alloc, site)?;
        config.know_soundness();
        let Ok(tree) = first_tree(alloc, &config) else {
            return None;
        };
        Some(Bare {
            alloc,
            config,
            tree,
            journal: Vec::new(alloc),
        })
    }

    /// The tree as it is.
    pub fn tree(&self) -> &Tree {
        &self.tree
    }

    /// What happened, with the replies.
    pub fn journal(&self) -> &[Entry] {
        self.journal.as_slice()
    }

    /// The event happens: the journal takes it with its reply, and the tree has the state after it.
    pub fn apply(&mut self, event: Event) -> Result<Reply, NoMemory> {
        know_soundness(&self.tree, &self.config, &self.journal);
        if self.journal.len() >= JOURNAL_ENTRIES || self.tree.changes() >= MOST_CHANGES {
            return Err(NoMemory);
        }
        self.journal.reserve(1)?;
        let reply = judge_event(&self.tree, &self.config, event);
        enact_done(self.alloc, &mut self.tree, &self.config, event, reply)?;
        self.journal.push(Entry { event, reply })?;
        Ok(reply)
    }
}
