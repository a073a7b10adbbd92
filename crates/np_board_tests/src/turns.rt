//! What no clause says: that a board answers each kind of ask with ample memory.

use crate::index::{answers_as_a_walk_does, answers_as_its_tree_does};
use crate::lines::is_line;
use crate::sites::{OF_TENANT, ONE_JOB, new_board};
use np_board::{Board, PlanAsk, PlanTurn};
use np_event::read_entry;
use np_text::{NodeId, PoolId, RequesterId, Role};
use np_worker::{Ask, Turn};
use std::alloc::Global;

const LAUNCHER: Role = Role::Launcher(PoolId(0));

const JANITOR: Role = Role::Janitor(PoolId(0));

const REQUESTER: Role = Role::Requester(RequesterId(0));

const DUE: Ask = Ask::Due(PoolId(0));

// The ask for the one server of the job's node.
const SWEEP: Ask = Ask::Sweep {
    pool: PoolId(0),
    node: NodeId(0),
    server: 1,
};

// What is asked and what it is answered: the line of the entry, or what else it is. Where nothing
// stands before a line, its event is to happen.
const LIVES: [(Option<Ask>, &str); 39] = [
    (Some(Ask::Act(LAUNCHER)), "open launcher p0 = session s1"),
    (Some(Ask::Act(LAUNCHER)), "register s1 = ok"),
    (Some(Ask::Act(LAUNCHER)), "idle"),
    (Some(Ask::Act(REQUESTER)), "open requester q0 = session s2"),
    (
        Some(Ask::Act(REQUESTER)),
        "submit s2 j0 = request 200-0000000000",
    ),
    (Some(Ask::Act(REQUESTER)), "idle"),
    (None, "lock-request s1 200-0000000000 = held"),
    (None, "accept s1 200-0000000000 = ok"),
    (None, "create s1 200-0000000000 = node n0"),
    (None, "start s1 n0 = started 1 1"),
    (None, "done s1 n0 1 ok 1 = ok"),
    (None, "fulfil s1 200-0000000000 = ok"),
    (None, "unlock-node s1 n0 = ok"),
    (None, "unlock-request s1 200-0000000000 = ok"),
    // There is no janitor, and then its server is kept.
    (Some(SWEEP), "idle"),
    (Some(DUE), "idle"),
    (Some(Ask::Act(JANITOR)), "open janitor p0 = session s3"),
    (Some(SWEEP), "idle"),
    (Some(DUE), "idle"),
    (None, "lock-node s2 n0 = held"),
    (None, "take s2 j0 = ok"),
    (None, "take s2 j0 = refused wrong-state using"),
    (None, "end-node s2 n0 used = ok"),
    (None, "unlock-node s2 n0 = ok"),
    (None, "finish s2 j0 = ended served"),
    (Some(Ask::Act(REQUESTER)), "idle"),
    (None, "lock-node s3 n0 = held"),
    (Some(DUE), "idle"),
    (None, "mark-deleting s3 n0 = ok"),
    (Some(DUE), "due n0 1"),
    (Some(SWEEP), "idle"),
    (None, "gone s3 n0 = ok"),
    (Some(DUE), "idle"),
    (Some(SWEEP), "sweep s3 n0 1 = remove"),
    (Some(SWEEP), "swept"),
    (Some(Ask::Act(LAUNCHER)), "idle"),
    (Some(Ask::Act(JANITOR)), "idle"),
    (Some(Ask::Act(Role::Reaper)), "idle"),
    (None, "tick = ok"),
];

// A job is withdrawn while its request waits, and the other before it asked.
const WITHDRAWN: [(Option<Ask>, &str); 6] = [
    (Some(Ask::Act(REQUESTER)), "open requester q0 = session s1"),
    (None, "submit s1 j0 = request 200-0000000000"),
    (None, "acquire s1 j1 = ok"),
    (None, "withdraw s1 j0 = ok"),
    (None, "withdraw s1 j1 = ok"),
    (Some(Ask::Act(REQUESTER)), "release s1 j1 = ok"),
];

// A name, the site, and its turns.
const SCRIPTS: [(&str, &str, &[(Option<Ask>, &str)]); 2] = [
    ("a job is served and its server swept", ONE_JOB, &LIVES),
    ("jobs are withdrawn", OF_TENANT, &WITHDRAWN),
];

/// Whether the turn is as the text says.
pub fn is_told(alloc: Global, turn: Turn, text: &str) -> bool {
    match turn {
        Turn::Did(entry) => is_line(alloc, entry, text),
        Turn::DueNode { node, server } => {
            text == "due n0 1" && node == NodeId(0) && server == Some(1)
        }
        Turn::Swept => text == "swept",
        Turn::Idle => text == "idle",
        Turn::Full => text == "full",
    }
}

/// Whether the turn of the board is as the text says. Searches by the index and by walks
/// then agree.
fn takes(alloc: Global, board: &mut Board, ask: Ask, text: &str) -> bool {
    match board.take_turn(PlanAsk::Plain(ask)) {
        Ok(PlanTurn::Plain(turn)) => {
            is_told(alloc, turn, text)
                && answers_as_a_walk_does(board)
                && answers_as_its_tree_does(board)
        }
        _ => false,
    }
}

/// Whether the board answers as the text says. Where nothing is asked, the event of the line happens.
fn answers(alloc: Global, board: &mut Board, ask: Option<Ask>, text: &str) -> bool {
    match ask {
        Some(ask) => takes(alloc, board, ask, text),
        None => matches!(read_entry(text.as_bytes()), Some(entry)
            if takes(alloc, board, Ask::Do(entry.event), text)),
    }
}

/// How many turns are answered as they say, up to the first that is not.
fn count_right(alloc: Global, board: &mut Board, rows: &[(Option<Ask>, &str)]) -> usize {
    let mut right: usize = 0;
    for (ask, text) in rows {
        if !answers(alloc, board, *ask, text) {
            return right;
        }
        right = right.wrapping_add(1);
    }
    right
}

/// How many turns are answered as they say at a new board of the site.
fn play(alloc: Global, site: &str, rows: &[(Option<Ask>, &str)]) -> usize {
    match new_board(alloc, site) {
        None => 0,
        Some(mut board) => {
            let right = count_right(alloc, &mut board, rows);
            board.close();
            right
        }
    }
}

#[test]
fn a_board_answers_each_ask(rt: HostRuntime) {
    for (name, site, rows) in SCRIPTS {
        assert_eq!(rt; play(rt.alloc(), site, rows), rows.len(), "{name}");
    }
}
