//! What no clause says: that a machine is read back from the tree of another with ample memory, and
//! goes on as the other did.

use crate::equal::have_equal_rows;
use crate::index::answers_as_its_rows_do;
use crate::lines::{have_equal_lines, is_line};
use crate::sites::config_of;
use np_board::{close_machine, machine_of_tree};
use np_event::{Entry, read_entry};
use np_keeper::TreeStore;
use np_look::Look;
use np_rules::Machine;
use std::alloc::Global;

// One pool, one label, a semaphore, and two jobs, the second of which takes it.
const SITE: &str =
    r#"{"labels":[{"name":"a"}],"providers":[{"name":"c","pools":[{"name":"m","labels":[{"name":"a"}]}]}],"semaphores":[{"name":"x"}],"requesters":[{"name":"z","jobs":[{"name":"j","labels":["a"]},{"name":"k","labels":["a"],"semaphores":["x"]}]}]}"#;

// One job is served, and the server of its node is swept. For the other a handle is taken and a node
// made, which its launcher holds, and the requester and the janitor wait for that node.
const LINES: [&str; 31] = [
    "open launcher p0 = session s1",
    "open requester q0 = session s2",
    "open janitor p0 = session s3",
    "register s1 = ok",
    "submit s2 j0 = request 200-0000000000",
    "lock-request s1 200-0000000000 = held",
    "accept s1 200-0000000000 = ok",
    "create s1 200-0000000000 = node n0",
    "start s1 n0 = started 1 1",
    "done s1 n0 1 ok 1 = ok",
    "fulfil s1 200-0000000000 = ok",
    "unlock-node s1 n0 = ok",
    "unlock-request s1 200-0000000000 = ok",
    "lock-node s2 n0 = held",
    "take s2 j0 = ok",
    "end-node s2 n0 used = ok",
    "unlock-node s2 n0 = ok",
    "finish s2 j0 = ended served",
    "lock-node s3 n0 = held",
    "mark-deleting s3 n0 = ok",
    "gone s3 n0 = ok",
    "sweep s3 n0 1 = remove",
    "acquire s2 j1 = ok",
    "submit s2 j1 = request 200-0000000001",
    "lock-request s1 200-0000000001 = held",
    "accept s1 200-0000000001 = ok",
    "create s1 200-0000000001 = node n1",
    "lock-node s2 n1 = queued 1",
    "lock-node s3 n1 = queued 2",
    "start s1 n1 = started 1 2",
    "tick = ok",
];

/// The machine of the site over a tree, before the first event.
fn first_machine(alloc: Global, site: &str) -> Option<Machine<TreeStore>> {
    let config = config_of(alloc, site)?;
    let Ok(store) = TreeStore::new(alloc, &config) else {
        return None;
    };
    match Machine::begin(alloc, config, store) {
        Ok(machine) => Some(machine),
        Err(_) => None,
    }
}

/// The machine, if it is to be kept.
fn machine_if(is_kept: bool, machine: Machine<TreeStore>) -> Option<Machine<TreeStore>> {
    if is_kept {
        Some(machine)
    } else {
        close_machine(machine);
        None
    }
}

/// The machine of the site after the events of these entries.
fn machine_after(alloc: Global, site: &str, entries: &[Entry]) -> Option<Machine<TreeStore>> {
    let mut machine = first_machine(alloc, site)?;
    let ample = repeats(&mut machine, entries);
    machine_if(ample, machine)
}

/// The machine that is read back from the machine's tree.
fn read_back(alloc: Global, machine: Machine<TreeStore>) -> Option<Machine<TreeStore>> {
    machine.know_soundness();
    let earlier = machine.earlier() + machine.journal().len() as u32;
    let (config, store) = machine.into_parts();
    match machine_of_tree(alloc, config, store.into_tree(), earlier) {
        Ok(machine) => Some(machine),
        Err(not_read) => {
            not_read.close();
            None
        }
    }
}

/// The events of the entries happen at the machine. Whether memory was ample.
fn repeats(machine: &mut Machine<TreeStore>, entries: &[Entry]) -> bool {
    every!(entry in entries => machine.apply(entry.event).is_ok())
}

/// Whether the machine goes on as the other did after so many entries, and has the other's rows then.
fn ends_as(
    alloc: Global,
    machine: &mut Machine<TreeStore>,
    other: &Machine<TreeStore>,
    at: usize,
) -> bool {
    let Some((_, rest)) = other.journal().split_at_checked(at) else {
        return false;
    };
    answers_as_its_rows_do(machine)
        && repeats(machine, rest)
        && have_equal_lines(alloc, machine.journal(), rest)
        && have_equal_rows(machine.rows(), other.rows())
        && answers_as_its_rows_do(machine)
}

/// Whether a machine that is read back from the tree of the site after so many of the other's entries
/// gives the other's replies to the rest, and ends with the other's rows.
pub fn goes_on_from(alloc: Global, site: &str, other: &Machine<TreeStore>, at: usize) -> bool {
    let Some((before, _)) = other.journal().split_at_checked(at) else {
        return false;
    };
    let Some(first) = machine_after(alloc, site, before) else {
        return false;
    };
    match read_back(alloc, first) {
        None => false,
        Some(mut machine) => {
            let goes_on = ends_as(alloc, &mut machine, other, at);
            close_machine(machine);
            goes_on
        }
    }
}

/// The event of the line happens at the machine. Whether its reply is the line's.
fn tells(alloc: Global, machine: &mut Machine<TreeStore>, line: &str) -> bool {
    let Some(entry) = read_entry(line.as_bytes()) else {
        return false;
    };
    let event = entry.event;
    match machine.apply(event) {
        Ok(reply) => is_line(alloc, Entry { event, reply }, line),
        Err(_) => false,
    }
}

/// The events of the lines happen at the machine. Whether each has its line's reply.
fn tells_all(alloc: Global, machine: &mut Machine<TreeStore>, lines: &[&str]) -> bool {
    every!(line in lines => tells(alloc, machine, line))
}

/// The machine after all lines, if each has its reply.
fn machine_of_lines(alloc: Global) -> Option<Machine<TreeStore>> {
    let mut machine = first_machine(alloc, SITE)?;
    let tells = tells_all(alloc, &mut machine, &LINES);
    machine_if(tells, machine)
}

/// Whether a machine goes on from each place of the journal.
fn goes_on_from_each(alloc: Global, other: &Machine<TreeStore>) -> bool {
    every!(at in 0..LINES.len() + 1 => goes_on_from(alloc, SITE, other, at))
}

/// Whether the lines have their replies at a machine, and one that is read back after any number of
/// them goes on as it did.
fn goes_on(alloc: Global) -> bool {
    match machine_of_lines(alloc) {
        None => false,
        Some(machine) => {
            let goes_on = goes_on_from_each(alloc, &machine);
            close_machine(machine);
            goes_on
        }
    }
}

#[test]
fn a_machine_that_is_read_back_goes_on(rt: HostRuntime) {
    assert!(rt; goes_on(rt.alloc()), "each machine goes on");
}
