//! What no clause says: that sites played by choices alone come to their end with ample memory, how
//! their jobs end, and that tables and a bare tree give the journal of the board.

use crate::bare::Bare;
use crate::index::{answers_as_a_walk_does, answers_as_its_tree_does};
use crate::lines::have_equal_lines;
use crate::restored::goes_on_from;
use crate::sites::{FAILS, KEPT_READY, OF_TENANT, ROLES, SERVED, TOO_SMALL, config_of, new_board};
use np_board::{Board, PlanAsk, PlanTurn};
use np_event::{Done, Entry, Event, Reply};
use np_look::{Look, Rows};
use np_rules::{Plain, new_plain};
use np_text::{Ending, JobId, Role};
use np_worker::{Ask, Turn};
use std::alloc::Global;

/// More rounds than any of these sites needs.
const ROUNDS: u32 = 300;

/// A site, how its jobs end, and how many nodes are left.
struct Site {
    name: &'static str,
    text: &'static str,
    endings: &'static [Ending],
    nodes: u32,
}

const SITES: [Site; 10] = [
    Site {
        name: "a served job",
        text: SERVED,
        endings: &[Ending::Served],
        nodes: 0,
    },
    Site {
        name: "a node is kept ready",
        text: KEPT_READY,
        endings: &[Ending::Served],
        nodes: 1,
    },
    Site {
        name: "no pool can give two machines",
        text: TOO_SMALL,
        endings: &[Ending::Failed],
        nodes: 0,
    },
    Site {
        name: "three failed starts are one node's attempts",
        text: FAILS,
        endings: &[Ending::Failed, Ending::Served, Ending::Served],
        nodes: 0,
    },
    Site {
        name: "jobs take turns at semaphores",
        text: r#"{"labels":[{"name":"small"}],"providers":[{"name":"cloud","pools":[{"name":"main","labels":[{"name":"small"}]}]}],"semaphores":[{"name":"database"},{"name":"network"}],"requesters":[{"name":"check","jobs":[{"name":"migrate","labels":["small"],"semaphores":["database","network"]},{"name":"route","labels":["small"],"semaphores":["network","database"]},{"name":"query","labels":["small"],"semaphores":["database"]}]}]}"#,
        endings: &[Ending::Served, Ending::Served, Ending::Served],
        nodes: 0,
    },
    Site {
        name: "a node is held",
        text: r#"{"labels":[{"name":"small"}],"providers":[{"name":"cloud","pools":[{"name":"main","labels":[{"name":"small"}]}]}],"requesters":[{"name":"check","jobs":[{"name":"unit","labels":["small"],"end":"hold"}]}]}"#,
        endings: &[Ending::Served],
        nodes: 1,
    },
    Site {
        name: "a launcher expires",
        text: r#"{"labels":[{"name":"small"}],"providers":[{"name":"cloud","pools":[{"name":"main","labels":[{"name":"small"}]}]}],"requesters":[{"name":"check","jobs":[{"name":"unit","labels":["small"]}]}],"faults":[{"role":"launcher","name":"cloud/main","kind":"expire","after":5}]}"#,
        endings: &[Ending::Served],
        nodes: 0,
    },
    Site {
        name: "a requester stops for good while it uses its node",
        text: r#"{"labels":[{"name":"small"}],"providers":[{"name":"cloud","pools":[{"name":"main","labels":[{"name":"small"}]}]}],"requesters":[{"name":"check","jobs":[{"name":"unit","labels":["small"]}]}],"faults":[{"role":"requester","name":"check","kind":"stop","after":3}]}"#,
        endings: &[Ending::Lost],
        nodes: 0,
    },
    Site {
        name: "jobs of a tenant with one node",
        text: OF_TENANT,
        endings: &[Ending::Served, Ending::Served],
        nodes: 0,
    },
    Site {
        name: "each party's session expires",
        text: r#"{"labels":[{"name":"a"}],"providers":[{"name":"c","pools":[{"name":"m","labels":[{"name":"a"}]}]}],"semaphores":[{"name":"x"}],"tenants":[{"name":"t","max-servers":1}],"requesters":[{"name":"z","jobs":[{"name":"j","labels":["a"],"tenant":"t"},{"name":"k","labels":["a"],"semaphores":["x"],"tenant":"t"}]}],"faults":[{"role":"launcher","name":"c/m","kind":"expire","after":4},{"role":"requester","name":"z","kind":"expire","after":1},{"role":"janitor","name":"c/m","kind":"expire","after":1}]}"#,
        endings: &[Ending::Served, Ending::Served],
        nodes: 0,
    },
];

/// The role makes a useful event at the board, whose index then answers as a walk of its rows does. Whether
/// it had one; none if an answer differs, or memory runs out.
fn act(board: &mut Board, role: Role) -> Option<bool> {
    match board.take_turn(PlanAsk::Plain(Ask::Act(role))) {
        Ok(PlanTurn::Plain(Turn::Did(_))) => answers_as_a_walk_does(board).then_some(true),
        Ok(_) => Some(false),
        Err(_) => None,
    }
}

/// Each role makes at most one event, and the machine then answers as its tree does. Whether one
/// did.
fn play_round(board: &mut Board) -> Option<bool> {
    let mut acted = false;
    for role in ROLES {
        acted = act(board, role)? || acted;
    }
    answers_as_its_tree_does(board).then_some(acted)
}

/// Plays rounds, with a tick after each, until no role has a useful event. Whether that came.
fn play(board: &mut Board) -> bool {
    for _round in 0..ROUNDS {
        match play_round(board) {
            Some(true) => {}
            Some(false) => return true,
            None => return false,
        }
        let tick = PlanAsk::Plain(Ask::Do(Event::Tick));
        if board.take_turn(tick).is_err() {
            return false;
        }
    }
    false
}

/// How the job ended.
fn ending_of(board: &Board, job: JobId) -> Option<Ending> {
    board.machine().rows().job(job)?.ending
}

/// Whether the jobs ended, and nodes are left, as the site says.
fn ends_as(board: &Board, site: &Site) -> bool {
    let rows = board.machine().rows();
    for at in 0..rows.jobs() {
        if ending_of(board, JobId(at)) != site.endings.get(at as usize).copied() {
            return false;
        }
    }
    rows.jobs() as usize == site.endings.len() && rows.nodes() == site.nodes
}

/// Whether the board is settled, and time may go on.
fn is_at_rest(board: &Board) -> bool {
    board.settled() && matches!(board.machine().judge(Event::Tick), Reply::Done(Done::Plain))
}

/// The events of the journal happen at the tables. Whether memory was ample.
fn repeats_at_tables(plain: &mut Plain, journal: &[Entry]) -> bool {
    every!(entry in journal => plain.apply(entry.event).is_ok())
}

/// The machine over tables, before the first event.
fn first_plain(alloc: Global, site: &str) -> Option<Plain> {
    match new_plain(alloc, config_of(alloc, site)?) {
        Ok(plain) => Some(plain),
        Err(_) => None,
    }
}

/// Whether tables give the replies of the journal to its events.
fn is_journal_of_tables(alloc: Global, text: &str, journal: &[Entry]) -> bool {
    match first_plain(alloc, text) {
        None => false,
        Some(mut plain) => {
            repeats_at_tables(&mut plain, journal)
                && have_equal_lines(alloc, plain.journal(), journal)
        }
    }
}

/// The events of the journal happen at the bare tree. Whether memory was ample.
fn repeats_at_tree(bare: &mut Bare, journal: &[Entry]) -> bool {
    every!(entry in journal => bare.apply(entry.event).is_ok())
}

/// Whether a bare tree gives the replies of the journal to its events.
fn is_journal_of_tree(alloc: Global, text: &str, journal: &[Entry]) -> bool {
    match Bare::new(alloc, text) {
        None => false,
        Some(mut bare) => {
            repeats_at_tree(&mut bare, journal) && have_equal_lines(alloc, bare.journal(), journal)
        }
    }
}

/// Whether the site, played at its new board, comes to the end that it says, and all give the same
/// journal, also a machine that is read back from its tree after a quarter of it.
fn is_played_at(alloc: Global, board: &mut Board, site: &Site) -> bool {
    !is_at_rest(board)
        && play(board)
        && is_at_rest(board)
        && ends_as(board, site)
        && is_journal_of_tables(alloc, site.text, board.journal())
        && is_journal_of_tree(alloc, site.text, board.journal())
        && goes_on_from(alloc, site.text, board.machine(), board.journal().len() / 4)
}

/// Whether the site comes to the end that it says, and all give the same journal.
fn is_played(alloc: Global, site: &Site) -> bool {
    match new_board(alloc, site.text) {
        None => false,
        Some(mut board) => {
            let is_played = is_played_at(alloc, &mut board, site);
            board.close();
            is_played
        }
    }
}

#[test]
fn sites_come_to_their_end(rt: HostRuntime) {
    for site in &SITES {
        assert!(rt; is_played(rt.alloc(), site), "{}", site.name);
    }
}
