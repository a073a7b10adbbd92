//! Playing a case, at a desk.

ghost use Rattle.std.specs.Prelude.{◌≡◌};
ghost use Rattle.np_worker.specs.Prelude.{IsOf};

use crate::plan_cases::{COMMITS, KINDS, NODES, POOLS, REQUESTS, SESSIONS, SITES};
use crate::plan_script::{Script, Step, is_journal_of, is_recorded, is_told, step_at};
use crate::sites::{ROLES, new_board};
use np_board::{Board, PlanAsk, Planner};
use np_desk::{Desk, SetUpFailed};
use np_event::{Event, read_entry};
use np_look::{Look, Rows};
use np_text::JobId;
use np_worker::Ask;
use std::alloc::Global;
use std::sync::Wait;

/// More turns than any of these sites needs: eighty rounds.
const TURNS: usize = 560;

/// Whether the board takes the step as it says.
fn takes<R: Wait>(alloc: Global, planner: &mut Planner<R>, step: &Step) -> bool
    requires own { IsOf planner.old.pass planner.old.desk.now }
    ensures own { IsOf planner.new.pass planner.new.desk.now }
    ensures desk { planner.new.desk.now ≡ planner.old.desk.now }
    ensures part { planner.new.pass.part ≡ planner.old.pass.part }
{
    let Some(ask) = ask_of(step) else {
        return false;
    };
    match planner.pass.turn(planner.rt, planner.desk, ask) {
        Err(_) => false,
        Ok(turn) => match step {
            Step::Line(line) => is_recorded(alloc, &turn, line),
            Step::Asks(_, answer) => is_told(alloc, &turn, answer),
        },
    }
}

/// What is asked in the step, or none if its line is no line.
fn ask_of(step: &Step) -> Option<PlanAsk> {
    match step {
        Step::Asks(ask, _) => Some(*ask),
        Step::Line(line) => match read_entry(line.as_bytes()) {
            None => None,
            Some(entry) => Some(PlanAsk::Plain(Ask::Do(entry.event))),
        },
    }
}

/// Whether the board takes each step as it says.
fn takes_all<R: Wait>(alloc: Global, planner: &mut Planner<R>, script: &Script) -> bool
    requires own { IsOf planner.old.pass planner.old.desk.now }
    ensures own { IsOf planner.new.pass planner.new.desk.now }
    ensures desk { planner.new.desk.now ≡ planner.old.desk.now }
    ensures part { planner.new.pass.part ≡ planner.old.pass.part }
{
    for at in 0..script.before.len() + script.steps.len() {
        match step_at(script, at) {
            Some(step) if takes(alloc, planner, step) => {}
            _ => return false,
        }
    }
    true
}

/// What is asked at a place of the rounds: each role acts, and then time goes on.
fn ask_at(at: usize) -> Ask {
    match ROLES.get(at % 7) {
        Some(role) => Ask::Act(*role),
        None => Ask::Do(Event::Tick),
    }
}

/// Plays rounds, in which each party has a turn. Whether memory was ample.
fn plays_on<R: Wait>(planner: &mut Planner<R>) -> bool
    requires own { IsOf planner.old.pass planner.old.desk.now }
    ensures own { IsOf planner.new.pass planner.new.desk.now }
    ensures desk { planner.new.desk.now ≡ planner.old.desk.now }
    ensures part { planner.new.pass.part ≡ planner.old.pass.part }
{
    every!(at in 0..TURNS => planner.take_turn(ask_at(at)).is_ok())
}

/// Plays the script. Whether each step was taken as it says, and memory was ample.
fn plays<R: Wait>(alloc: Global, planner: &mut Planner<R>, script: &Script) -> bool
    requires own { IsOf planner.old.pass planner.old.desk.now }
    ensures own { IsOf planner.new.pass planner.new.desk.now }
    ensures desk { planner.new.desk.now ≡ planner.old.desk.now }
    ensures part { planner.new.pass.part ≡ planner.old.pass.part }
{
    takes_all(alloc, planner, script) && (!script.plays_on || plays_on(planner))
}

/// Whether the jobs ended as the script says.
fn have_ended(board: &Board, script: &Script) -> bool {
    let rows = board.machine().rows();
    let mut number: u32 = 0;
    for ending in script.endings {
        match rows.job(JobId(number)) {
            Some(job) if job.ending == *ending => {}
            _ => return false,
        }
        number = number.wrapping_add(1);
    }
    rows.jobs() as usize == script.endings.len()
}

/// Whether the board is left as the script says.
fn ends_as(alloc: Global, board: &Board, script: &Script) -> bool {
    board.commits() == script.commits
        && (!script.plays_on || board.settled())
        && have_ended(board, script)
        && (script.plays_on || is_journal_of(alloc, script, board.journal()))
}

/// Whether the script goes as it says at a new board of its site.
fn goes<R: Wait>(rt: &R, alloc: Global, script: &Script) -> bool {
    let Some(board) = new_board(alloc, script.site) else {
        return false;
    };
    board.know_soundness();
    match Desk::set_up(alloc, board) {
        Err(SetUpFailed { object }) => {
            object.close();
            false
        }
        Ok((desk, pass)) => {
            let mut planner = Planner {
                rt,
                desk: &desk,
                pass,
            };
            let goes = plays(alloc, &mut planner, script);
            let Planner { pass, .. } = planner;
            let board = desk.close(pass);
            let goes = goes && ends_as(alloc, &board, script);
            board.close();
            goes
        }
    }
}

/// Whether each script goes as it says.
fn all_go<R: Wait>(rt: &R, alloc: Global, scripts: &[Script]) -> bool {
    every!(script in scripts => goes(rt, alloc, script))
}

#[test]
fn plans_are_committed(rt: HostRuntime) {
    assert!(rt; all_go(&rt, rt.alloc(), &COMMITS));
}

#[test]
fn plans_go_stale_by_their_nodes(rt: HostRuntime) {
    assert!(rt; all_go(&rt, rt.alloc(), &NODES));
}

#[test]
fn plans_go_stale_by_sessions(rt: HostRuntime) {
    assert!(rt; all_go(&rt, rt.alloc(), &SESSIONS));
}

#[test]
fn plans_go_stale_by_their_requests(rt: HostRuntime) {
    assert!(rt; all_go(&rt, rt.alloc(), &REQUESTS));
}

#[test]
fn each_pool_has_its_plan(rt: HostRuntime) {
    assert!(rt; all_go(&rt, rt.alloc(), &POOLS));
}

#[test]
fn ready_nodes_are_taken_and_requests_declined(rt: HostRuntime) {
    assert!(rt; all_go(&rt, rt.alloc(), &KINDS));
}

#[test]
fn sites_are_played_by_plans(rt: HostRuntime) {
    assert!(rt; all_go(&rt, rt.alloc(), &SITES));
}
