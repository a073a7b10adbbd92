//! What a case is.

use crate::lines::{is_event_line, is_line};
use np_board::{Plan, PlanAsk, PlanTurn};
use np_event::Entry;
use np_planned::Spot;
use np_text::{Ending, PoolId};
use np_worker::Turn;
use std::alloc::Global;

/// A site, what happens at its board, and what is left then.
pub struct Script {
    pub name: &'static str,
    pub site: &'static str,
    /// What happens first.
    pub before: &'static [Step],
    /// What happens then.
    pub steps: &'static [Step],
    /// Whether all parties then play rounds, in which launchers plan, until nothing is left to do.
    pub plays_on: bool,
    /// How many plans were committed.
    pub commits: u32,
    /// How each job ended, if it is over.
    pub endings: &'static [Option<Ending>],
}

/// A turn, and its answer.
pub enum Step {
    /// The event of the line happens, and its reply is the line's.
    Line(&'static str),
    /// This is asked, and answered so.
    Asks(PlanAsk, Answer),
}

/// What a board answers that is asked of a plan.
pub enum Answer {
    /// A plan of the pool for the event of the line, made at this change of the tree, with these
    /// spots.
    Planned(PoolId, &'static str, u64, &'static [Spot]),
    Fired(Spot),
    /// The entry of the line was recorded.
    Did(&'static str),
    /// The first spot that changed, and its last change.
    Stale(Spot, u64),
    Idle,
}

/// The step at a place of the script.
pub fn step_at(script: &Script, at: usize) -> Option<&'static Step> {
    if at < script.before.len() {
        script.before.get(at)
    } else {
        script.steps.get(at - script.before.len())
    }
}

/// Whether the plan has these spots, and was made at this change for the event of the line.
fn is_plan_of(alloc: Global, plan: &Plan, line: &str, at: u64, spots: &[Spot]) -> bool {
    plan.at == at && plan.spots.items() == spots && is_event_line(alloc, plan.event, line)
}

/// Whether the turn answers so.
pub fn is_told(alloc: Global, turn: &PlanTurn, answer: &Answer) -> bool {
    match *answer {
        Answer::Planned(pool, line, at, spots) => match turn {
            PlanTurn::Planned(plan) => {
                plan.pool == pool && is_plan_of(alloc, plan, line, at, spots)
            }
            _ => false,
        },
        Answer::Fired(spot) => matches!(turn, PlanTurn::Fired(at) if *at == spot),
        Answer::Did(line) => matches!(turn, PlanTurn::Did(entry) if is_line(alloc, *entry, line)),
        Answer::Stale(first, last) => {
            matches!(turn, PlanTurn::Stale { spot, change } if *spot == first && *change == last)
        }
        Answer::Idle => matches!(turn, PlanTurn::Idle),
    }
}

/// Whether the turn recorded the entry of the line.
pub fn is_recorded(alloc: Global, turn: &PlanTurn, line: &str) -> bool {
    matches!(turn, PlanTurn::Plain(Turn::Did(entry)) if is_line(alloc, *entry, line))
}

/// The line of the entry that the step records, if it records one.
fn recorded_line(step: &Step) -> Option<&'static str> {
    match *step {
        Step::Line(line) | Step::Asks(_, Answer::Did(line)) => Some(line),
        Step::Asks(..) => None,
    }
}

/// Whether the journal is what the steps record, and nothing else.
pub fn is_journal_of(alloc: Global, script: &Script, journal: &[Entry]) -> bool {
    let mut recorded: usize = 0;
    for at in 0..script.before.len() + script.steps.len() {
        let Some(step) = step_at(script, at) else {
            return false;
        };
        if let Some(line) = recorded_line(step) {
            match journal.get(recorded) {
                Some(entry) if is_line(alloc, *entry, line) => recorded += 1,
                _ => return false,
            }
        }
    }
    recorded == journal.len()
}
