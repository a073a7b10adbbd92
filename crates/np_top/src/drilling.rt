//! The command `drill`.

ghost use Rattle.std.specs.Prelude.{◌≤◌, false, IfOk};
ghost use Rattle.np_top.specs.Lower.{AllByRecursion, Driven, HasEventLine, IsSound, drill_site};
ghost use Rattle.np_top.specs.Play.{Drills, EndsDrill, HasEnded};

use crate::playing::play_site;
use np_board::Board;
use np_cloud::Gate;
use np_io::Sink;
use np_look::Look;
use np_replay::{Ending, tell};
use np_report::summary;
use np_text::NoMemory;
use std::alloc::Global;
use std::sync::Wait;
use std::thread::Threads;

/// How a drill that ended with this board ends: with the summary of its jobs' fates.
fn ending_at(alloc: Global, board: &Board, full: bool) -> Result<Ending, NoMemory>
    requires sound { IsSound board.now.configuration }
    requires lines { AllByRecursion (λ e. HasEventLine e.event) board.now.journal }
    requires driven { Driven board.now.configuration board.now.journal }
    requires ended { HasEnded false board.now.configuration board.now.journal full }
    ensures { IfOk result (EndsDrill board.now.configuration) }
{
    board.know_soundness();
    let text = summary(alloc, board.machine().rows())?;
    if full {
        return Ok(Ending::Full { text });
    }
    Ok(Ending::Prints { text, status: 0 })
}

/// Plays the generated site to its end, and returns how the drill ends then.
fn play_drill<R: Threads + Wait + Sync, G: Gate + Sync>(
    rt: &R,
    alloc: Global,
    jobs: u32,
    gate: &G,
) -> Result<Ending, NoMemory>
    requires jobs { (1 ≤ jobs) × (jobs ≤ 4000) }
    ensures { IfOk result (EndsDrill (drill_site jobs)) }
{
    let config = np_gen::drill(alloc, jobs)?;
    config.know_soundness();
    let (board, full) = play_site(rt, alloc, config, false, gate)?;
    let ending = ending_at(alloc, &board, full);
    board.close();
    ending
}

/// The same, whichever way it came.
fn ending_of<R: Threads + Wait + Sync, G: Gate + Sync>(
    rt: &R,
    alloc: Global,
    jobs: u32,
    gate: &G,
) -> Ending
    requires jobs { (1 ≤ jobs) × (jobs ≤ 4000) }
    ensures { EndsDrill (drill_site jobs) result }
{
    match play_drill(rt, alloc, jobs, gate) {
        Ok(ending) => ending,
        Err(_) => Ending::NoMemory,
    }
}

/// Makes the site of this number of jobs, lets its launchers, janitors, requesters and reaper play
/// it in threads to its end, and prints how many jobs came to which end to out. It returns the
/// status: 0 if the site came to its end, 6 for a failed sink, 7 if memory ran out. If the journal
/// was full, the summary is printed, a line on err says so, and the status is 9. It may wait for as
/// long as the rounds do.
pub fn drill<R: Threads + Wait + Sync, K: Sink, E: Sink, G: Gate + Sync>(
    rt: &R,
    alloc: Global,
    jobs: u32,
    out: &mut K,
    err: &mut E,
    gate: &G,
) -> u8
    requires jobs { (1 ≤ jobs) × (jobs ≤ 4000) }
    ensures { Drills K.facts E.facts jobs out.old out.new err.old err.new result }
{
    let ending = ending_of(rt, alloc, jobs, gate);
    tell(out, err, &ending)
}
