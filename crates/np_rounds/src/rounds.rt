//! A site, played to its end.

ghost use Rattle.std.specs.Prelude.{◌≡◌, [], length, map, All, IfOk, Some, true, false};
ghost use Rattle.np_rounds.specs.Lower.{AreCarried, BeginsEmpty, BeginsNew, DrivenBy, FailOnlyFull, IsOf, IsSettled, IsWhole, PlannedBy, WasAnswered, driving};
ghost use Rattle.np_rounds.specs.Crews.{players_of};
ghost use Rattle.np_rounds.specs.Laps.{HasLaps, IsTick, WasPlayed};
ghost use Rattle.np_rounds.specs.Played.{is_plain_full, EndsWithTick, IsRested, Stops};

use crate::crew::{drivers_of, workers_of};
use crate::round::play_round;
use np_board::{Board, PlanAsk, PlanTurn};
use np_cloud::{Driver, Gate};
use np_config::Config;
use np_desk::{Desk, Pass};
use np_event::Event;
use np_text::NoMemory;
use np_worker::{Ask, Turn, Worker};
use std::alloc::Global;
use std::sync::Wait;
use std::thread::Threads;

/// What playing a site came to.
#[derive(Drop)]
pub struct Ended<D> {
    /// The board, with the whole journal.
    pub board: Board,
    /// Whether the journal had no room for what came next.
    pub full: bool,
    /// The drivers, in the order of the pools.
    pub drivers: Vec<D>,
}

/// Whether the turn found no room in the journal.
fn is_full(turn: PlanTurn) -> bool
    ensures { result ≡ is_plain_full turn }
{
    matches!(turn, PlanTurn::Plain(Turn::Full))
}

/// Advances time by one tick, and returns whether the journal has no room for that.
fn tick<R: Wait>(rt: &R, desk: &Desk<Board>, pass: &mut Pass<Board>) -> Result<bool, NoMemory>
    requires own { IsOf pass.old desk.now }
    requires whole { IsWhole pass.old.part }
    ensures own { IsOf pass.new desk.now }
    ensures part { pass.new.part ≡ pass.old.part }
    ensures stops { IfOk result (λ full. Stops full pass.new.seen) }
    ensures tick { IfOk result (λ full. IsTick desk.now.origin.fixed
        pass.old.seen pass.new.seen full) }
{
    pass.know();
    let turn = pass.turn(rt, desk, PlanAsk::Plain(Ask::Do(Event::Tick)))?;
    Ok(is_full(turn))
}

/// Plays rounds at the desk, each with an entry followed by a tick, until one makes no entry or the
/// journal has no room, and returns whether it has none.
fn play_at<R: Threads + Wait + Sync, D: Driver + Send + Drop, G: Gate + Sync>(
    rt: &R,
    alloc: Global,
    desk: &Desk<Board>,
    pass: &mut Pass<Board>,
    workers: &mut Vec<Worker<D>>,
    plans: bool,
    gate: &G,
) -> Result<bool, NoMemory>
    requires own { IsOf pass.old desk.now }
    requires whole { IsWhole pass.old.part }
    requires rested { IsRested pass.old.seen }
    ensures own { IfOk result (λ _. IsOf pass.new desk.now) }
    ensures whole { IfOk result (λ _. IsWhole pass.new.part) }
    ensures stops { IfOk result (λ full. Stops full pass.new.seen) }
    ensures laps { IfOk result (λ full. HasLaps plans desk.now.origin.fixed
        pass.old.seen (players_of D.facts D.plan D.sound D.room workers.old.items)
        pass.new.seen (players_of D.facts D.plan D.sound D.room workers.new.items) full) }
{
    for _ in rt.forever() {
        let together = play_round(rt, alloc, desk, pass, workers, plans, gate)?;
        if together.full {
            return Ok(true);
        }
        if !together.moved {
            return Ok(false);
        }
        if tick(rt, desk, pass)? {
            return Ok(true);
        }
    }
    unreachable!()
}

/// Plays rounds at a desk over the board, and returns it with whether the journal has no room.
fn play_board<R: Threads + Wait + Sync, D: Driver + Send + Drop, G: Gate + Sync>(
    rt: &R,
    alloc: Global,
    board: Board,
    workers: &mut Vec<Worker<D>>,
    plans: bool,
    gate: &G,
) -> Result<(Board, bool), NoMemory>
    requires rested { IsRested board.journal }
    ensures configuration { IfOk result (λ r. r.0.configuration ≡ board.configuration) }
    ensures stops { IfOk result (λ r. Stops r.1 r.0.journal) }
    ensures laps { IfOk result (λ r. HasLaps plans board.configuration
        board.journal (players_of D.facts D.plan D.sound D.room workers.old.items)
        r.0.journal (players_of D.facts D.plan D.sound D.room workers.new.items) r.1) }
{
    board.know_soundness();
    let Ok((desk, mut pass)) = Desk::set_up(alloc, board) else {
        return Err(NoMemory);
    };
    let full = play_at(rt, alloc, &desk, &mut pass, workers, plans, gate)?;
    pass.know();
    Ok((desk.close(pass), full))
}

/// Plays rounds from the board on until one makes no entry and the site is settled, or the journal
/// has no room, and returns the board with whether it has none.
fn play_site<R: Threads + Wait + Sync, D: Driver + Send + Drop, G: Gate + Sync>(
    rt: &R,
    alloc: Global,
    mut board: Board,
    workers: &mut Vec<Worker<D>>,
    plans: bool,
    gate: &G,
) -> Result<(Board, bool), NoMemory>
    requires rested { IsRested board.journal }
    ensures configuration { IfOk result (λ r. r.0.configuration ≡ board.configuration) }
    ensures stops { IfOk result (λ r. Stops r.1 r.0.journal) }
    ensures settled { IfOk result (λ r. r.1 ≡ false →
        IsSettled r.0.configuration r.0.state) }
    ensures laps { IfOk result (λ r. HasLaps plans board.configuration
        board.journal (players_of D.facts D.plan D.sound D.room workers.old.items)
        r.0.journal (players_of D.facts D.plan D.sound D.room workers.new.items) r.1) }
{
    for _ in rt.forever() {
        let (played, full) = play_board(rt, alloc, board, workers, plans, gate)?;
        if full || played.settled() {
            return Ok((played, full));
        }
        board = played;
    }
    unreachable!()
}

/// Plays the site to its end: rounds of all workers, each with an entry followed by a tick. It ends
/// when a round made no entry and the board is settled, or when the journal has no room. If launchers
/// plan, they commit events that they chose on an older state, where nothing changed that they read.
/// It may wait for as long as its workers do.
pub fn run_rounds<R: Threads + Wait + Sync, D: Driver + Send + Drop, G: Gate + Sync>(
    rt: &R,
    alloc: Global,
    config: Config,
    drivers: Vec<D>,
    plans: bool,
    gate: &G,
) -> Result<Ended<D>, NoMemory>
    requires drivers { length drivers.items ≡ length config.pools }
    ensures configuration { IfOk result (λ e. e.board.configuration ≡ config) }
    ensures settled { IfOk result (λ e. e.full ≡ false →
        IsSettled config e.board.state × EndsWithTick e.board.journal) }
    ensures full { IfOk result (λ e. e.full ≡ true → length e.board.journal ≡ 262144) }
    ensures played { IfOk result (λ e. WasPlayed plans config
        (map (driving D.facts D.plan D.sound D.room) drivers.items)
        (map (driving D.facts D.plan D.sound D.room) e.drivers.items)
        e.board.journal e.full) }
    ensures drivers { IfOk result (λ e. length e.drivers.items ≡ length config.pools) }
    ensures plans { IfOk result (λ e. map D.plan e.drivers.items ≡ map D.plan drivers.items) }
    ensures sounds { IfOk result (λ e. map D.sound e.drivers.items ≡ map D.sound drivers.items) }
    ensures rooms { IfOk result (λ e. map D.room e.drivers.items ≡ map D.room drivers.items) }
    ensures driven { plans ≡ false → All (λ (d : D). (D.facts d).servers ≡ Some []) drivers.items →
        IfOk result (λ e. DrivenBy
        (WasAnswered (map (driving D.facts D.plan D.sound D.room) e.drivers.items))
        config e.board.journal) }
    ensures planned { plans ≡ true → All (λ (d : D). (D.facts d).servers ≡ Some []) drivers.items →
        IfOk result (λ e. PlannedBy
        (WasAnswered (map (driving D.facts D.plan D.sound D.room) e.drivers.items))
        config e.board.journal) }
    ensures carried { plans ≡ false → All (λ (d : D). BeginsEmpty (D.facts d)) drivers.items →
        IfOk result (λ e. AreCarried config e.board.journal
        (map (driving D.facts D.plan D.sound D.room) e.drivers.items)) }
    ensures failed { plans ≡ false → All (λ (d : D). BeginsNew (D.facts d)) drivers.items →
        IfOk result (λ e. FailOnlyFull config e.board.journal
        (map (driving D.facts D.plan D.sound D.room) e.drivers.items)) }
{
    config.know_soundness();
    let mut workers = workers_of(alloc, &config, drivers)?;
    let board = Board::new(alloc, config)?;
    let (played, full) = play_site(rt, alloc, board, &mut workers, plans, gate)?;
    played.know_soundness();
    let drivers = drivers_of(alloc, workers)?;
    Ok(Ended {
        board: played,
        full,
        drivers,
    })
}
