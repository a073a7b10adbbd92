//! One round of all workers.

ghost use Rattle.std.specs.Prelude.{◌≡◌, ◌<◌, ◌++◌, All, IfOk, [], ◌∷◌, length, true, false};
ghost use Rattle.np_rounds.specs.Lower.{IsFull, IsOf, IsWhole, is_legal};
ghost use Rattle.np_rounds.specs.Crews.{zeros, split_pass, AreGiven, players_of, crew_players};
ghost use Rattle.np_rounds.specs.Laps.{IsPlayedRound};
ghost use Rattle.np_rounds.specs.Plays.{CrewPlays, Pairwise};
ghost use Rattle.np_rounds.specs.Backs.{AreBack, TookBack};
ghost use Rattle.np_rounds.specs.Played.{with_end};

use crate::crew::{Crew, CrewEnd, play};
use crate::crossing::{board_crosses, sends};
use np_board::Board;
use np_cloud::{Driver, Gate};
use np_config::Config;
use np_desk::{Desk, Pass, SeqObject};
use np_event::Entry;
use np_text::NoMemory;
use np_worker::{RoundEnd, Worker};
use std::alloc::Global;
use std::sync::Wait;
use std::thread::{self, Threads};

/// What a round of all workers came to.
#[derive(Clone, Copy)]
pub(crate) struct Together {
    /// Whether a worker made an entry.
    pub(crate) moved: bool,
    /// Whether a worker's round ended because the journal has no room.
    pub(crate) full: bool,
}

/// Gives each worker a pass, the last worker first.
fn hand_out<M: SeqObject<Entry = Entry, Fixed = Config>, D: Driver + Drop>(
    alloc: Global,
    desk: &Desk<M>,
    pass: &mut Pass<M>,
    workers: &mut Vec<Worker<D>>,
) -> Result<Vec<Crew<D, Pass<M>>>, NoMemory>
    requires own { IsOf pass.old desk.now }
    requires whole { IsWhole pass.old.part }
    ensures pass { IfOk result (λ v. pass.new ≡ split_pass (length v.items) pass.old) }
    ensures given { IfOk result (λ v. AreGiven pass.old 0 v.items) }
    ensures players { IfOk result (λ v. crew_players D.facts D.plan D.sound D.room v.items
        ++ players_of D.facts D.plan D.sound D.room workers.new.items
        ≡ players_of D.facts D.plan D.sound D.room workers.old.items) }
    ensures all { IfOk result (λ _. workers.new.items ≡ []) }
{
    let mut crews = Vec::new(alloc);
    while let Some(worker) = workers.pop() {
        let given = pass.split(desk);
        crews.push(Crew {
            worker,
            pass: given,
        })?;
    }
    Ok(crews)
}

/// Lets all crews play, each in a thread of its own if one can be made.
fn play_all<R: Threads + Wait + Sync, D: Driver + Send + Drop, G: Gate + Sync>(
    rt: &R,
    desk: &Desk<Board>,
    plans: bool,
    gate: &G,
    crews: Vec<Crew<D, Pass<Board>>>,
) -> Result<Vec<CrewEnd<D, Pass<Board>>>, NoMemory>
    requires own { All (λ crew. IsOf crew.pass desk.now) crews.items }
    ensures { IfOk result (λ v. Pairwise (CrewPlays plans D.facts D.plan D.sound D.room desk.now)
        crews.items v.items) }
{
    board_crosses();
    sends::<Worker<D>>();
    sends::<Pass<Board>>();
    let ends = thread::map_vec(
        rt,
        crews,
        &|crew: Crew<D, Pass<Board>>| -> CrewEnd<D, Pass<Board>>
            requires { IsOf crew.pass desk.now }
            ensures { CrewPlays plans D.facts D.plan D.sound D.room desk.entry.now crew result }
        { play(rt, desk, plans, gate, crew) },
    )?;
    Ok(ends)
}

/// With what one more worker's round came to. If one ran out of memory, all did.
fn with_end(sum: Together, end: Result<RoundEnd, NoMemory>) -> Result<Together, NoMemory>
    ensures { result ≡ with_end sum end }
{
    let end = end?;
    Ok(Together {
        moved: sum.moved || end.entries > 0,
        full: sum.full || end.full,
    })
}

/// Takes the passes back, the last that was given first.
fn take_back<M: SeqObject<Entry = Entry, Fixed = Config>, D: Driver + Drop>(
    desk: &Desk<M>,
    pass: &mut Pass<M>,
    workers: &mut Vec<Worker<D>>,
    mut ends: Vec<CrewEnd<D, Pass<M>>>,
) -> Result<Together, NoMemory>
    requires own { IsOf pass.old desk.now }
    requires part { pass.old.part ≡ zeros (length ends.items) ∷ [] }
    requires back { AreBack desk.now 0 ends.items }
    ensures own { IsOf pass.new desk.now }
    ensures whole { IfOk result (λ _. IsWhole pass.new.part) }
    ensures took { IfOk result (λ t. TookBack D.facts D.plan D.sound D.room pass.old pass.new
        workers.old.items workers.new.items t ends.items) }
{
    let mut sum = Together {
        moved: false,
        full: false,
    };
    while let Some(last) = ends.pop() {
        let CrewEnd { crew, end } = last;
        let Crew {
            worker,
            pass: given,
        } = crew;
        pass.join(desk, given);
        sum = with_end(sum, end)?;
        workers.push(worker)?;
    }
    Ok(sum)
}

/// Lets each worker play a round, side by side if threads can be made.
pub(crate) fn play_round<R: Threads + Wait + Sync, D: Driver + Send + Drop, G: Gate + Sync>(
    rt: &R,
    alloc: Global,
    desk: &Desk<Board>,
    pass: &mut Pass<Board>,
    workers: &mut Vec<Worker<D>>,
    plans: bool,
    gate: &G,
) -> Result<Together, NoMemory>
    requires own { IsOf pass.old desk.now }
    requires whole { IsWhole pass.old.part }
    ensures own { IfOk result (λ _. IsOf pass.new desk.now) }
    ensures whole { IfOk result (λ _. IsWhole pass.new.part) }
    ensures full { IfOk result (λ t. t.full ≡ true → IsFull pass.new.seen) }
    ensures still { IfOk result (λ t. t.moved ≡ false → pass.new.seen ≡ pass.old.seen) }
    ensures moved { IfOk result (λ t. t.moved ≡ true →
        length pass.old.seen < length pass.new.seen) }
    ensures legal { IfOk result (λ _. is_legal desk.now.origin.fixed pass.new.seen ≡ true) }
    ensures round { IfOk result (λ t. IsPlayedRound plans desk.now.origin.fixed
        pass.old.seen pass.new.seen
        (players_of D.facts D.plan D.sound D.room workers.old.items)
        (players_of D.facts D.plan D.sound D.room workers.new.items) t.full) }
{
    pass.know();
    let crews = hand_out(alloc, desk, pass, workers)?;
    let ends = play_all(rt, desk, plans, gate, crews)?;
    let together = take_back(desk, pass, workers, ends)?;
    pass.know();
    Ok(together)
}
