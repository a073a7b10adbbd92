//! What no clause says: that threads take turns and series of turns side by side with ample memory
//! and come to their end, also if some turns run out of memory, and that each thread's entries are
//! in its order.

ghost use Rattle.std.specs.Prelude.{◌≡◌, Some, None, true, if◌then◌else◌, slice_get};
ghost use Rattle.np_desk.specs.Step.{IsOf};

use np_desk::{Alone, Desk, OnDesk, Pass, SeqObject, Series, Turns};
use np_text::NoMemory;
use std::alloc::Global;
use std::sync::Wait;
use std::thread::{Threads, join};

/// Keeps what it is asked to, but asked 1 it keeps nothing, and asked 0 it finds no memory.
#[derive(Drop)]
struct Notes {
    kept: Vec<u64>,
}

impl SeqObject for Notes {
    type Ask = u64;

    type Entry = u64;

    type Turn = bool;

    type Fixed = u64;

    ghost fixed = { λ _. 0 };

    ghost history = { λ notes. notes.kept.items };

    ghost legal = { λ _ _. true };

    ghost answers = { λ _ _ _ _. Unit {0} };

    ghost recorded = { λ ask keeps. if keeps then Some ask else None };

    fn turn(&mut self, ask: u64) -> Result<bool, NoMemory> {
        match ask {
            0 => Err(NoMemory),
            1 => Ok(false),
            _ => {
                self.kept.push(ask)?;
                Ok(true)
            }
        }
    }
}

// What each of two threads asks, first in single turns and then in series.
const ONES: [u64; 16] = [
    100, 0, 101, 102, 1, 103, 104, 0, 0, 105, 106, 107, 1, 108, 109, 0,
];

const TWOS: [u64; 16] = [
    0, 200, 1, 201, 202, 203, 0, 204, 205, 206, 207, 1, 208, 0, 1, 209,
];

const ONES_IN_SERIES: [u64; 16] = [
    110, 111, 112, 113, 114, 0, 115, 1, 116, 117, 118, 0, 0, 119, 1, 1,
];

const TWOS_IN_SERIES: [u64; 16] = [
    1, 0, 210, 211, 1, 212, 213, 214, 215, 216, 217, 218, 0, 219, 1, 0,
];

/// Whether this is the answer to the ask.
fn is_answer(ask: u64, turn: Result<bool, NoMemory>) -> bool {
    match turn {
        Err(_) => ask == 0,
        Ok(keeps) => ask != 0 && keeps == (ask != 1),
    }
}

/// Asks these in turn. Whether each was answered.
fn ask_each<T: Turns<Ask = u64, Turn = bool>>(turns: &mut T, asks: &[u64]) -> bool
    requires { T.ready turns.old }
    ensures ready { T.ready turns.new }
    ensures place { T.place turns.new ≡ T.place turns.old }
{
    let mut answered = true;
    for ask in asks {
        answered = is_answer(*ask, turns.turn(*ask)) && answered;
    }
    answered
}

/// A list of asks. The series pauses after an answer that nothing was kept.
#[derive(Clone, Copy)]
struct Row<'a> {
    asks: &'a [u64],
    next: usize,
    paused: bool,
}

impl<'a> Series for Row<'a> {
    type Ask = u64;

    type Turn = bool;

    ghost asks = { λ row. if row.paused then None else slice_get row.asks.now row.next };

    ghost hears = { λ _ _ _. Unit {0} };

    fn ask(&self) -> Option<u64> {
        if self.paused {
            return None;
        }
        self.asks.get(self.next).copied()
    }

    fn hear(&mut self, kept: bool) {
        self.next = self.next.saturating_add(1);
        self.paused = !kept;
    }
}

/// Asks these in series of at most four turns. Whether each was answered: an ask that finds no memory
/// is not heard of, so it is passed over here.
fn ask_in_series<T: Turns<Ask = u64, Turn = bool>>(turns: &mut T, asks: &[u64]) -> bool
    requires { T.ready turns.old }
    ensures ready { T.ready turns.new }
    ensures place { T.place turns.new ≡ T.place turns.old }
{
    let mut row = Row {
        asks,
        next: 0,
        paused: false,
    };
    let mut answered = true;
    for _series in 0..asks.len() {
        if turns.turns(&mut row, 4).is_err() {
            answered = asks.get(row.next).copied() == Some(0) && answered;
            row.next = row.next.saturating_add(1);
        }
        row.paused = false;
    }
    row.next == asks.len() && answered
}

/// The turns of one thread.
fn work<R: Wait>(
    rt: &R,
    desk: &Desk<Notes>,
    pass: Pass<Notes>,
    asks: &[u64],
    in_series: &[u64],
) -> (Pass<Notes>, bool)
    requires { IsOf pass desk.now }
    ensures own { IsOf result.0 desk.now }
    ensures part { result.0.part ≡ pass.part }
{
    let mut turns = OnDesk { rt, desk, pass };
    let each = ask_each(&mut turns, asks);
    let all = ask_in_series(&mut turns, in_series);
    (turns.pass, each && all)
}

/// Whether these are what both threads had kept, each in its order.
fn are_both(kept: &[u64]) -> bool {
    let mut one: u64 = 100;
    let mut two: u64 = 200;
    for ask in kept {
        if *ask == one {
            one = one.wrapping_add(1);
        } else if *ask == two {
            two = two.wrapping_add(1);
        } else {
            return false;
        }
    }
    one == 120 && two == 220
}

/// Two threads take turns beside each other. Then the first sees what the second has seen, and both
/// are joined to the pass that they were split from.
fn two_threads<R: Threads + Wait + Sync>(rt: &R, alloc: Global) -> bool {
    let kept = Vec::new(alloc);
    let Ok((desk, mut pass)) = Desk::set_up(alloc, Notes { kept }) else {
        return false;
    };
    let one = pass.split(&desk);
    let two = pass.split(&desk);
    let at = &desk;
    let ((mut one, ones), (mut two, twos)) = join(
        rt,
        || -> (Pass<Notes>, bool)
            requires { IsOf one at.now }
            ensures own { IsOf result.0 at.entry.now }
            ensures part { result.0.part ≡ one.part }
        { work(rt, at, one, &ONES, &ONES_IN_SERIES) },
        || -> (Pass<Notes>, bool)
            requires { IsOf two at.now }
            ensures own { IsOf result.0 at.entry.now }
            ensures part { result.0.part ≡ two.part }
        { work(rt, at, two, &TWOS, &TWOS_IN_SERIES) },
    );
    one.meet(&desk, &mut two);
    pass.join(&desk, one);
    pass.join(&desk, two);
    let notes = desk.close(pass);
    ones && twos && are_both(notes.kept.as_slice())
}

/// An object that no other thread has takes turns, too.
fn alone(alloc: Global) -> bool {
    let object = Notes {
        kept: Vec::new(alloc),
    };
    let mut alone = Alone { object };
    ask_each(&mut alone, &[7, 0, 8, 1, 9])
        && ask_in_series(&mut alone, &[2, 3, 0, 1, 4, 5])
        && alone.object.kept.as_slice() == [7, 8, 9, 2, 3, 4, 5].as_slice()
}

#[test]
fn turns_are_taken_side_by_side_and_alone(rt: HostRuntime) {
    assert!(rt; two_threads(&rt, rt.alloc()), "two threads");
    assert!(rt; alone(rt.alloc()), "alone");
}
