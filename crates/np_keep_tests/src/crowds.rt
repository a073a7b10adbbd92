//! What no clause says: that each of a hundred threads that wait at a desk is woken. The desk has 64
//! bells, so that more than one thread waits at some of them.

ghost use Rattle.std.specs.Prelude.{◌≡◌, [], None, true, All, IfOk};
ghost use Rattle.np_desk.specs.Step.{IsOf};

use np_desk::{Desk, Pass, SeqObject};
use np_text::NoMemory;
use std::alloc::Global;
use std::sync::Wait;
use std::thread::{Threads, map_vec};

/// How many threads wait at the desk.
const THREADS: u64 = 100;

/// How many turns each thread takes.
const TURNS: u64 = 40;

/// Counts its turns.
#[derive(Drop)]
struct Count {
    turns: u64,
}

impl SeqObject for Count {
    type Ask = u64;

    type Entry = u64;

    type Turn = u64;

    type Fixed = u64;

    ghost fixed = { λ _. 0 };

    ghost history = { λ _. [] };

    ghost legal = { λ _ _. true };

    ghost answers = { λ _ _ _ _. Unit {0} };

    ghost recorded = { λ _ _. None };

    fn turn(&mut self, _ask: u64) -> Result<u64, NoMemory> {
        self.turns = self.turns.wrapping_add(1);
        Ok(self.turns)
    }
}

/// A pass for each thread.
fn hand_out(
    alloc: Global,
    desk: &Desk<Count>,
    pass: &mut Pass<Count>,
) -> Result<Vec<Pass<Count>>, NoMemory>
    requires own { IsOf pass.old desk.now }
    ensures own { IsOf pass.new desk.now }
    ensures all { IfOk result (λ v. All (λ p. IsOf p desk.now) v.items) }
{
    let mut passes = Vec::new(alloc);
    for _thread in 0..THREADS {
        let given = pass.split(desk);
        passes.push(given)?;
    }
    Ok(passes)
}

/// Takes the turns of one thread. Whether each comes after the one before it.
fn take_turns<R: Wait>(rt: &R, desk: &Desk<Count>, pass: Pass<Count>) -> bool
    requires { IsOf pass desk.now }
{
    let mut pass = pass;
    let mut last: u64 = 0;
    for _turn in 0..TURNS {
        match pass.turn(rt, desk, 0) {
            Ok(count) if count > last => last = count,
            _ => return false,
        }
    }
    true
}

/// Whether all are true.
fn are_all(ends: &[bool]) -> bool {
    every!(end in ends => *end)
}

/// Whether a hundred threads take all their turns beside each other, and no turn is lost.
fn each_is_woken<R: Threads + Wait + Sync>(rt: &R, alloc: Global) -> bool {
    let Ok((desk, mut pass)) = Desk::set_up(alloc, Count { turns: 0 }) else {
        return false;
    };
    let Ok(passes) = hand_out(alloc, &desk, &mut pass) else {
        return false;
    };
    let at = &desk;
    let Ok(ends) = map_vec(
        rt,
        passes,
        &|pass: Pass<Count>| -> bool
            requires { IsOf pass at.now }
        { take_turns(rt, at, pass) },
    ) else {
        return false;
    };
    are_all(ends.as_slice()) && pass.turn(rt, &desk, 0) == Ok(THREADS * TURNS + 1)
}

#[test]
fn each_thread_at_a_desk_is_woken(rt: HostRuntime) {
    assert!(rt; each_is_woken(&rt, rt.alloc()));
}
