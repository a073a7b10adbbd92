//! Playing events over a machine.

ghost use Rattle.std.specs.Prelude.{◌≡◌, ◌≤◌, [], length, IfOk, OnOk};
ghost use Rattle.std.specs.List.{AllByRecursion};
ghost use Rattle.np_report.specs.Lower.{HasEventLine, ran_of};
ghost use Rattle.np_report.specs.Summary.{played, ran};
ghost use Rattle.np_report.specs.Told.{IsPrinted};
ghost use Rattle.np_report.specs.Script.{IsPlayable};

use crate::Script;
use crate::print::text;
use np_event::Event;
use np_look::{Look, Store};
use np_rules::{Machine, new_plain};
use np_text::{Ample, NoMemory};
use std::alloc::Global;

/// Plays the events over a machine that has not had any, each answered by the machine. The cost is
/// that of the events, by `Machine::apply`.
pub fn play<S: Store + Drop>(machine: &mut Machine<S>, events: &[Event]) -> Ample
    requires first { machine.old.earlier ≡ 0 }
    requires fresh { ran_of machine.old ≡ ran machine.old.configuration [] }
    requires few { length events.now ≤ 262144 }
    ensures { OnOk result (ran_of machine.new
        ≡ ran machine.old.configuration events.now) }
{
    for event in events {
        machine.apply(*event)?;
    }
    Ok(())
}

/// Plays the events over the machine, and prints the run.
fn text_of_events<S: Store + Drop>(
    alloc: Global,
    machine: &mut Machine<S>,
    events: &[Event],
) -> Result<Vec<u8>, NoMemory>
    requires first { machine.old.earlier ≡ 0 }
    requires fresh { ran_of machine.old ≡ ran machine.old.configuration [] }
    requires few { length events.now ≤ 262144 }
    requires lines { AllByRecursion HasEventLine events.now }
    ensures { IfOk result (λ text. IsPrinted machine.old.configuration
        (played machine.old.configuration events.now) text.items) }
{
    play(machine, events)?;
    text(alloc, machine.rows(), machine.journal())
}

/// Plays the script's events over its configuration, and returns the whole Text of that run. The
/// cost is that of the events, by `Machine::apply`, and of the Text.
pub fn text_of_script(alloc: Global, script: Script) -> Result<Vec<u8>, NoMemory>
    requires { IsPlayable script }
    ensures { IfOk result (λ text.
        IsPrinted script.config (played script.config script.events) text.items) }
{
    let Script { config, events } = script;
    let mut machine = new_plain(alloc, config)?;
    text_of_events(alloc, &mut machine, events.items())
}
