//! A run, played event by event.

ghost use Rattle.std.specs.Prelude.{◌≡◌, ◌+◌, ◌<◌, ◌≤◌, [], length, IfOk, OnOk};
ghost use Rattle.np_explain.specs.Explained.{GoesOn, IsPlayed};

use crate::progress::Progress;
use np_config::Config;
use np_event::{Entry, Event};
use np_listing::Tally;
use np_rules::{Plain, new_plain};
use np_text::{Ample, NoMemory};
use std::alloc::Global;

/// A machine that has played events, and what they took. `close` gives it up.
pub(crate) struct Run {
    pub(crate) machine: Plain,
    pub(crate) tally: Tally,
}

/// Gives up the run, with the memory that it has.
pub(crate) fn close(run: Run) {
    let Run { machine, tally } = run;
    let (_config, _store) = machine.into_parts();
    let _tally = tally;
}

/// The run before the first event.
pub(crate) fn begin(alloc: Global, config: Config) -> Result<Run, NoMemory>
    ensures played { IfOk result (λ run. IsPlayed run.machine run.tally) }
    ensures none { IfOk result (λ run. run.machine.journal ≡ []) }
{
    let tally = Tally::new(alloc, &config)?;
    let machine = new_plain(alloc, config)?;
    Ok(Run { machine, tally })
}

/// Plays one event, and counts it.
fn step(run: &mut Run, event: Event) -> Ample
    requires played { IsPlayed run.old.machine run.old.tally }
    requires room { length run.old.machine.journal < 262144 }
    ensures played { OnOk result (IsPlayed run.new.machine run.new.tally) }
    ensures goes_on { OnOk result (GoesOn run.old.machine run.new.machine 1) }
{
    let reply = run.machine.apply(event)?;
    run.machine.know_soundness();
    run.tally.note(&run.machine, &Entry { event, reply });
    Ok(())
}

/// Plays the events. The cost is that of the events, by `Machine::apply` and `Tally::note`.
pub(crate) fn play<P: Progress>(run: &mut Run, events: &[Event], progress: &mut P) -> Ample
    requires played { IsPlayed run.old.machine run.old.tally }
    requires room { length run.old.machine.journal + length events.now ≤ 262144 }
    ensures played { OnOk result (IsPlayed run.new.machine run.new.tally) }
    ensures goes_on { OnOk result
        (GoesOn run.old.machine run.new.machine (length events.now)) }
{
    for event in events {
        step(run, *event)?;
        progress.played();
    }
    Ok(())
}
