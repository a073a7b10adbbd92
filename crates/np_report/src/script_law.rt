//! The law. Its function does nothing: its contract is the law.
#![tactic(auto, using(crate::proofs::Rows::told))]

ghost use Rattle.std.specs.Prelude.{List};
ghost use Rattle.np_report.specs.Lower.{AllByRecursion, Configuration, Entry, HasEntryLine, HasEventLine, IsSound, Runs, State};

/// Each entry of a run of a sound configuration has a line if its event has one.
pub fn each_entry_of_a_run_has_a_line()
    ensures { (c : Configuration) (journal : List Entry) (s : State) → IsSound c → Runs c journal s →
        AllByRecursion (λ e. HasEventLine e.event) journal → AllByRecursion HasEntryLine journal }
{}
