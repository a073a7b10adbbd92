//! The laws. Each function does nothing: its contract is the law.
#![tactic(auto, using(crate::proofs::Rows::told))]

ghost use Rattle.std.specs.Prelude.{◌≡◌, List, length};
ghost use Rattle.np_report.specs.Lower.{AllByRecursion, Configuration, Entry, HasEventLine, IsSound, Runs, State};
ghost use Rattle.np_report.specs.Told.{IsToldEntry};

/// Each entry of a run can be printed if its event has a line: the requests that its reply names
/// have priorities of three digits, and no reply reports a withdrawn job or a full journal.
pub fn the_replies_of_a_run_can_be_told()
    ensures { (c : Configuration) (journal : List Entry) (s : State) → IsSound c → Runs c journal s →
        AllByRecursion (λ e. HasEventLine e.event) journal → AllByRecursion IsToldEntry journal }
{}

/// The state of a run has one record for each job of the configuration.
pub fn a_run_has_a_record_for_each_job()
    ensures { (c : Configuration) (journal : List Entry) (s : State) → IsSound c → Runs c journal s →
        length s.jobs ≡ length c.jobs }
{}
