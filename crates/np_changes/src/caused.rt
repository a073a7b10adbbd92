//! What holds of every run.

ghost use Rattle.std.specs.Prelude.{List};
ghost use Rattle.np_changes.specs.Prelude.{Caused, Configuration, Entry, Runs, State};
ghost use Rattle.np_changes.specs.Steps.{AfterEveryStep};

/// Each turn of a run that makes a request fail has its cause, at it or before it: every pool that
/// is registered then has declined the request, each for a reason that was true at its own place;
/// or the request is pinned, and its pool declines it with a node whose launches are used up.
#[tactic(auto, using(crate::proofs::Runs::over_journals))]
pub fn a_request_failed_only_with_its_cause()
    ensures { (c : Configuration) (journal : List Entry) (s : State) → Runs c journal s →
        Caused c journal }
{}

/// The same holds after every step of a run.
#[tactic(auto, using(crate::proofs::Runs::over_journals))]
pub fn a_request_failed_only_with_its_cause_after_every_step()
    ensures { (c : Configuration) (journal : List Entry) (s : State) → Runs c journal s →
        AfterEveryStep (Caused c) journal }
{}
