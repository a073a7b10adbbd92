//! What holds of every run.

ghost use Rattle.std.specs.Prelude.{List};
ghost use Rattle.np_changes.specs.Prelude.{Configuration, Entry, Fenced, Kept, Runs, State};
ghost use Rattle.np_changes.specs.Steps.{AfterEveryStep};

/// A crash or an expiry changes no record; each request and each node that a run made still exists,
/// or its end is in the journal.
#[tactic(auto, using(crate::proofs::Records::keeping))]
pub fn no_crash_and_no_expiry_loses_a_record()
    ensures { (c : Configuration) (journal : List Entry) (s : State) → Runs c journal s →
        Kept c journal }
{}

/// Each change of a node that existed is made by a session that holds it before or after, except
/// for allocations that a decline or a reset gives back.
#[tactic(auto, using(crate::proofs::Runs::over_journals))]
pub fn each_change_of_a_node_is_its_holders()
    ensures { (c : Configuration) (journal : List Entry) (s : State) → Runs c journal s →
        Fenced c journal }
{}

/// Both hold after every step of a run.
#[tactic(auto, using(crate::proofs::Records::keeping, crate::proofs::Runs::over_journals))]
pub fn every_run_is_kept_and_fenced_after_every_step()
    ensures kept { (c : Configuration) (journal : List Entry) (s : State) → Runs c journal s →
        AfterEveryStep (Kept c) journal }
    ensures fenced { (c : Configuration) (journal : List Entry) (s : State) → Runs c journal s →
        AfterEveryStep (Fenced c) journal }
{}
