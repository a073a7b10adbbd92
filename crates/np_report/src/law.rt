//! Laws of the Text. Each function does nothing: its contract is the law.
#![tactic(auto, using(crate::proofs::Findings::laws))]

ghost use Rattle.std.specs.Prelude.{◌≡◌, List};
ghost use Rattle.np_report.specs.Lower.{AllByRecursion, Configuration, Entry, HasEntryLine, IsSound, Runs, State};
ghost use Rattle.np_report.specs.declared.script.Script.{Script};
ghost use Rattle.np_report.specs.Summary.{played};
ghost use Rattle.np_report.specs.Told.{IsPrinted, text_of};
ghost use Rattle.np_report.specs.Script.{IsPlayable};

/// A Text determines its run: two sound configurations, as each `Config` is, and two runs whose
/// entries have lines, have the same Text only if they are the same.
pub fn a_text_tells_its_run()
    ensures { (c d : Configuration) (j k : List Entry) (s t : State) →
        IsSound c → IsSound d → Runs c j s → Runs d k t →
        AllByRecursion HasEntryLine j → AllByRecursion HasEntryLine k →
        text_of c j ≡ text_of d k → (c ≡ d) × (j ≡ k) }
{}

/// What the Text of a script's run shows: its events are played into a run of the machine, and all
/// that `HoldsThroughout` says is true of that run after every step.
pub fn a_script_plays_safely()
    ensures { (script : Script) → IsPlayable script → IsPrinted script.config
        (played script.config script.events)
        (text_of script.config (played script.config script.events)) }
{}
