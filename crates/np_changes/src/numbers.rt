//! The laws. Each function does nothing: its contract is the law.

ghost use Rattle.std.specs.Prelude.{List};
ghost use Rattle.np_changes.specs.Lower.{Configuration, Entry, IsSound, Runs, State};
ghost use Rattle.np_changes.specs.Fits.{Fits, IsFitSite};

/// The numbers of every state that a run leads to fit.
pub fn the_numbers_of_every_run_fit()
    ensures { (c : Configuration) (journal : List Entry) (s : State) →
        IsFitSite c → Runs c journal s → Fits c s }
{}

/// A sound configuration bounds all numbers of a run.
#[tactic(auto, using(crate::proofs::Shapes::sound_fits))]
pub fn a_sound_configuration_is_a_fit_site()
    ensures { (c : Configuration) → IsSound c → IsFitSite c }
{}
