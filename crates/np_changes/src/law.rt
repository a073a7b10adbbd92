//! That the changes are what the machine does, and what its tests have shown of them.

ghost use Rattle.std.specs.Prelude.{◌≡◌, is_ok, true};
ghost use Rattle.np_changes.specs.Lower.{Configuration, Event, State, judge, next};
ghost use Rattle.np_changes.specs.Changes.{changed};
ghost use Rattle.np_changes.specs.Plan.{plan};
ghost use Rattle.np_changes.specs.Premises.{Premises};

/// The planned changes of an accepted event lead to the machine's next state.
#[tactic(auto, using(crate::proofs::Accepted::planning))]
pub fn an_accepted_event_changes_what_is_planned()
    ensures { (c : Configuration) (s : State) (e : Event) →
        is_ok (judge c s e) ≡ true → changed c (plan c s e) s ≡ next c s e }
{}

/// The tests of an accepted event have shown the premises of each change that is planned for it.
#[tactic(auto, using(crate::proofs::Premises::premises))]
pub fn the_changes_of_an_accepted_event_have_their_premises()
    ensures { (c : Configuration) (s : State) (e : Event) →
        is_ok (judge c s e) ≡ true → Premises c s (plan c s e) }
{}
