//! That the definitions mean what they say: laws over every state and every journal.

ghost use Rattle.std.specs.Prelude.{◌≡◌, ◌+◌, List, ◌++◌, Some, None, is_ok, is_some, true, false};
ghost use Rattle.std.specs.Option.{option_map};
ghost use Rattle.np_machine.specs.Lower.{Configuration, Entry, Event, NodeId, Refusal, RequestId, Role, SessionId};
ghost use Rattle.np_event.specs.declared.reply.Reply.TheVariants as reply;
ghost use Rattle.np_machine.specs.State.{State, start};
ghost use Rattle.np_machine.specs.Tables.{role_of, request_in};
ghost use Rattle.np_machine.specs.LiveHolder.{IsLiveHolder, IsLiveRequestHolder, HoldsSince, LockedSince};
ghost use Rattle.np_machine.specs.Step.{react, judge, next, maker_of};
ghost use Rattle.np_machine.specs.History.{Runs, after};
ghost use Rattle.np_machine.specs.Laws.{RisesFrom, acts_of, same_role};

/// A refused event leaves the state as it was.
pub fn a_refusal_changes_nothing()
    ensures { (c : Configuration) (s : State) (e : Event) (why : Refusal) →
        (react c s e).0 ≡ reply.Refused why → (react c s e).1 ≡ s }
{}

/// A journal with the machine's replies leads to one state.
pub fn a_journal_leads_to_one_state()
    ensures { (c : Configuration) (journal : List Entry) (s t : State) →
        Runs c journal s → Runs c journal t → s ≡ t }
{}

/// Every prefix of a journal with the machine's replies has them too.
pub fn a_prefix_runs_too()
    ensures { (c : Configuration) (before rest : List Entry) (s : State) →
        Runs c (before ++ rest) s → Runs c before (after c before) }
{}

/// The next numbers of sessions, requests and nodes never fall.
pub fn the_next_numbers_never_fall()
    ensures { (c : Configuration) (s : State) (e : Event) → RisesFrom s (next c s e) }
{}

/// An accepted event of a maker adds 1 to the acts of its role and to no other; any other event
/// adds none.
#[tactic(auto, using(crate::proofs::Acts::own, crate::proofs::Acts::others, crate::proofs::Acts::no_maker))]
pub fn an_accepted_event_is_one_act_of_its_role()
    ensures own { (c : Configuration) (s : State) (e : Event) (session : SessionId) (role : Role) →
        maker_of e ≡ Some session → role_of session s ≡ Some role → is_ok (judge c s e) ≡ true →
        acts_of role (next c s e) ≡ option_map (λ n. n + 1) (acts_of role s) }
    ensures others { (c : Configuration) (s : State) (e : Event) (session : SessionId) (role other : Role) →
        maker_of e ≡ Some session → role_of session s ≡ Some role → same_role other role ≡ false →
        acts_of other (next c s e) ≡ acts_of other s }
    ensures no_maker { (c : Configuration) (s : State) (e : Event) (role : Role) →
        maker_of e ≡ None → acts_of role (next c s e) ≡ acts_of role s }
{}

/// A live holder of a node is a session that has held it since some accepted entry: by that entry
/// it holds the node, and no accepted entry after it ends that.
#[tactic(auto, using(crate::proofs::LiveHolders::holders))]
pub fn a_live_holder_has_held_since_an_entry()
    ensures since { (c : Configuration) (journal : List Entry) (session : SessionId) (n : NodeId) →
        IsLiveHolder c journal session n → HoldsSince c (start c) journal session n }
    ensures holder { (c : Configuration) (journal : List Entry) (session : SessionId) (n : NodeId) →
        HoldsSince c (start c) journal session n → IsLiveHolder c journal session n }
{}

/// A live holder of a request is a session that has had its lock since some entry, while the
/// request is there.
#[tactic(auto, using(crate::proofs::LiveHolders::holders))]
pub fn a_live_holder_of_a_request_has_locked_it()
    ensures since { (c : Configuration) (journal : List Entry) (session : SessionId) (r : RequestId) →
        IsLiveRequestHolder c journal session r → LockedSince journal session r }
    ensures holder { (c : Configuration) (journal : List Entry) (session : SessionId) (r : RequestId) →
        LockedSince journal session r → is_some (request_in r (after c journal).requests) ≡ true →
        IsLiveRequestHolder c journal session r }
{}
