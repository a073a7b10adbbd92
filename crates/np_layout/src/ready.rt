//! The laws. Each function does nothing: its contract is the law.
#![tactic(auto, using(crate::proofs::Proved::events_laws))]

ghost use Rattle.np_layout.specs.Ways.{EventsAreEnacted, EventsAreReady, RecordsAreSpelled, StartsAreCarried, StepsAreCarried};

/// Each record of the state after the call of an accepted event has a spelling.
pub fn every_record_is_spelled()
    ensures { RecordsAreSpelled }
{}

/// The changes of an accepted event have what the tree needs of them.
pub fn every_accepted_event_is_ready()
    ensures { EventsAreReady }
{}

/// A tree can carry the state before the first event of a sound site.
pub fn every_start_is_carried()
    ensures { StartsAreCarried }
{}

/// A tree can carry the state that an accepted event leaves.
pub fn every_step_is_carried()
    ensures { StepsAreCarried }
{}

/// A tree of the state, with room, enacts an accepted event: it accepts the call of its changes, and
/// then stores the state after the event.
pub fn every_accepted_event_is_enacted()
    ensures { EventsAreEnacted }
{}
