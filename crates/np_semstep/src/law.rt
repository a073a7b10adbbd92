//! A law on the groups of events.

ghost use Rattle.std.specs.Prelude.{◌≡◌};
ghost use Rattle.np_event.specs.declared.event.Event.{Event};
ghost use Rattle.np_semstep.specs.Groups.{groups_with};

/// Each event is one of requests (np_reqstep), of nodes (np_nodestep), of semaphores or of sessions,
/// and of no second of these groups. The call does nothing.
pub fn each_event_is_of_one_group()
    ensures { (e : Event) → groups_with e ≡ 1 }
{}
