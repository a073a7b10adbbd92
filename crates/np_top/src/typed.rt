//! That the numbers of a journal's events are within their types.

ghost use Rattle.std.specs.List.{AllByRecursion};
ghost use Rattle.np_top.specs.Audit.{IsTyped};

use np_event::{Entry, Event};
use np_text::Role;

/// It does nothing: the event's numbers are within their types.
fn is_typed(event: Event)
    ensures { IsTyped event }
{
    match event {
        Event::Tick => {}
        Event::OpenSession { role } => match role {
            Role::Launcher(_) | Role::Janitor(_) | Role::Requester(_) | Role::Reaper => {}
        },
        Event::Crash { session: _ } | Event::Expire { session: _ } => {}
        _ => {}
    }
}

/// It does nothing but go through the journal: the numbers of its events are within their types.
pub(crate) fn numbers_are_within_their_types(journal: &[Entry])
    ensures { AllByRecursion (λ e. IsTyped e.event) journal.now }
{
    for entry in journal {
        is_typed(entry.event);
    }
}
