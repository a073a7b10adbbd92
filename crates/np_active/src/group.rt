//! A group, and those of a node that was given to a requester.

ghost use Rattle.std.specs.Prelude.{◌≡◌};
ghost use Rattle.np_active.specs.Given.{given_group, locked_group};

use np_lists::Group;
use np_text::{RequesterId, SessionId};

/// The group of this class with these numbers.
pub(crate) fn group_of(class: u8, first: u16, second: u16, third: u64) -> Group
    ensures { result ≡ record { class = class; first = first; second = second; third = third } }
{
    Group {
        class,
        first,
        second,
        third,
    }
}

/// The nodes that were given to the requester.
pub(crate) fn given_group(requester: RequesterId) -> Group
    ensures { result ≡ given_group requester }
{
    group_of(0, requester.0, 0, 0)
}

/// Those of them in whose queues the session is.
pub(crate) fn locked_group(requester: RequesterId, session: SessionId) -> Group
    ensures { result ≡ locked_group requester session }
{
    group_of(1, requester.0, 0, u64::from(session.0))
}
