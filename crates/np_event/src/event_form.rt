//! The forms of event lines, one row for each. A new event is one more row in each table here, and
//! one in each table of `specs/EventForm`.
ghost use Rattle.std.specs.Prelude.{◌≡◌};
ghost use Rattle.np_event.specs.EventForm.{event_of, event_parts, event_row};

use crate::kind::Kind::*;
use crate::kind::{
    BLANK, FAILED, Fields, JANITOR, LAUNCHER, NEVER_FITS, NO_LABEL, OK, REQUESTER, SPENT,
    TENANT_NEVER_FITS,
};
use crate::row::{HasRow, Row};
use crate::{Event, Outcome};
use np_text::{Reason, Role};

/// What an event's line looks like: one form, or one for each of its shapes.
#[derive(Clone, Copy)]
pub(crate) enum EventForm {
    Tick,
    OpenLauncher,
    OpenJanitor,
    OpenRequester,
    Crash,
    Expire,
    Register,
    Submit,
    Revise,
    MinReady,
    LockRequest,
    UnlockRequest,
    Accept,
    DeclineNoLabel,
    DeclineNeverFits,
    DeclineTenantNeverFits,
    DeclineSpent,
    TakeReady,
    Create,
    Start,
    DoneOk,
    DoneFailed,
    Fulfil,
    LockNode,
    UnlockNode,
    Acquire,
    Take,
    EndNode,
    Finish,
    Withdraw,
    Release,
    MarkDeleting,
    Gone,
    Reset,
    FreeNode,
    FailDeclined,
    Sweep,
}

use EventForm as Form;

/// All forms, in the order of the table's lines.
pub(crate) const EVENT_FORMS: [EventForm; 37] = [
    Form::Tick,
    Form::OpenLauncher,
    Form::OpenJanitor,
    Form::OpenRequester,
    Form::Crash,
    Form::Expire,
    Form::Register,
    Form::Submit,
    Form::Revise,
    Form::MinReady,
    Form::LockRequest,
    Form::UnlockRequest,
    Form::Accept,
    Form::DeclineNoLabel,
    Form::DeclineNeverFits,
    Form::DeclineTenantNeverFits,
    Form::DeclineSpent,
    Form::TakeReady,
    Form::Create,
    Form::Start,
    Form::DoneOk,
    Form::DoneFailed,
    Form::Fulfil,
    Form::LockNode,
    Form::UnlockNode,
    Form::Acquire,
    Form::Take,
    Form::EndNode,
    Form::Finish,
    Form::Withdraw,
    Form::Release,
    Form::MarkDeleting,
    Form::Gone,
    Form::Reset,
    Form::FreeNode,
    Form::FailDeclined,
    Form::Sweep,
];

impl HasRow for EventForm {
    ghost row_of = { event_row };

    fn row(self) -> Row
        ensures head { result.head.now ≡ (event_row self).head }
        ensures kinds { result.kinds.now ≡ (event_row self).kinds }
        ensures decided { result.decided_at ≡ (event_row self).decided_at }
    {
        match self {
            Form::Tick => Row::of(b"tick", &[]),
            Form::OpenLauncher => Row::of(b"open", &[LAUNCHER, Pool]),
            Form::OpenJanitor => Row::of(b"open", &[JANITOR, Pool]),
            Form::OpenRequester => Row::of(b"open", &[REQUESTER, Requester]),
            Form::Crash => Row::of(b"crash", &[Session]),
            Form::Expire => Row::of(b"expire", &[Session]),
            Form::Register => Row::of(b"register", &[Session]),
            Form::Submit => Row::of(b"submit", &[Session, Job]),
            Form::Revise => Row::of(b"revise", &[Session, Job, Relative]),
            Form::MinReady => Row::of(b"min-ready", &[Session, Label]),
            Form::LockRequest => Row::of(b"lock-request", &[Session, Request]),
            Form::UnlockRequest => Row::of(b"unlock-request", &[Session, Request]),
            Form::Accept => Row::of(b"accept", &[Session, Request]),
            Form::DeclineNoLabel => Row::decided(
                3,
                b"decline",
                &[Session, Request, NO_LABEL, Label],
            ),
            Form::DeclineNeverFits => Row::decided(3, b"decline", &[Session, Request, NEVER_FITS]),
            Form::DeclineTenantNeverFits => Row::decided(
                3,
                b"decline",
                &[Session, Request, TENANT_NEVER_FITS],
            ),
            Form::DeclineSpent => Row::decided(3, b"decline", &[Session, Request, SPENT, Node]),
            Form::TakeReady => Row::of(b"take-ready", &[Session, Request, Node]),
            Form::Create => Row::of(b"create", &[Session, Request]),
            Form::Start => Row::of(b"start", &[Session, Node]),
            Form::DoneOk => Row::decided(4, b"done", &[Session, Node, Attempt, OK, Server]),
            Form::DoneFailed => Row::decided(4, b"done", &[Session, Node, Attempt, FAILED]),
            Form::Fulfil => Row::of(b"fulfil", &[Session, Request]),
            Form::LockNode => Row::of(b"lock-node", &[Session, Node]),
            Form::UnlockNode => Row::of(b"unlock-node", &[Session, Node]),
            Form::Acquire => Row::of(b"acquire", &[Session, Job]),
            Form::Take => Row::of(b"take", &[Session, Job]),
            Form::EndNode => Row::of(b"end-node", &[Session, Node, End]),
            Form::Finish => Row::of(b"finish", &[Session, Job]),
            Form::Withdraw => Row::of(b"withdraw", &[Session, Job]),
            Form::Release => Row::of(b"release", &[Session, Job]),
            Form::MarkDeleting => Row::of(b"mark-deleting", &[Session, Node]),
            Form::Gone => Row::of(b"gone", &[Session, Node]),
            Form::Reset => Row::of(b"reset", &[Session, Request]),
            Form::FreeNode => Row::of(b"free-node", &[Session, Node]),
            Form::FailDeclined => Row::of(b"fail-declined", &[Session, Request]),
            Form::Sweep => Row::of(b"sweep", &[Session, Node, Server]),
        }
    }
}

/// The event of a form with these fields.
pub(crate) fn event_of(form: EventForm, said: Fields) -> Event
    ensures { result ≡ event_of form said }
{
    let (session, request, node, job) = (said.session, said.request, said.node, said.job);
    match form {
        Form::Tick => Event::Tick,
        Form::OpenLauncher => Event::OpenSession {
            role: Role::Launcher(said.pool),
        },
        Form::OpenJanitor => Event::OpenSession {
            role: Role::Janitor(said.pool),
        },
        Form::OpenRequester => Event::OpenSession {
            role: Role::Requester(said.requester),
        },
        Form::Crash => Event::Crash { session },
        Form::Expire => Event::Expire { session },
        Form::Register => Event::Register { session },
        Form::Submit => Event::Submit { session, job },
        Form::Revise => Event::Revise {
            session,
            job,
            relative: said.relative,
        },
        Form::MinReady => Event::MinReady {
            session,
            label: said.label,
        },
        Form::LockRequest => Event::LockRequest { session, request },
        Form::UnlockRequest => Event::UnlockRequest { session, request },
        Form::Accept => Event::Accept { session, request },
        Form::DeclineNoLabel => Event::Decline {
            session,
            request,
            reason: Reason::NoLabel(said.label),
        },
        Form::DeclineNeverFits => Event::Decline {
            session,
            request,
            reason: Reason::NeverFits,
        },
        Form::DeclineTenantNeverFits => Event::Decline {
            session,
            request,
            reason: Reason::TenantNeverFits,
        },
        Form::DeclineSpent => Event::Decline {
            session,
            request,
            reason: Reason::Spent(said.node),
        },
        Form::TakeReady => Event::TakeReady {
            session,
            request,
            node,
        },
        Form::Create => Event::Create { session, request },
        Form::Start => Event::Start { session, node },
        Form::DoneOk => Event::Done {
            session,
            node,
            attempt: said.attempt,
            outcome: Outcome::Launched(said.server),
        },
        Form::DoneFailed => Event::Done {
            session,
            node,
            attempt: said.attempt,
            outcome: Outcome::Failed,
        },
        Form::Fulfil => Event::Fulfil { session, request },
        Form::LockNode => Event::LockNode { session, node },
        Form::UnlockNode => Event::UnlockNode { session, node },
        Form::Acquire => Event::Acquire { session, job },
        Form::Take => Event::Take { session, job },
        Form::EndNode => Event::EndNode {
            session,
            node,
            end: said.end,
        },
        Form::Finish => Event::Finish { session, job },
        Form::Withdraw => Event::Withdraw { session, job },
        Form::Release => Event::Release { session, job },
        Form::MarkDeleting => Event::MarkDeleting { session, node },
        Form::Gone => Event::Gone { session, node },
        Form::Reset => Event::Reset { session, request },
        Form::FreeNode => Event::FreeNode { session, node },
        Form::FailDeclined => Event::FailDeclined { session, request },
        Form::Sweep => Event::Sweep {
            session,
            node,
            server: said.server,
        },
    }
}

/// An event's form. No line opens a reaper's session.
pub(crate) fn form_of(event: Event) -> EventForm
    ensures { result ≡ (event_parts event).0 }
{
    match event {
        Event::Tick => Form::Tick,
        Event::OpenSession { role } => match role {
            Role::Launcher(_) => Form::OpenLauncher,
            Role::Janitor(_) => Form::OpenJanitor,
            Role::Requester(_) => Form::OpenRequester,
            Role::Reaper => Form::Tick,
        },
        Event::Crash { .. } => Form::Crash,
        Event::Expire { .. } => Form::Expire,
        Event::Register { .. } => Form::Register,
        Event::Submit { .. } => Form::Submit,
        Event::Revise { .. } => Form::Revise,
        Event::MinReady { .. } => Form::MinReady,
        Event::LockRequest { .. } => Form::LockRequest,
        Event::UnlockRequest { .. } => Form::UnlockRequest,
        Event::Accept { .. } => Form::Accept,
        Event::Decline { reason, .. } => match reason {
            Reason::NoLabel(_) => Form::DeclineNoLabel,
            Reason::NeverFits => Form::DeclineNeverFits,
            Reason::TenantNeverFits => Form::DeclineTenantNeverFits,
            Reason::Spent(_) => Form::DeclineSpent,
        },
        Event::TakeReady { .. } => Form::TakeReady,
        Event::Create { .. } => Form::Create,
        Event::Start { .. } => Form::Start,
        Event::Done { outcome, .. } => match outcome {
            Outcome::Launched(_) => Form::DoneOk,
            Outcome::Failed => Form::DoneFailed,
        },
        Event::Fulfil { .. } => Form::Fulfil,
        Event::LockNode { .. } => Form::LockNode,
        Event::UnlockNode { .. } => Form::UnlockNode,
        Event::Acquire { .. } => Form::Acquire,
        Event::Take { .. } => Form::Take,
        Event::EndNode { .. } => Form::EndNode,
        Event::Finish { .. } => Form::Finish,
        Event::Withdraw { .. } => Form::Withdraw,
        Event::Release { .. } => Form::Release,
        Event::MarkDeleting { .. } => Form::MarkDeleting,
        Event::Gone { .. } => Form::Gone,
        Event::Reset { .. } => Form::Reset,
        Event::FreeNode { .. } => Form::FreeNode,
        Event::FailDeclined { .. } => Form::FailDeclined,
        Event::Sweep { .. } => Form::Sweep,
    }
}

/// What an event says.
pub(crate) fn event_fields(event: Event) -> Fields
    ensures { result ≡ (event_parts event).1 }
{
    let mut said = BLANK;
    match event {
        Event::Tick => {}
        Event::OpenSession { role } => match role {
            Role::Launcher(pool) | Role::Janitor(pool) => said.pool = pool,
            Role::Requester(requester) => said.requester = requester,
            Role::Reaper => {}
        },
        Event::Crash { session } | Event::Expire { session } | Event::Register { session } => {
            said.session = session;
        }
        Event::Submit { session, job }
        | Event::Acquire { session, job }
        | Event::Take { session, job }
        | Event::Finish { session, job }
        | Event::Withdraw { session, job }
        | Event::Release { session, job } => (said.session, said.job) = (session, job),
        Event::Revise {
            session,
            job,
            relative,
        } => (said.session, said.job, said.relative) = (session, job, relative),
        Event::MinReady { session, label } => (said.session, said.label) = (session, label),
        Event::LockRequest { session, request }
        | Event::UnlockRequest { session, request }
        | Event::Accept { session, request }
        | Event::Create { session, request }
        | Event::Fulfil { session, request }
        | Event::Reset { session, request }
        | Event::FailDeclined { session, request } => (said.session, said.request) = (
            session, request,
        ),
        Event::Decline {
            session,
            request,
            reason,
        } => {
            (said.session, said.request) = (session, request);
            match reason {
                Reason::NoLabel(label) => said.label = label,
                Reason::Spent(node) => said.node = node,
                Reason::NeverFits | Reason::TenantNeverFits => {}
            }
        }
        Event::TakeReady {
            session,
            request,
            node,
        } => (said.session, said.request, said.node) = (session, request, node),
        Event::Start { session, node }
        | Event::LockNode { session, node }
        | Event::UnlockNode { session, node }
        | Event::MarkDeleting { session, node }
        | Event::Gone { session, node }
        | Event::FreeNode { session, node } => (said.session, said.node) = (session, node),
        Event::Done {
            session,
            node,
            attempt,
            outcome,
        } => {
            (said.session, said.node, said.attempt) = (session, node, attempt);
            if let Outcome::Launched(server) = outcome {
                said.server = server;
            }
        }
        Event::EndNode { session, node, end } => (said.session, said.node, said.end) = (
            session, node, end,
        ),
        Event::Sweep {
            session,
            node,
            server,
        } => (said.session, said.node, said.server) = (session, node, server),
    }
    said
}
