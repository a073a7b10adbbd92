//! The forms of replies, one row for each; a refusal's row comes after the word `refused`. A new
//! refusal is one more row in each table here, and one in each table of `specs/ReplyForm`.
//! A reply also represents its form: the tables go by the variant and ignore its values.
ghost use Rattle.std.specs.Prelude.{◌≡◌};
ghost use Rattle.np_event.specs.ReplyForm.{done_of, done_fields, done_row, refusal_fields, refusal_of, refusal_row};

use crate::kind::Kind::{Cores, Instances, Ram};
use crate::kind::{BLANK, BLANK_FOUND, BLANK_REQUEST, Fields, Kind};
use crate::row::{HasRow, Row};
use crate::{Done, Refusal};
use np_text::{Ending, LabelId, NodeId, SemId, SessionId};

/// A done reply of each form.
pub(crate) const DONE_FORMS: [Done; 10] = [
    Done::Plain,
    Done::Session(SessionId(0)),
    Done::Request(BLANK_REQUEST),
    Done::Node(NodeId(0)),
    Done::Started {
        attempt: 0,
        start: 0,
    },
    Done::Held,
    Done::Queued { ahead: 0 },
    Done::Keep,
    Done::Remove,
    Done::Ended(Ending::Served),
];

/// A refusal of each form.
pub(crate) const REFUSAL_FORMS: [Refusal; 29] = [
    Refusal::NoSession,
    Refusal::Expired,
    Refusal::Crashed,
    Refusal::WrongRole,
    Refusal::NoRequest,
    Refusal::NoNode,
    Refusal::NoJob,
    Refusal::NotOwner,
    Refusal::NotRegistered,
    Refusal::Taken(SessionId(0)),
    Refusal::Busy(SessionId(0)),
    Refusal::NotHeld,
    Refusal::WrongState(BLANK_FOUND),
    Refusal::Declined,
    Refusal::NotFirst(BLANK_REQUEST),
    Refusal::FalseReason,
    Refusal::NoLabel(LabelId(0)),
    Refusal::NeverFits,
    Refusal::QuotaShort {
        instances: 0,
        cores: 0,
        ram: 0,
    },
    Refusal::Allocated(BLANK_REQUEST),
    Refusal::WrongAttempt(0),
    Refusal::NotAll(0),
    Refusal::SemaphoreFull(SemId(0)),
    Refusal::NotDue(0),
    Refusal::Enough(0),
    Refusal::Spent,
    Refusal::Full,
    Refusal::TenantShort {
        instances: 0,
        cores: 0,
        ram: 0,
    },
    Refusal::TenantNeverFits,
];

impl HasRow for Done {
    ghost row_of = { done_row };

    /// The first word, and what follows it. It depends on the reply's form alone.
    fn row(self) -> Row {
        match self {
            Done::Plain => Row::of(b"ok", &[]),
            Done::Session(_) => Row::of(b"session", &[Kind::Session]),
            Done::Request(_) => Row::of(b"request", &[Kind::Request]),
            Done::Node(_) => Row::of(b"node", &[Kind::Node]),
            Done::Started { .. } => Row::of(b"started", &[Kind::Attempt, Kind::Number]),
            Done::Held => Row::of(b"held", &[]),
            Done::Queued { .. } => Row::of(b"queued", &[Kind::Number]),
            Done::Keep => Row::of(b"keep", &[]),
            Done::Remove => Row::of(b"remove", &[]),
            Done::Ended(_) => Row::of(b"ended", &[Kind::Ending]),
        }
    }
}

/// The reply of the same form with these fields.
pub(crate) fn done_of(form: Done, said: Fields) -> Done
    ensures { result ≡ done_of form said }
{
    match form {
        Done::Session(_) => Done::Session(said.session),
        Done::Request(_) => Done::Request(said.request),
        Done::Node(_) => Done::Node(said.node),
        Done::Started { .. } => Done::Started {
            attempt: said.attempt,
            start: said.number,
        },
        Done::Queued { .. } => Done::Queued { ahead: said.number },
        Done::Ended(_) => Done::Ended(said.ending),
        _ => form,
    }
}

/// What the reply says.
pub(crate) fn done_fields(done: Done) -> Fields
    ensures { result ≡ done_fields done }
{
    let mut said = BLANK;
    match done {
        Done::Session(session) => said.session = session,
        Done::Request(request) => said.request = request,
        Done::Node(node) => said.node = node,
        Done::Started { attempt, start } => (said.attempt, said.number) = (attempt, start),
        Done::Queued { ahead } => said.number = ahead,
        Done::Ended(ending) => said.ending = ending,
        _ => {}
    }
    said
}

impl HasRow for Refusal {
    ghost row_of = { refusal_row };

    /// The first word after `refused`, and what follows it. It depends on the refusal's form alone.
    fn row(self) -> Row {
        match self {
            Refusal::NoSession => Row::of(b"no-session", &[]),
            Refusal::Expired => Row::of(b"expired", &[]),
            Refusal::Crashed => Row::of(b"crashed", &[]),
            Refusal::WrongRole => Row::of(b"wrong-role", &[]),
            Refusal::NoRequest => Row::of(b"no-request", &[]),
            Refusal::NoNode => Row::of(b"no-node", &[]),
            Refusal::NoJob => Row::of(b"no-job", &[]),
            Refusal::NotOwner => Row::of(b"not-owner", &[]),
            Refusal::NotRegistered => Row::of(b"not-registered", &[]),
            Refusal::Taken(_) => Row::of(b"taken", &[Kind::Session]),
            Refusal::Busy(_) => Row::of(b"busy", &[Kind::Session]),
            Refusal::NotHeld => Row::of(b"not-held", &[]),
            Refusal::WrongState(_) => Row::of(b"wrong-state", &[Kind::Found]),
            Refusal::Declined => Row::of(b"declined", &[]),
            Refusal::NotFirst(_) => Row::of(b"not-first", &[Kind::Request]),
            Refusal::FalseReason => Row::of(b"false-reason", &[]),
            Refusal::NoLabel(_) => Row::of(b"no-label", &[Kind::Label]),
            Refusal::NeverFits => Row::of(b"never-fits", &[]),
            Refusal::QuotaShort { .. } => Row::of(b"quota-short", &[Instances, Cores, Ram]),
            Refusal::Allocated(_) => Row::of(b"allocated", &[Kind::Request]),
            Refusal::WrongAttempt(_) => Row::of(b"wrong-attempt", &[Kind::Attempt]),
            Refusal::NotAll(_) => Row::of(b"not-all", &[Kind::Number]),
            Refusal::SemaphoreFull(_) => Row::of(b"semaphore-full", &[Kind::Semaphore]),
            Refusal::NotDue(_) => Row::of(b"not-due", &[Kind::Number]),
            Refusal::Enough(_) => Row::of(b"enough", &[Kind::Number]),
            Refusal::Spent => Row::of(b"spent", &[]),
            Refusal::Full => Row::of(b"full", &[]),
            Refusal::TenantShort { .. } => Row::of(b"tenant-short", &[Instances, Cores, Ram]),
            Refusal::TenantNeverFits => Row::of(b"tenant-never-fits", &[]),
        }
    }
}

/// The refusal of the same form with these fields.
pub(crate) fn refusal_of(form: Refusal, said: Fields) -> Refusal
    ensures { result ≡ refusal_of form said }
{
    match form {
        Refusal::Taken(_) => Refusal::Taken(said.session),
        Refusal::Busy(_) => Refusal::Busy(said.session),
        Refusal::WrongState(_) => Refusal::WrongState(said.found),
        Refusal::NotFirst(_) => Refusal::NotFirst(said.request),
        Refusal::NoLabel(_) => Refusal::NoLabel(said.label),
        Refusal::QuotaShort { .. } => Refusal::QuotaShort {
            instances: said.instances,
            cores: said.cores,
            ram: said.ram,
        },
        Refusal::Allocated(_) => Refusal::Allocated(said.request),
        Refusal::WrongAttempt(_) => Refusal::WrongAttempt(said.attempt),
        Refusal::NotAll(_) => Refusal::NotAll(said.number),
        Refusal::SemaphoreFull(_) => Refusal::SemaphoreFull(said.semaphore),
        Refusal::NotDue(_) => Refusal::NotDue(said.number),
        Refusal::Enough(_) => Refusal::Enough(said.number),
        Refusal::TenantShort { .. } => Refusal::TenantShort {
            instances: said.instances,
            cores: said.cores,
            ram: said.ram,
        },
        _ => form,
    }
}

/// What the refusal says.
pub(crate) fn refusal_fields(refusal: Refusal) -> Fields
    ensures { result ≡ refusal_fields refusal }
{
    let mut said = BLANK;
    match refusal {
        Refusal::Taken(session) | Refusal::Busy(session) => said.session = session,
        Refusal::WrongState(found) => said.found = found,
        Refusal::NotFirst(request) | Refusal::Allocated(request) => said.request = request,
        Refusal::NoLabel(label) => said.label = label,
        Refusal::WrongAttempt(attempt) => said.attempt = attempt,
        Refusal::NotAll(number) | Refusal::NotDue(number) | Refusal::Enough(number) => {
            said.number = number;
        }
        Refusal::SemaphoreFull(semaphore) => said.semaphore = semaphore,
        Refusal::QuotaShort {
            instances,
            cores,
            ram,
        }
        | Refusal::TenantShort {
            instances,
            cores,
            ram,
        } => (said.instances, said.cores, said.ram) = (instances, cores, ram),
        _ => {}
    }
    said
}
