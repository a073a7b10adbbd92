//! What may be at a place of a line.

use crate::Found;
use np_text::{
    EndAs, Ending, JobId, LabelId, NodeId, PoolId, ReasonKind, RequestId, RequestState,
    RequesterId, RoleKind, SemId, SessionId,
};

/// A word after the first that has one spelling and distinguishes the forms of an event.
#[derive(Clone, Copy)]
pub(crate) enum Fixed {
    Role(RoleKind),
    Reason(ReasonKind),
    Ok,
    Failed,
}

/// What is at a place of a line. A line has each kind at most once.
#[derive(Clone, Copy)]
pub(crate) enum Kind {
    Fixed(Fixed),
    /// `s1`.
    Session,
    /// `200-0000000000`.
    Request,
    /// `n0`.
    Node,
    /// `j0`.
    Job,
    /// `l0`.
    Label,
    /// `p0`.
    Pool,
    /// `q0`.
    Requester,
    /// `x0`.
    Semaphore,
    /// An attempt to launch a node.
    Attempt,
    /// A number of 32 bits.
    Number,
    /// A relative priority of a job.
    Relative,
    /// A server of the cloud.
    Server,
    Instances,
    Cores,
    Ram,
    /// The state in which a node is left.
    End,
    /// How a job ended.
    Ending,
    /// The state that a refusal found.
    Found,
}

pub(crate) const LAUNCHER: Kind = Kind::Fixed(Fixed::Role(RoleKind::Launcher));

pub(crate) const JANITOR: Kind = Kind::Fixed(Fixed::Role(RoleKind::Janitor));

pub(crate) const REQUESTER: Kind = Kind::Fixed(Fixed::Role(RoleKind::Requester));

pub(crate) const NO_LABEL: Kind = Kind::Fixed(Fixed::Reason(ReasonKind::NoLabel));

pub(crate) const NEVER_FITS: Kind = Kind::Fixed(Fixed::Reason(ReasonKind::NeverFits));

pub(crate) const TENANT_NEVER_FITS: Kind = Kind::Fixed(Fixed::Reason(ReasonKind::TenantNeverFits));

pub(crate) const SPENT: Kind = Kind::Fixed(Fixed::Reason(ReasonKind::Spent));

pub(crate) const OK: Kind = Kind::Fixed(Fixed::Ok);

pub(crate) const FAILED: Kind = Kind::Fixed(Fixed::Failed);

/// The largest number of an id, a start, a tick or a count in a line: those of 32 bits.
pub(crate) const NUMBER: u64 = 4_294_967_295;
/// The largest place in a table of the configuration that a line can name: those of 16 bits.
pub(crate) const PLACE: u64 = 65_535;
/// The largest number of an attempt to launch a node in a line: those of 8 bits.
pub(crate) const ATTEMPT: u64 = 255;
/// The largest number of a server, or part of an amount, in a line: those of 64 bits.
pub(crate) const WIDE: u64 = 18_446_744_073_709_551_615;

/// What the words of a line say, by their kinds. What a line lacks stays as in [`BLANK`].
#[derive(Clone, Copy)]
pub(crate) struct Fields {
    pub session: SessionId,
    pub request: RequestId,
    pub node: NodeId,
    pub job: JobId,
    pub label: LabelId,
    pub pool: PoolId,
    pub requester: RequesterId,
    pub semaphore: SemId,
    pub attempt: u8,
    pub number: u32,
    pub relative: u32,
    pub server: u64,
    pub instances: u64,
    pub cores: u64,
    pub ram: u64,
    pub end: EndAs,
    pub ending: Ending,
    pub found: Found,
}

pub(crate) const BLANK_REQUEST: RequestId = RequestId {
    priority: 0,
    seq: 0,
};

pub(crate) const BLANK_FOUND: Found = Found::Request(RequestState::Requested);

/// The fields before any word is read.
pub(crate) const BLANK: Fields = Fields {
    session: SessionId(0),
    request: BLANK_REQUEST,
    node: NodeId(0),
    job: JobId(0),
    label: LabelId(0),
    pool: PoolId(0),
    requester: RequesterId(0),
    semaphore: SemId(0),
    attempt: 0,
    number: 0,
    relative: 0,
    server: 0,
    instances: 0,
    cores: 0,
    ram: 0,
    end: EndAs::Used,
    ending: Ending::Served,
    found: BLANK_FOUND,
};
