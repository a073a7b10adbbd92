//! The states, phases and reasons that records, events and replies share, and the word of each.
//!
//! A word is read back by `from_word`, which answers only if the text is exactly a value's word.
ghost use Rattle.std.specs.Prelude.{◌≡◌, ◌++◌, OnOk, OnErr};
ghost use Rattle.std.specs.Fmt.{decimal};
ghost use Rattle.std.specs.Io.{StartsWith};
ghost use Rattle.np_text.specs.Word.{end_as_of, end_as_word, ending_of, ending_word, node_state_of, node_state_word, phase_of, phase_word, reason_kind_word, reason_text_of, request_state_of, request_state_word, role_kind_of, role_kind_word};

use crate::id::{LabelId, NodeId};
use crate::memory::Ample;
use crate::number::put_number;

/// Why a pool declines a request (Nodepool).
#[derive(Clone, Copy, Debug, PartialEq, Eq)]
pub enum Reason {
    /// The pool does not offer this label.
    NoLabel(LabelId),
    /// The labels together exceed a limit of the pool, however empty it is.
    NeverFits,
    /// The labels together exceed a limit of the job's tenant, however little its other jobs use.
    TenantNeverFits,
    /// This node of the request failed, and its launches are used up.
    Spent(NodeId),
}

/// The kinds of [`Reason`].
#[derive(Clone, Copy, Debug, PartialEq, Eq)]
pub enum ReasonKind {
    NoLabel,
    NeverFits,
    TenantNeverFits,
    Spent,
}

impl ReasonKind {
    /// The word of the kind.
    pub fn word(self) -> &'static str
        ensures { result.now ≡ reason_kind_word self }
    {
        match self {
            ReasonKind::NoLabel => "no-label",
            ReasonKind::NeverFits => "never-fits",
            ReasonKind::TenantNeverFits => "tenant-never-fits",
            ReasonKind::Spent => "spent",
        }
    }
}

fn put_kind(out: &mut Vec<u8>, kind: ReasonKind) -> Ample
    ensures ok { OnOk result (out.new.items ≡ out.old.items ++ reason_kind_word kind) }
    ensures err { OnErr result (StartsWith out.new.items out.old.items) }
{
    out.extend_from_slice(kind.word().as_bytes())?;
    Ok(())
}

fn put_numbered(out: &mut Vec<u8>, kind: ReasonKind, letter: &[u8], n: u64) -> Ample
    ensures ok { OnOk result (out.new.items ≡ out.old.items ++ (reason_kind_word kind ++ letter.now ++ decimal n)) }
    ensures err { OnErr result (StartsWith out.new.items out.old.items) }
{
    put_kind(out, kind)?;
    out.extend_from_slice(letter)?;
    put_number(out, n)
}

fn put_reason_parts(out: &mut Vec<u8>, reason: Reason) -> Ample
    ensures ok { OnOk result (out.new.items ≡ out.old.items ++ reason_text_of reason) }
    ensures err { OnErr result (StartsWith out.new.items out.old.items) }
{
    match reason {
        Reason::NoLabel(label) => put_numbered(out, ReasonKind::NoLabel, b"-l", u64::from(label.0)),
        Reason::NeverFits => put_kind(out, ReasonKind::NeverFits),
        Reason::TenantNeverFits => put_kind(out, ReasonKind::TenantNeverFits),
        Reason::Spent(node) => put_numbered(out, ReasonKind::Spent, b"-n", u64::from(node.0)),
    }
}

/// Appends a reason's text: its kind, and behind it the label or the node, as in `no-label-l0`.
pub fn put_reason(out: &mut Vec<u8>, reason: Reason) -> Ample
    ensures ok { OnOk result (out.new.items ≡ out.old.items ++ reason_text_of reason) }
    ensures err { OnErr result (out.new.items ≡ out.old.items) }
{
    let start = out.len();
    let put = put_reason_parts(out, reason);
    if put.is_err() {
        out.truncate(start);
    }
    put
}

/// The kinds of [`Role`](crate::Role) that a text names: all but the reaper.
#[derive(Clone, Copy, Debug, PartialEq, Eq)]
pub enum RoleKind {
    Launcher,
    Janitor,
    Requester,
}

impl RoleKind {
    /// Each of them once.
    pub const ALL: [RoleKind; 3] = [RoleKind::Launcher, RoleKind::Janitor, RoleKind::Requester];

    /// The word of the kind.
    pub fn word(self) -> &'static str
        ensures { result.now ≡ role_kind_word self }
    {
        match self {
            RoleKind::Launcher => "launcher",
            RoleKind::Janitor => "janitor",
            RoleKind::Requester => "requester",
        }
    }

    /// The kind of this word.
    pub fn from_word(text: &[u8]) -> Option<RoleKind>
        ensures { result ≡ role_kind_of text.now }
    {
        RoleKind::ALL
            .iter()
            .copied()
            .find(|kind| text == kind.word().as_bytes())
    }
}

/// How a job ended.
#[derive(Clone, Copy, Debug, PartialEq, Eq)]
pub enum Ending {
    Served,
    Lost,
    Failed,
    Withdrawn,
}

impl Ending {
    /// Each of them once.
    pub const ALL: [Ending; 4] = [
        Ending::Served,
        Ending::Lost,
        Ending::Failed,
        Ending::Withdrawn,
    ];

    /// The word of the ending.
    pub fn word(self) -> &'static str
        ensures { result.now ≡ ending_word self }
    {
        match self {
            Ending::Served => "served",
            Ending::Lost => "lost",
            Ending::Failed => "failed",
            Ending::Withdrawn => "withdrawn",
        }
    }

    /// The ending of this word.
    pub fn from_word(text: &[u8]) -> Option<Ending>
        ensures { result ≡ ending_of text.now }
    {
        Ending::ALL
            .iter()
            .copied()
            .find(|ending| text == ending.word().as_bytes())
    }
}

/// The state of a node request (Nodepool).
#[derive(Clone, Copy, Debug, PartialEq, Eq)]
pub enum RequestState {
    Requested,
    Pending,
    Fulfilled,
    Failed,
}

impl RequestState {
    /// Each of them once.
    pub const ALL: [RequestState; 4] = [
        RequestState::Requested,
        RequestState::Pending,
        RequestState::Fulfilled,
        RequestState::Failed,
    ];

    /// The word of the state.
    pub fn word(self) -> &'static str
        ensures { result.now ≡ request_state_word self }
    {
        match self {
            RequestState::Requested => "requested",
            RequestState::Pending => "pending",
            RequestState::Fulfilled => "fulfilled",
            RequestState::Failed => "failed",
        }
    }

    /// The state of this word.
    pub fn from_word(text: &[u8]) -> Option<RequestState>
        ensures { result ≡ request_state_of text.now }
    {
        RequestState::ALL
            .iter()
            .copied()
            .find(|state| text == state.word().as_bytes())
    }
}

/// The state of a node (Nodepool).
#[derive(Clone, Copy, Debug, PartialEq, Eq)]
pub enum NodeState {
    Building,
    Ready,
    InUse,
    Used,
    Hold,
    Deleting,
    Failed,
}

impl NodeState {
    /// Each of them once.
    pub const ALL: [NodeState; 7] = [
        NodeState::Building,
        NodeState::Ready,
        NodeState::InUse,
        NodeState::Used,
        NodeState::Hold,
        NodeState::Deleting,
        NodeState::Failed,
    ];

    /// The word of the state.
    pub fn word(self) -> &'static str
        ensures { result.now ≡ node_state_word self }
    {
        match self {
            NodeState::Building => "building",
            NodeState::Ready => "ready",
            NodeState::InUse => "in-use",
            NodeState::Used => "used",
            NodeState::Hold => "hold",
            NodeState::Deleting => "deleting",
            NodeState::Failed => "failed",
        }
    }

    /// The state of this word.
    pub fn from_word(text: &[u8]) -> Option<NodeState>
        ensures { result ≡ node_state_of text.now }
    {
        NodeState::ALL
            .iter()
            .copied()
            .find(|state| text == state.word().as_bytes())
    }
}

/// How far a job has come.
#[derive(Clone, Copy, Debug, PartialEq, Eq)]
pub enum Phase {
    New,
    Asked,
    Using,
    Over,
}

impl Phase {
    /// Each of them once.
    pub const ALL: [Phase; 4] = [Phase::New, Phase::Asked, Phase::Using, Phase::Over];

    /// The word of the phase.
    pub fn word(self) -> &'static str
        ensures { result.now ≡ phase_word self }
    {
        match self {
            Phase::New => "new",
            Phase::Asked => "asked",
            Phase::Using => "using",
            Phase::Over => "over",
        }
    }

    /// The phase of this word.
    pub fn from_word(text: &[u8]) -> Option<Phase>
        ensures { result ≡ phase_of text.now }
    {
        Phase::ALL
            .iter()
            .copied()
            .find(|phase| text == phase.word().as_bytes())
    }
}

/// What a requester leaves a node as.
#[derive(Clone, Copy, Debug, PartialEq, Eq)]
pub enum EndAs {
    Used,
    Hold,
}

impl EndAs {
    /// Each of them once.
    pub const ALL: [EndAs; 2] = [EndAs::Used, EndAs::Hold];

    /// The word of it, which is that of the node's state then.
    pub fn word(self) -> &'static str
        ensures { result.now ≡ end_as_word self }
    {
        match self {
            EndAs::Used => "used",
            EndAs::Hold => "hold",
        }
    }

    /// What this word leaves a node as.
    pub fn from_word(text: &[u8]) -> Option<EndAs>
        ensures { result ≡ end_as_of text.now }
    {
        EndAs::ALL
            .iter()
            .copied()
            .find(|end| text == end.word().as_bytes())
    }
}
