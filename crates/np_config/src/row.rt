//! The rows of the configuration's tables.

ghost use Rattle.std.specs.Prelude.{◌≡◌};
ghost use Rattle.np_config.specs.Word.{fault_kind_of, fault_kind_word};

use np_amount::{Amount, Limit};
use np_lists::Items;
use np_text::{EndAs, LabelId, RequesterId, Role, SemId, TenantId};

/// The bytes of a name.
pub type Name = Items<u8>;
/// What a pool offers.
pub type OfferList = Items<Offer>;
/// Numbers of starts.
pub type NumberList = Items<u32>;
/// The labels that a job requests.
pub type LabelList = Items<LabelId>;
/// The semaphores that a job takes.
pub type SemList = Items<SemId>;

/// A label: a kind of node that jobs ask for (Nodepool).
#[derive(Drop)]
pub struct Label {
    pub name: Name,
    /// How many free ready nodes are kept, 0 to 1,000.
    pub min_ready: u32,
    /// After how many ticks an unused ready node is removed, 0 to 1,000,000; 0 is never.
    pub max_ready_age: u32,
}

/// A provider of nodes (Nodepool).
#[derive(Drop)]
pub struct Provider {
    pub name: Name,
    /// The total number of attempts to launch a node, 1 to 16.
    pub retries: u8,
    /// How many requests its launchers may work on at the same time, 1 to 4,096; `None` is no limit.
    pub concurrency: Option<u32>,
}

/// A label that a pool offers, and what a node of it takes.
#[derive(Clone, Copy, PartialEq, Eq)]
pub struct Offer {
    pub label: LabelId,
    /// One instance, 0 to 1,000 cores, and 0 to 1,000,000 MiB of ram.
    pub amount: Amount,
}

/// A pool of a provider (Nodepool).
#[derive(Drop)]
pub struct Pool {
    /// The place of its provider.
    pub provider: u16,
    pub name: Name,
    pub limit: Limit,
    pub offers: OfferList,
    /// Which starts of the pool fail in the simulated cloud, rising, from 1.
    pub fail_starts: NumberList,
}

/// A semaphore (Zuul).
#[derive(Drop)]
pub struct Sem {
    pub name: Name,
    /// How many jobs may have a handle at the same time, 1 to 4,096.
    pub max: u32,
}

/// A tenant, to which jobs belong (Zuul).
#[derive(Drop)]
pub struct Tenant {
    pub name: Name,
    /// What the nodes of its jobs may take, in the ranges of a pool's limits.
    pub limit: Limit,
}

/// A requester of nodes.
#[derive(Drop)]
pub struct Requester {
    pub name: Name,
    /// How many of its jobs are worked on at the same time, 1 to 4,096.
    pub window: u32,
}

/// A job of a requester.
#[derive(Drop)]
pub struct Job {
    pub requester: RequesterId,
    pub name: Name,
    /// 1 to 32 labels, repeats allowed.
    pub labels: LabelList,
    /// 100 high, 200 normal, 300 low.
    pub priority: u16,
    /// 0 to 1,000,000; lower goes first.
    pub relative_priority: u32,
    /// At most 8 semaphores, no repeats.
    pub semaphores: SemList,
    /// Whether the nodes are requested before the semaphores are taken (Zuul's `resources-first`).
    pub resources_first: bool,
    /// The state in which its nodes are left.
    pub end: EndAs,
    /// 0 is the tenant `default`, and those of the configuration count from 1.
    pub tenant: TenantId,
}

/// What happens to a session when its fault is due.
#[derive(Clone, Copy, PartialEq, Eq)]
pub enum FaultKind {
    /// Its session expires.
    Expire,
    /// It stops, its session expires, and the role continues with a new one.
    Crash,
    /// It stops for good.
    Stop,
}

impl FaultKind {
    /// Each of them once.
    pub const ALL: [FaultKind; 3] = [FaultKind::Expire, FaultKind::Crash, FaultKind::Stop];

    /// The word of the kind.
    pub fn word(self) -> &'static str
        ensures { result.now ≡ fault_kind_word self }
    {
        match self {
            FaultKind::Expire => "expire",
            FaultKind::Crash => "crash",
            FaultKind::Stop => "stop",
        }
    }

    /// The kind of this word.
    pub fn from_word(text: &[u8]) -> Option<FaultKind>
        ensures { result ≡ fault_kind_of text.now }
    {
        FaultKind::ALL
            .iter()
            .copied()
            .find(|kind| text == kind.word().as_bytes())
    }
}

/// A planned fault of a role.
#[derive(Clone, Copy, PartialEq, Eq)]
pub struct Fault {
    /// A launcher, a janitor or a requester.
    pub role: Role,
    pub kind: FaultKind,
    /// After how many acts of the role it is due, 0 to 262,144.
    pub after: u32,
}
