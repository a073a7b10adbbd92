//! Ids: numbers in types of their own, compared and ordered as their numbers.

/// A session's number. Sessions count from 1; in text `s1`.
#[derive(Clone, Copy, Debug, PartialEq, Eq, PartialOrd, Ord)]
pub struct SessionId(pub u32);

/// A pool's place among the pools of all providers, in the order of the configuration, from 0; in
/// text `p0`.
#[derive(Clone, Copy, Debug, PartialEq, Eq, PartialOrd, Ord)]
pub struct PoolId(pub u16);

/// A label's place in the configuration, from 0; in text `l0`.
#[derive(Clone, Copy, Debug, PartialEq, Eq, PartialOrd, Ord)]
pub struct LabelId(pub u16);

/// A semaphore's place in the configuration, from 0; in text `x0`.
#[derive(Clone, Copy, Debug, PartialEq, Eq, PartialOrd, Ord)]
pub struct SemId(pub u16);

/// A tenant's number: 0 is the tenant `default`, and those of the configuration count from 1, in
/// its order.
#[derive(Clone, Copy, Debug, PartialEq, Eq, PartialOrd, Ord)]
pub struct TenantId(pub u16);

/// A requester's place in the configuration, from 0; in text `q0`.
#[derive(Clone, Copy, Debug, PartialEq, Eq, PartialOrd, Ord)]
pub struct RequesterId(pub u16);

/// A job's place among the jobs of all requesters, in the order of the configuration, from 0; in
/// text `j0`.
#[derive(Clone, Copy, Debug, PartialEq, Eq, PartialOrd, Ord)]
pub struct JobId(pub u32);

/// A node record's number, from 0; in text `n0`.
#[derive(Clone, Copy, Debug, PartialEq, Eq, PartialOrd, Ord)]
pub struct NodeId(pub u32);

/// A node request: its priority (100 to 999 if it has a text) and its sequence number, as in
/// `200-0000000000`. Ordered by priority and then sequence, which is the byte order of the texts.
#[derive(Clone, Copy, Debug, PartialEq, Eq, PartialOrd, Ord)]
pub struct RequestId {
    pub priority: u16,
    pub seq: u32,
}

/// What a session acts as.
#[derive(Clone, Copy, Debug, PartialEq, Eq)]
pub enum Role {
    /// The launcher of a provider's pool (Nodepool).
    Launcher(PoolId),
    /// The cleanup worker of a provider's pool (Nodepool).
    Janitor(PoolId),
    /// Who asks for nodes (Zuul).
    Requester(RequesterId),
    /// What ends sessions whose fault is due. It has no session itself.
    Reaper,
}
