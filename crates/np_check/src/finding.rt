//! What there may be to find.

use np_text::{JobId, LabelId, PoolId, SemId, TenantId};

/// What will surprise the author of a configuration.
#[derive(Clone, Copy)]
pub enum Finding {
    /// No pool offers the label.
    LabelUnoffered(LabelId),
    /// Nodes of the label are made and removed again and again, since the first that is kept ready
    /// is past `max-ready-age` long before the last is made.
    ReadyNodesAge(LabelId),
    /// The pool offers no label of which its limits allow a node.
    PoolUnusable(PoolId),
    /// The pool offers the label, but its limits allow no node of it; they allow one of another.
    OfferTooLarge(PoolId, LabelId),
    /// No job takes the semaphore.
    SemaphoreUnnamed(SemId),
    /// No job is of the tenant.
    TenantUnnamed(TenantId),
    /// No pool offers all labels of the job.
    JobUnoffered(JobId),
    /// The nodes of the job together exceed a limit of each pool that offers all its labels.
    JobTooLarge(JobId),
    /// They exceed a limit of its tenant, in each pool whose own limits allow them.
    JobAboveTenant(JobId),
}
