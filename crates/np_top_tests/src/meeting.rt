//! Launches of two pools side by side.

use np_cloud::Gate;
use np_text::PoolId;
use std::sync::atomic::{AtomicU64, Ordering};

/// How often a launch looks for one of another pool.
const LOOKS: u64 = 20_000_000;

/// A gate that, where launches are to meet, holds each one until one of another pool waits there,
/// too. The first such meeting opens it for good. Workers that play one after another never meet.
#[derive(Drop)]
pub struct Meeting {
    holds: bool,
    /// By pool, 1 where a launch waits at the gate.
    waiting: [AtomicU64; 4],
    /// 1 where launches of two pools have met.
    met: AtomicU64,
}

impl Meeting {
    pub fn new(holds: bool) -> Meeting {
        Meeting {
            holds,
            waiting: [
                AtomicU64::new(0),
                AtomicU64::new(0),
                AtomicU64::new(0),
                AtomicU64::new(0),
            ],
            met: AtomicU64::new(0),
        }
    }

    /// Whether launches have met, if they are to.
    pub fn is_over(&self) -> bool {
        !self.holds || self.met.load(Ordering::SeqCst) == 1
    }

    /// Whether a launch of another pool waits.
    fn has_other(&self, pool: PoolId) -> bool {
        for at in 0..4 {
            if at != usize::from(pool.0) && self.waiting[at].load(Ordering::SeqCst) > 0 {
                return true;
            }
        }
        false
    }

    /// Whether a launch of the pool need not wait any more.
    fn may_pass(&self, pool: PoolId) -> bool {
        if self.has_other(pool) {
            self.met.store(1, Ordering::SeqCst);
        }
        self.met.load(Ordering::SeqCst) == 1
    }
}

impl Gate for Meeting {
    fn pass(&self, pool: PoolId) {
        let Some(own) = self.waiting.get(usize::from(pool.0)) else {
            return;
        };
        if !self.holds {
            return;
        }
        own.store(1, Ordering::SeqCst);
        for _ in 0..LOOKS {
            if self.may_pass(pool) {
                return;
            }
        }
        own.store(0, Ordering::SeqCst);
    }
}
