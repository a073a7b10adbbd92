//! The outstanding plan of each pool.

ghost use Rattle.std.specs.Prelude.{◌≡◌, IfOk, None, length, replicate};
ghost use Rattle.std.specs.Option.{option_copied};
ghost use Rattle.np_board.specs.Outstanding.{plan_of, with_plan};

use crate::board::plan::Watched;
use np_text::{NoMemory, PoolId};
use std::alloc::Global;
use std::marker::Model;

/// A place for a plan for each pool. Contracts see the plans in the order of the pools.
#[derive(Drop)]
pub(crate) struct Plans {
    places: Vec<Option<Watched>>,
}

impl Model for Plans {
    ghost use Rattle.std.specs.Prelude.{List, Option};
    ghost use Rattle.np_board.specs.Outstanding.{Outstanding};

    ghost Value = { List (Option Outstanding) };

    ghost view = { λ plans. plans.places.items };
}

impl Plans {
    /// No plan of any of so many pools.
    pub(crate) fn none(alloc: Global, pools: usize) -> Result<Plans, NoMemory>
        ensures { IfOk result (λ plans. plans ≡ replicate pools None) }
    {
        let mut places = Vec::new(alloc);
        for _ in 0..pools {
            places.push(None)?;
        }
        Ok(Plans { places })
    }

    /// The pool's plan.
    pub(crate) fn find(&self, pool: PoolId) -> Option<&Watched>
        ensures { option_copied result ≡ plan_of pool self.now }
    {
        match self.places.get(pool.0 as usize) {
            None => None,
            Some(place) => place.as_ref(),
        }
    }

    /// The pool's plan is now this, or none. A pool without a place gets none.
    pub(crate) fn put(&mut self, pool: PoolId, plan: Option<Watched>)
        ensures { self.new ≡ with_plan pool plan self.old }
    {
        let at = pool.0 as usize;
        if at >= self.places.len() {
            return;
        }
        let place = &mut self.places[at];
        *place = plan;
    }

    /// Takes the pool's plan out.
    pub(crate) fn take(&mut self, pool: PoolId) -> Option<Watched>
        ensures plan { result ≡ plan_of pool self.old }
        ensures rest { self.new ≡ with_plan pool None self.old }
    {
        let at = pool.0 as usize;
        if at >= self.places.len() {
            return None;
        }
        let place = &mut self.places[at];
        place.take()
    }
}
