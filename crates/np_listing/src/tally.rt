//! Counting what a run takes.

ghost use Rattle.std.specs.Prelude.{◌≡◌, ◌++◌, ◌∷◌, [], List, IfOk};
ghost use Rattle.np_listing.specs.Lower.{Entry, Fits, Runs};
ghost use Rattle.np_listing.specs.Summary.{noted, summary_of, text_of};
ghost use Rattle.np_listing.specs.Tally.{counted};

use crate::fates::put_fates;
use crate::kinds::{is_failed, is_launched, is_refused};
use crate::lines::{put_events, put_launches, put_ticks};
use crate::notes::{note_all, one_more};
use crate::row::put_each;
use crate::rows::{
    FullTime, KindCount, PoolPeak, TenantPeak, no_events, no_pools, no_tenants, no_times,
};
use np_config::Config;
use np_event::Entry;
use np_look::{Look, Rows};
use np_text::NoMemory;
use std::alloc::Global;
use std::marker::Model;

/// What a run took so far.
#[derive(Drop)]
pub struct Tally {
    /// How many events of each kind were accepted.
    kinds: Vec<KindCount>,
    refused: u32,
    launched: u32,
    failed: u32,
    /// What each pool used at most.
    pools: Vec<PoolPeak>,
    /// What each tenant used at most, the tenant `default` first.
    tenants: Vec<TenantPeak>,
    semaphores: Vec<FullTime>,
}

impl Model for Tally {
    ghost use Rattle.np_listing.specs.Tally.{Counted};

    ghost Value = { Counted };

    ghost view = { λ t. record {
      kinds = t.kinds.items;
      refused = t.refused;
      launched = t.launched;
      failed = t.failed;
      pools = t.pools.items;
      tenants = t.tenants.items;
      semaphores = t.semaphores.items;
    } };
}

impl Tally {
    /// What a run without entries took. It fails only if memory runs out.
    pub fn new(alloc: Global, config: &Config) -> Result<Tally, NoMemory>
        ensures { IfOk result (λ tally. tally ≡ counted config.now []) }
    {
        Ok(Tally {
            kinds: no_events(alloc)?,
            refused: 0,
            launched: 0,
            failed: 0,
            pools: no_pools(alloc, config)?,
            tenants: no_tenants(alloc, config)?,
            semaphores: no_times(alloc, config)?,
        })
    }

    /// Takes in an entry, in the state after it. It takes no memory; the time grows with the number
    /// of pools, tenants and semaphores.
    pub fn note<L: Look>(&mut self, look: &L, entry: &Entry)
        requires { Fits (L.site look.now) (L.state look.now) }
        ensures { (journal : List Entry) →
            Runs (L.site look.now) (journal ++ entry.now ∷ []) (L.state look.now) →
            self.old ≡ counted (L.site look.now) journal →
            self.new ≡ counted (L.site look.now) (journal ++ entry.now ∷ []) }
    {
        self.take_in(look, entry);
    }

    fn take_in<L: Look>(&mut self, look: &L, entry: &Entry)
        requires { Fits (L.site look.now) (L.state look.now) }
        ensures { self.new ≡ noted (L.site look.now) (L.state look.now) entry.now self.old }
    {
        note_all(&mut self.kinds, look, entry);
        self.refused = one_more(self.refused, is_refused(entry));
        self.launched = one_more(self.launched, is_launched(entry));
        self.failed = one_more(self.failed, is_failed(entry));
        note_all(&mut self.pools, look, entry);
        note_all(&mut self.tenants, look, entry);
        note_all(&mut self.semaphores, look, entry);
    }

    /// Appends what was counted in the state at the end.
    #[tactic(auto, unfolding(crate::specs::Summary::text_of))]
    fn text<R: Rows>(&self, alloc: Global, rows: &R) -> Result<Vec<u8>, NoMemory>
        ensures { IfOk result (λ text. text.items
            ≡ text_of (R.site rows.now) (R.state rows.now) self.now) }
    {
        let config = rows.config();
        let mut out = Vec::new(alloc);
        put_fates(&mut out, rows)?;
        put_ticks(&mut out, rows.tick())?;
        put_events(&mut out, config, self.kinds.as_slice(), self.refused)?;
        put_launches(&mut out, self.launched, self.failed)?;
        put_each(&mut out, config, b"", self.pools.as_slice())?;
        put_each(&mut out, config, b"", self.tenants.as_slice())?;
        put_each(&mut out, config, b"", self.semaphores.as_slice())?;
        Ok(out)
    }

    /// What was counted, a line each: jobs by what became of them, ticks, events by kind, launches,
    /// the most that each pool and each tenant used beside its limits, and for how many ticks each
    /// semaphore was full at most. The rows are those at the end. It fails only if memory runs out.
    pub fn summary<R: Rows>(&self, alloc: Global, rows: &R) -> Result<Vec<u8>, NoMemory>
        ensures { IfOk result (λ text. (journal : List Entry) →
            Runs (R.site rows.now) journal (R.state rows.now) →
            self.now ≡ counted (R.site rows.now) journal →
            text.items ≡ summary_of (R.site rows.now) journal) }
    {
        let text = self.text(alloc, rows)?;
        Ok(text)
    }
}
