//! The machine: tables, index and journal, beside a store.

ghost use Rattle.std.specs.Prelude.{◌≡◌, [], IfErr, IfOk, OnErr, OnOk};
ghost use Rattle.np_changes.specs.Prelude.{IsFitSite, start};
ghost use Rattle.np_rules.specs.Running.{ran_of, RunsOn, answer_after, applied_after, has_room_after};

mod look;

use crate::change::step;
use np_config::Config;
use np_decision::decide;
use np_event::{Entry, Event, Refusal, Reply};
use np_index::Index;
use np_look::{Rows, Store};
use np_tables::Tables;
use np_text::{JOURNAL_ENTRIES, NoMemory};
use std::alloc::Global;
use std::marker::Model;

/// The state of a machine with its index, the journal that led to it, and a store that has it. The
/// journal goes on from a state that earlier entries led to; it need not have them.
#[derive(Drop)]
pub struct Machine<S: Store + Drop> {
    alloc: Global,
    tables: Tables,
    index: Index,
    earlier: u32,
    journal: Vec<Entry>,
    store: S,
}

/// Memory ran out before the machine was made. The store is the one that it would have had.
#[derive(Drop)]
pub struct NotMade<S: Drop> {
    pub store: S,
}

impl<S: Store + Drop> Model for Machine<S> {
    ghost use Rattle.np_rules.specs.Running.{IsKept, Running};

    ghost Value = { Running S };

    ghost view = { λ m. record {
      configuration = m.tables.configuration;
      earlier = m.earlier;
      journal = m.journal.items;
      state = m.tables.state;
      store = m.store;
    } };

    ghost invariant = { λ m. IsKept S.holds (record {
      configuration = m.tables.configuration;
      earlier = m.earlier;
      journal = m.journal.items;
      state = m.tables.state;
      store = m.store;
    }) m.index };
}

impl<S: Store + Drop> Machine<S> {
    /// The machine before the first event, whose state the store has.
    pub fn begin(alloc: Global, config: Config, store: S) -> Result<Machine<S>, NoMemory>
        requires { S.holds store config (start config) }
        ensures { IfOk result (λ m. m ≡ record {
          configuration = config;
          earlier = 0;
          journal = [];
          state = start config;
          store = store;
        }) }
    {
        let tables = Tables::start(alloc, config)?;
        match Machine::of_tables(alloc, tables, 0, store) {
            Ok(machine) => Ok(machine),
            Err(_) => Err(NoMemory),
        }
    }

    /// The machine in a state that a run of so many earlier entries leads to, and that the store has.
    /// Its journal is empty. If memory runs out, the store comes back. It costs what
    /// `Index::rebuild` does.
    pub fn of_tables(
        alloc: Global,
        tables: Tables,
        earlier: u32,
        store: S,
    ) -> Result<Machine<S>, NotMade<S>>
        requires runs { RunsOn tables.configuration earlier [] tables.state }
        requires held { S.holds store tables.configuration tables.state }
        ensures ok { IfOk result (λ m. m ≡ record {
          configuration = tables.configuration;
          earlier = earlier;
          journal = [];
          state = tables.state;
          store = store;
        }) }
        ensures err { IfErr result (λ not_made. not_made.store ≡ store) }
    {
        tables.config().know_soundness();
        match Index::rebuild(alloc, &tables) {
            Ok(index) => Ok(Machine {
                alloc,
                tables,
                index,
                earlier,
                journal: Vec::new(alloc),
                store,
            }),
            Err(_) => Err(NotMade { store }),
        }
    }

    /// The earlier entries and the journal lead to the state, and the configuration leaves room for
    /// every run. The call does nothing: a caller's proof takes the facts from it.
    pub fn know_soundness(&self)
        ensures site { IsFitSite self.now.configuration }
        ensures runs { RunsOn self.now.configuration self.now.earlier self.now.journal self.now.state }
    {
        let _journal = &self.journal;
    }

    /// The store, which has the state.
    pub fn store(&self) -> &S
        ensures same { result.now ≡ self.now.store }
        ensures held { S.holds result.now self.now.configuration self.now.state }
    {
        &self.store
    }

    /// The configuration and the store, which has the state. The state itself and the journal are let
    /// go.
    pub fn into_parts(self) -> (Config, S)
        ensures configuration { result.0 ≡ self.configuration }
        ensures store { result.1 ≡ self.store }
        ensures held { S.holds self.store self.configuration self.state }
    {
        let Machine { tables, store, .. } = self;
        (tables.into_config(), store)
    }

    /// How many entries led to the state from which the journal goes on: 0 for a machine that began
    /// before the first event.
    pub fn earlier(&self) -> u32
        ensures { result ≡ self.now.earlier }
    {
        self.earlier
    }

    /// What was recorded after the earlier entries, the first entry first.
    pub fn journal(&self) -> &[Entry]
        ensures { result.now ≡ self.now.journal }
    {
        self.journal.as_slice()
    }

    /// Whether one more entry may be recorded: the earlier entries and the journal are not full.
    fn has_room(&self) -> bool
        ensures { result ≡ has_room_after self.now.earlier (ran_of self.now) }
    {
        self.earlier as usize + self.journal.len() < JOURNAL_ENTRIES
    }

    /// The reply to the event: `Full` if there is no room for one more entry. It takes no memory. A
    /// session, a job or a role is found by its place, a request, a node or a handle by binary search,
    /// and what asks of many rows by the index.
    pub fn judge(&self, event: Event) -> Reply
        ensures { result ≡ answer_after self.now.earlier (ran_of self.now) event }
    {
        self.know_soundness();
        if !self.has_room() {
            return Reply::Refused(Refusal::Full);
        }
        match decide(self, event) {
            Err(refusal) => Reply::Refused(refusal),
            Ok(verdict) => Reply::Done(verdict.done),
        }
    }

    /// The event happens: its reply is recorded with it, and the state is the one after it. If the
    /// reply is `Full`, or memory runs out, the state and the journal stay. It costs what `judge`
    /// does, and what the store, the tables and the index take for the rows that change.
    pub fn apply(&mut self, event: Event) -> Result<Reply, NoMemory>
        ensures reply { IfOk result
            (λ r. r ≡ answer_after self.old.earlier (ran_of self.old) event) }
        ensures ok { OnOk result
            (ran_of self.new ≡ applied_after self.old.earlier (ran_of self.old) event) }
        ensures err { OnErr result (ran_of self.new ≡ ran_of self.old) }
        ensures earlier { self.new.earlier ≡ self.old.earlier }
        ensures later { S.later self.old.store self.new.store }
        ensures runs { RunsOn self.new.configuration self.new.earlier self.new.journal
            self.new.state }
    {
        self.know_soundness();
        if !self.has_room() {
            return Ok(Reply::Refused(Refusal::Full));
        }
        let decided = decide(self, event);
        self.journal.reserve(1)?;
        let Machine {
            tables,
            index,
            store,
            ..
        } = self;
        let reply = step(self.alloc, tables, index, store, event, decided)?;
        self.journal.push_reserved(Entry { event, reply });
        Ok(reply)
    }
}
