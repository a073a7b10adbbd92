//! Reading requesters and their jobs.

ghost use Rattle.std.specs.Prelude.{◌≡◌, ◌==◌, ◌+◌, ◌<◌, ℕ, List, Option, false, IfOk, length};
ghost use Rattle.std.specs.List.{list_any};
ghost use Rattle.serde_json.specs.View.{view};
ghost use Rattle.np_config_read.specs.Lower.{Gives, end_as_of, fault, pointer_to};
ghost use Rattle.np_config_read.specs.Requesters.{wanted_at, taken_at, semaphore_for, priority_of, meaning_of, word_value, word_or, wants_at, takes_at, demand_at, job_row, job_at, jobs_at, requester_row, requester_at};

use crate::labels::{Known, Labels};
use crate::providers::label_of;
use crate::tenants::tenant_of;
use np_config::{Job, LabelList, Name, Requester, SemList};
use np_json::{
    ConfigKind, Length, Marked, NamedRow, Place, Reading, Rows, Table, fault_in, flag, named_row,
    rows_maybe, rows_required, text_of, whole,
};
use np_lists::Items;
use np_text::{
    EndAs, JOB_LABELS, JOB_SEMAPHORES, JOBS, RELATIVE_PRIORITY, RequesterId, SemId, WINDOW,
};
use serde_json::Value;
use std::alloc::Global;

impl Rows<Labels> for LabelList {
    ghost reads = { λ labels at earlier d. wanted_at labels.table at earlier d };

    ghost count = { length };

    #[tactic(auto, using(np_json::proofs::Binds::exits), unfolding(crate::specs::Requesters::wanted_at))]
    fn read(
        &mut self,
        alloc: Global,
        labels: &Labels,
        place: Place<'_>,
        value: &Value,
    ) -> Reading<()> {
        let label = label_of(alloc, labels, place, value)?;
        self.push(label)?;
        Ok(())
    }
}

#[tactic(auto, unfolding(crate::specs::Requesters::semaphore_for))]
fn semaphore_for(alloc: Global, known: &Known, place: Place<'_>, text: &[u8]) -> Reading<SemId>
    ensures { Gives (λ s. s) result
        (semaphore_for known.now.semaphores (pointer_to place.entry) text.now) }
{
    let Some(at) = known.semaphores.place(text) else {
        return Err(fault_in(alloc, ConfigKind::UnknownName, place));
    };
    Ok(SemId(at))
}

impl Rows<Known> for Marked<SemId> {
    ghost reads = { λ known at earlier d. taken_at known.semaphores at earlier d };

    ghost count = { length };

    #[tactic(auto, using(np_json::proofs::Binds::exits), unfolding(crate::specs::Requesters::taken_at))]
    fn read(
        &mut self,
        alloc: Global,
        known: &Known,
        place: Place<'_>,
        value: &Value,
    ) -> Reading<()> {
        let text = text_of(alloc, place, value)?;
        let semaphore = semaphore_for(alloc, known, place, text.as_bytes())?;
        if self.has(semaphore.0) {
            return Err(fault_in(alloc, ConfigKind::Repeated, place));
        }
        self.push(semaphore)?;
        Ok(())
    }
}

fn priority_of(word: &str) -> Option<u16>
    ensures { result ≡ priority_of word.now }
{
    if word == "high" {
        Some(100)
    } else if word == "normal" {
        Some(200)
    } else if word == "low" {
        Some(300)
    } else {
        None
    }
}

/// What a word means, if it means something.
pub(crate) fn meaning<T: Drop>(alloc: Global, place: Place<'_>, told: Option<T>) -> Reading<T>
    ensures { Gives (λ t. t) result (found told (fault UnknownName (pointer_to place.entry))) }
{
    let Some(told) = told else {
        return Err(fault_in(alloc, ConfigKind::UnknownName, place));
    };
    Ok(told)
}

ghost use Rattle.np_config_read.specs.Lower.{UnknownName, found};

#[tactic(auto, using(np_json::proofs::Binds::exits), unfolding(crate::specs::Requesters::word_value))]
fn priority_word(alloc: Global, place: Place<'_>, value: &Value) -> Reading<u16>
    ensures { Gives (λ p. p) result
        (word_value priority_of (pointer_to place.entry) (view value.now)) }
{
    let word = text_of(alloc, place, value)?;
    meaning(alloc, place, priority_of(word))
}

fn priority(alloc: Global, at: &[u8], value: &Value) -> Reading<u16>
    ensures { Gives (λ p. p) result
        (word_or priority_of at.now (codes "priority") 200 (view value.now)) }
{
    let Some(member) = value.get("priority") else {
        return Ok(200);
    };
    priority_word(alloc, Place::Member(at, "priority"), member)
}

#[tactic(auto, using(np_json::proofs::Binds::exits), unfolding(crate::specs::Requesters::word_value))]
fn end_word(alloc: Global, place: Place<'_>, value: &Value) -> Reading<EndAs>
    ensures { Gives (λ e. e) result
        (word_value end_as_of (pointer_to place.entry) (view value.now)) }
{
    let word = text_of(alloc, place, value)?;
    meaning(alloc, place, EndAs::from_word(word.as_bytes()))
}

ghost use Rattle.np_config_read.specs.Lower.{Used};

fn end_as(alloc: Global, at: &[u8], value: &Value) -> Reading<EndAs>
    ensures { Gives (λ e. e) result
        (word_or end_as_of at.now (codes "end") Used (view value.now)) }
{
    let Some(member) = value.get("end") else {
        return Ok(EndAs::Used);
    };
    end_word(alloc, Place::Member(at, "end"), member)
}

ghost use Rattle.std.specs.Prelude.{codes};

#[tactic(auto, unfolding(crate::specs::Requesters::wants_at))]
fn wants_of(alloc: Global, labels: &Labels, at: &[u8], value: &Value) -> Reading<LabelList>
    ensures { Gives (λ w. w) result (wants_at labels.now.table at.now (view value.now)) }
{
    let length = Length::one_to(JOB_LABELS);
    let none = LabelList::none(alloc);
    rows_required(alloc, labels, at, "labels", length, value, none)
}

#[tactic(auto, unfolding(crate::specs::Requesters::takes_at))]
fn takes_of(alloc: Global, known: &Known, at: &[u8], value: &Value) -> Reading<SemList>
    ensures { Gives (λ t. t) result (takes_at known.now.semaphores at.now (view value.now)) }
{
    let length = Length::at_most(JOB_SEMAPHORES);
    let none = Marked::<SemId>::new(alloc);
    let taken = rows_maybe(alloc, known, at, "semaphores", length, value, none)?;
    Ok(SemList::new(taken.into_rows()))
}

/// What a job requests, and when.
#[derive(Drop)]
pub(crate) struct Demand {
    pub labels: LabelList,
    pub priority: u16,
    pub relative_priority: u32,
}

#[tactic(auto, using(np_json::proofs::Binds::exits), unfolding(crate::specs::Requesters::demand_at))]
fn demand_of(alloc: Global, labels: &Labels, at: &[u8], value: &Value) -> Reading<Demand>
    ensures { Gives (λ d. d) result (demand_at labels.now.table at.now (view value.now)) }
{
    let labels = wants_of(alloc, labels, at, value)?;
    let priority = priority(alloc, at, value)?;
    let relative_priority = whole(
        alloc,
        at,
        "relative-priority",
        0,
        RELATIVE_PRIORITY,
        0,
        value,
    )?;
    Ok(Demand {
        labels,
        priority,
        relative_priority,
    })
}

#[tactic(auto, using(np_json::proofs::Binds::exits), unfolding(crate::specs::Requesters::job_row))]
fn job_row(
    alloc: Global,
    known: &Known,
    at: &[u8],
    requester: RequesterId,
    name: Name,
    demand: Demand,
    value: &Value,
) -> Reading<Job>
    ensures gives { Gives (λ j. j) result
        (job_row known.now.semaphores known.now.tenants at.now requester name demand
        (view value.now)) }
    ensures name { IfOk result (λ j. j.name ≡ name) }
{
    let semaphores = takes_of(alloc, known, at, value)?;
    let resources_first = flag(alloc, at, "resources-first", false, value)?;
    let end = end_as(alloc, at, value)?;
    let tenant = tenant_of(alloc, known, at, value)?;
    Ok(Job {
        requester,
        name,
        labels: demand.labels,
        priority: demand.priority,
        relative_priority: demand.relative_priority,
        semaphores,
        resources_first,
        end,
        tenant,
    })
}

/// The jobs of the requester at a place that were read so far.
#[derive(Drop)]
pub(crate) struct JobsOf {
    pub requester: RequesterId,
    pub jobs: Table<Job>,
}

impl Rows<Known> for JobsOf {
    ghost reads = { λ known at s d.
        job_at known.labels.table known.semaphores known.tenants at s d };

    ghost count = { λ s. length s.jobs };

    #[tactic(auto, using(np_json::proofs::Binds::exits), unfolding(crate::specs::Requesters::job_at))]
    fn read(
        &mut self,
        alloc: Global,
        known: &Known,
        place: Place<'_>,
        value: &Value,
    ) -> Reading<()> {
        let keys = [
            "name",
            "labels",
            "priority",
            "relative-priority",
            "semaphores",
            "resources-first",
            "end",
            "tenant",
        ];
        let NamedRow { at, name } = named_row(alloc, place, &keys, &self.jobs, value)?;
        let at = at.as_slice();
        let demand = demand_of(alloc, &known.labels, at, value)?;
        let job = job_row(alloc, known, at, self.requester, name, demand, value)?;
        self.jobs.push(alloc, job)?;
        Ok(())
    }
}

#[tactic(auto, unfolding(crate::specs::Requesters::jobs_at))]
fn jobs_of(
    alloc: Global,
    known: &Known,
    at: &[u8],
    earlier: usize,
    requester: RequesterId,
    value: &Value,
) -> Reading<JobsOf>
    ensures { Gives (λ own. own) result
        (jobs_at known.now.labels.table known.now.semaphores known.now.tenants at.now
        earlier requester (view value.now)) }
{
    let length = Length::at_most(JOBS).behind(earlier);
    let jobs = Table::new(alloc);
    let none = JobsOf { requester, jobs };
    rows_maybe(alloc, known, at, "jobs", length, value, none)
}

/// The requesters that were read so far, with the jobs of all of them.
#[derive(Drop)]
pub(crate) struct Requesters {
    pub requesters: Table<Requester>,
    pub jobs: Items<Job>,
}

#[tactic(auto, using(np_json::proofs::Binds::exits), unfolding(crate::specs::Requesters::requester_row))]
fn requester_row(alloc: Global, at: &[u8], name: Name, value: &Value) -> Reading<Requester>
    ensures gives { Gives (λ q. q) result (requester_row at.now name (view value.now)) }
    ensures name { IfOk result (λ q. q.name ≡ name) }
{
    let window = whole(alloc, at, "window", 1, WINDOW, 20, value)?;
    Ok(Requester { name, window })
}

impl Rows<Known> for Requesters {
    ghost reads = { λ known at s d.
        requester_at known.labels.table known.semaphores known.tenants at s d };

    ghost count = { λ s. length s.requesters };

    #[tactic(auto, using(np_json::proofs::Binds::exits), unfolding(crate::specs::Requesters::requester_at))]
    fn read(
        &mut self,
        alloc: Global,
        known: &Known,
        place: Place<'_>,
        value: &Value,
    ) -> Reading<()> {
        let keys = ["name", "window", "jobs"];
        let NamedRow { at, name } = named_row(alloc, place, &keys, &self.requesters, value)?;
        let at = at.as_slice();
        let requester = requester_row(alloc, at, name, value)?;
        let earlier = self.jobs.items().len();
        let place = RequesterId(self.requesters.len() as u16);
        let own = jobs_of(alloc, known, at, earlier, place, value)?;
        self.requesters.push(alloc, requester)?;
        self.jobs.append(own.jobs.into_rows())?;
        Ok(())
    }
}
