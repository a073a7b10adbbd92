//! The walk from the jobs that wait down to what they wait for.

ghost use Rattle.std.specs.Prelude.{◌≡◌, ◌⊎◌, ◌∷◌, ◌++◌, [], IfOk, IfSome, OnOk, Some, None, slice_get, true};
ghost use Rattle.np_explain_lines.specs.Lower.{Fits, JobId, Thing, named_by, waits};
ghost use Rattle.np_causes.specs.declared.fact.Thing.TheVariants as thing;
ghost use Rattle.np_explain_lines.specs.Chains.{ExplainsAll, IsOnItsWay, IsPending, IsWaiting, Names, facts_of};

use crate::chain::{Link, Next};
use crate::told::Places;
use np_causes::{Fact, Place, Thing, fact_of, named, waits};
use np_look::{Look, Rows};
use np_text::{Ample, JobId, NoMemory};
use std::alloc::Global;

/// Adds the job, if it waits.
fn push_waiting<R: Rows>(rows: &R, job: JobId, pending: &mut Vec<Next>) -> Ample
    ensures stay { OnOk result ((it : Thing) → IsPending pending.old.items it
        → IsPending pending.new.items it) }
    ensures told { OnOk result (waits (R.state rows.now) job ≡ true
        → IsPending pending.new.items (thing.Job job)) }
    ensures alone { OnOk result ((it : Thing) → IsPending pending.new.items it
        → IsPending pending.old.items it ⊎ IsWaiting (R.state rows.now) it) }
{
    if !waits(rows, job) {
        return Ok(());
    }
    let thing = Thing::Job(job);
    pending.push(Next { thing, depth: 0 })?;
    Ok(())
}

/// The jobs that wait, the last first.
fn waiting_jobs<R: Rows>(alloc: Global, rows: &R) -> Result<Vec<Next>, NoMemory>
    ensures all { IfOk result (λ pending. (j : JobId) → waits (R.state rows.now) j ≡ true
        → IsPending pending.items (thing.Job j)) }
    ensures alone { IfOk result (λ pending. (it : Thing) → IsPending pending.items it
        → IsWaiting (R.state rows.now) it) }
{
    let mut pending = Vec::new(alloc);
    let mut left = rows.jobs();
    while left > 0 {
        left -= 1;
        push_waiting(rows, JobId(left), &mut pending)?;
    }
    Ok(pending)
}

/// How many places the fact has that may name something.
fn count_places<L: Look>(look: &L, fact: &Fact) -> Result<u32, NoMemory>
    ensures { IfOk result (λ count.
        slice_get (named_by (L.site look.now) (L.state look.now) fact.now) count ≡ None) }
{
    for at in 0..u32::MAX {
        if named(look, fact, at).is_none() {
            return Ok(at);
        }
    }
    Err(NoMemory)
}

/// Adds what a place names, if it names something.
fn push_place(place: Option<Place>, depth: u32, pending: &mut Vec<Next>) -> Ample
    ensures stay { OnOk result ((it : Thing) → IsPending pending.old.items it
        → IsPending pending.new.items it) }
    ensures told { OnOk result ((it : Thing) → place ≡ Some (Some it)
        → IsPending pending.new.items it) }
    ensures alone { OnOk result ((it : Thing) → IsPending pending.new.items it
        → IsPending pending.old.items it ⊎ (place ≡ Some (Some it))) }
{
    let Some(found) = place else {
        return Ok(());
    };
    let Some(thing) = found else {
        return Ok(());
    };
    pending.push(Next { thing, depth })?;
    Ok(())
}

/// Adds what the fact names, the last first.
fn push_named<L: Look>(look: &L, fact: &Fact, depth: u32, pending: &mut Vec<Next>) -> Ample
    ensures stay { OnOk result ((it : Thing) → IsPending pending.old.items it
        → IsPending pending.new.items it) }
    ensures all { OnOk result ((it : Thing) → Names (L.site look.now) (L.state look.now) fact.now it
        → IsPending pending.new.items it) }
    ensures alone { OnOk result ((it : Thing) → IsPending pending.new.items it
        → IsPending pending.old.items it
        ⊎ Names (L.site look.now) (L.state look.now) fact.now it) }
{
    let mut left = count_places(look, fact)?;
    while left > 0 {
        left -= 1;
        push_place(named(look, fact, left), depth, pending)?;
    }
    Ok(())
}

/// Adds a link.
fn push_link(links: &mut Vec<Link>, fact: Fact, depth: u32, again: bool) -> Ample
    ensures { OnOk result (facts_of links.new.items
        ≡ facts_of links.old.items ++ fact ∷ []) }
{
    links.push(Link { fact, depth, again })?;
    Ok(())
}

/// Adds a link about the thing, and to what is to be told whatever its fact names.
fn tell<L: Look>(
    look: &L,
    next: Next,
    places: &mut Places,
    links: &mut Vec<Link>,
    pending: &mut Vec<Next>,
) -> Ample
    requires fits { Fits (L.site look.now) (L.state look.now) }
    requires way { IsOnItsWay (L.site look.now) (L.state look.now) (facts_of links.old.items)
        (pending.old.items ++ next ∷ []) }
    ensures { OnOk result (IsOnItsWay (L.site look.now) (L.state look.now)
        (facts_of links.new.items) pending.new.items) }
{
    if let Some(fact) = places.find(links.as_slice(), next.thing) {
        push_link(links, fact, next.depth, true)?;
        return Ok(());
    }
    let fact = fact_of(look, next.thing);
    places.put(next.thing, links.len())?;
    push_link(links, fact, next.depth, false)?;
    push_named(look, &fact, next.depth.saturating_add(1), pending)?;
    Ok(())
}

/// Takes out what is told next.
fn take_next(pending: &mut Vec<Next>) -> Option<Next>
    ensures some { IfSome result (λ next. pending.old.items ≡ pending.new.items ++ next ∷ []) }
    ensures none { result ≡ None → pending.old.items ≡ [] }
{
    pending.pop()
}

/// Adds links until nothing is to be told.
fn tell_all<L: Look>(
    look: &L,
    places: &mut Places,
    links: &mut Vec<Link>,
    pending: &mut Vec<Next>,
) -> Ample
    requires fits { Fits (L.site look.now) (L.state look.now) }
    requires way { IsOnItsWay (L.site look.now) (L.state look.now) (facts_of links.old.items)
        pending.old.items }
    ensures { OnOk result (ExplainsAll (L.site look.now) (L.state look.now)
        (facts_of links.new.items)) }
{
    for round in 0..u64::MAX {
        let _round = round;
        let Some(next) = take_next(pending) else {
            return Ok(());
        };
        tell(look, next, places, links, pending)?;
    }
    Err(NoMemory)
}

/// Why jobs wait: for each of them, in their order, its fact and below it what it waits for, down to
/// the cause. Each thing is told once with what it leads to, and again without. The time grows with
/// the number of links, each found by a binary search, and with what the facts name. No clause says
/// when it fails: if memory runs out.
pub fn chains<L: Look>(alloc: Global, look: &L) -> Result<Vec<Link>, NoMemory>
    requires { Fits (L.site look.now) (L.state look.now) }
    ensures { IfOk result (λ links. ExplainsAll (L.site look.now) (L.state look.now)
        (facts_of links.items)) }
{
    let mut pending = waiting_jobs(alloc, look.rows())?;
    let mut links = Vec::new(alloc);
    let mut places = Places::new(alloc);
    tell_all(look, &mut places, &mut links, &mut pending)?;
    Ok(links)
}
