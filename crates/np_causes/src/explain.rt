//! The facts that explain why a job waits.

ghost use Rattle.std.specs.Prelude.{◌≡◌, [], true, false, IfOk, OnOk, Some, slice_get};
ghost use Rattle.np_causes.specs.Lower.{Fits};
ghost use Rattle.np_causes.specs.Explains.{Explains, Grows, IfNamed, IfTold, IsSound, IsTold, NamesTold, waits};
ghost use Rattle.np_causes.specs.declared.fact.Thing.TheVariants as thing;

use crate::fact::{Fact, Thing, about};
use crate::names::{Place, named};
use crate::same::is_same;
use crate::tell::fact_of;
use np_look::{Look, Rows};
use np_text::{Ample, JobId, NoMemory, Phase};
use std::alloc::Global;

/// Whether the job exists and is not over.
pub fn waits<R: Rows>(rows: &R, job: JobId) -> bool
    ensures { result ≡ waits (R.state rows.now) job }
{
    match rows.job(job) {
        None => false,
        Some(kept) => kept.phase != Phase::Over,
    }
}

/// Whether one of the facts is about the thing.
fn is_told(facts: &[Fact], thing: Thing) -> bool
    ensures { result ≡ true → IsTold facts.now thing }
{
    for fact in facts {
        if is_same(about(fact), thing) {
            return true;
        }
    }
    false
}

/// Adds a fact about the thing at the place, which one of the facts names, unless there is one.
#[tactic(auto, using(crate::proofs::Growing::push_grows, crate::proofs::Growing::push_told))]
fn tell<L: Look>(look: &L, job: JobId, place: Place, facts: &mut Vec<Fact>) -> Ample
    requires fits { Fits (L.site look.now) (L.state look.now) }
    requires sound { IsSound (L.site look.now) (L.state look.now) job facts.old.items }
    requires named { IfNamed (L.site look.now) (L.state look.now) facts.old.items place }
    ensures sound { OnOk result (IsSound (L.site look.now) (L.state look.now) job facts.new.items) }
    ensures grows { OnOk result (Grows facts.old.items facts.new.items) }
    ensures told { OnOk result (IfTold facts.new.items place) }
{
    let Some(thing) = place else {
        return Ok(());
    };
    if is_told(facts.as_slice(), thing) {
        return Ok(());
    }
    let fact = fact_of(look, thing);
    facts.push(fact)?;
    Ok(())
}

/// Adds a fact about each thing that this one names, unless there is one.
fn tell_named<L: Look>(look: &L, job: JobId, at: usize, fact: &Fact, facts: &mut Vec<Fact>) -> Ample
    requires fits { Fits (L.site look.now) (L.state look.now) }
    requires sound { IsSound (L.site look.now) (L.state look.now) job facts.old.items }
    requires stands { slice_get facts.old.items at ≡ Some fact.now }
    ensures sound { OnOk result (IsSound (L.site look.now) (L.state look.now) job facts.new.items) }
    ensures grows { OnOk result (Grows facts.old.items facts.new.items) }
    ensures told { OnOk result (NamesTold (L.site look.now) (L.state look.now) facts.new.items
        fact.now) }
{
    for at_place in 0..u32::MAX {
        let Some(place) = named(look, fact, at_place) else {
            return Ok(());
        };
        tell(look, job, place, facts)?;
    }
    Err(NoMemory)
}

fn fact_at(facts: &[Fact], at: usize) -> Option<Fact>
    ensures { result ≡ slice_get facts.now at }
{
    facts.get(at).copied()
}

/// Adds a fact about each thing that one of the facts names, those that it adds too.
fn tell_all<L: Look>(look: &L, job: JobId, facts: &mut Vec<Fact>) -> Ample
    requires fits { Fits (L.site look.now) (L.state look.now) }
    requires sound { IsSound (L.site look.now) (L.state look.now) job facts.old.items }
    requires begun { IsTold facts.old.items (thing.Job job) }
    ensures { OnOk result (Explains (L.site look.now) (L.state look.now) job facts.new.items) }
{
    for at in 0..usize::MAX {
        let Some(fact) = fact_at(facts.as_slice(), at) else {
            return Ok(());
        };
        tell_named(look, job, at, &fact, facts)?;
    }
    Err(NoMemory)
}

/// Why the job waits, or nothing if it doesn't exist or is over. Each thing is told once: with many
/// facts the cost grows with their number times itself. No clause says when it fails: if memory runs
/// out, or if one fact names more than 4,294,967,294 things, which it does in no state that fits.
#[tactic(auto, using(crate::proofs::Growing::first_sound, crate::proofs::Growing::first_told))]
pub fn causes<L: Look>(alloc: Global, look: &L, job: JobId) -> Result<Vec<Fact>, NoMemory>
    requires { Fits (L.site look.now) (L.state look.now) }
    ensures explains { IfOk result (λ facts. waits (L.state look.now) job ≡ true
        → Explains (L.site look.now) (L.state look.now) job facts.items) }
    ensures idle { IfOk result (λ facts. waits (L.state look.now) job ≡ false → facts.items ≡ []) }
{
    let mut facts = Vec::new(alloc);
    if !waits(look.rows(), job) {
        return Ok(facts);
    }
    let first = fact_of(look, Thing::Job(job));
    facts.push(first)?;
    tell_all(look, job, &mut facts)?;
    Ok(facts)
}
