//! The key that is nearest to a word.

ghost use Rattle.std.specs.Prelude.{◌≡◌, ◌<◌, IfOk, length, map};
ghost use Rattle.np_check.specs.Near.{distance, is_near, IsLeast};

use np_text::NoMemory;
use std::alloc::{AllocError, Global};
use strsim::osa_distance;

/// How many letters have to be put in, taken out, changed, or swapped with the one next to them.
/// Takes time and memory that grow with the product of both lengths.
fn distance(alloc: Global, word: &str, key: &str) -> Result<usize, AllocError>
    ensures { IfOk result (λ d. d ≡ distance word.now key.now) }
{
    osa_distance(alloc, word, key)
}

/// The distance of each key from the word.
fn distances(alloc: Global, word: &str, keys: &[&str]) -> Result<Vec<usize>, NoMemory>
    ensures { IfOk result (λ v. v.items ≡ map (λ k. distance word.now k.now) keys.now) }
{
    let mut found = Vec::new(alloc);
    for key in keys {
        found.push(distance(alloc, word, key)?)?;
    }
    Ok(found)
}

/// The place of the least number, the first if several are.
fn place_of_least(numbers: &[usize]) -> usize
    requires { 0 < length numbers.now }
    ensures { IsLeast result numbers.now }
{
    let mut best = 0;
    let mut least = numbers[0];
    for (at, number) in numbers.iter().enumerate() {
        if *number < least {
            best = at;
            least = *number;
        }
    }
    best
}

/// The place of the key with the least distance from the word, the first if several have it.
pub fn nearest(alloc: Global, word: &str, keys: &[&str]) -> Result<usize, NoMemory>
    requires { 0 < length keys.now }
    ensures { IfOk result
        (λ at. IsLeast at (map (λ k. distance word.now k.now) keys.now)) }
{
    let found = distances(alloc, word, keys)?;
    Ok(place_of_least(found.as_slice()))
}

/// Whether the key is so near that the word may stand for it: at most two edits, and at most one
/// for each two letters of the key.
pub fn is_near(alloc: Global, word: &str, key: &str) -> Result<bool, AllocError>
    ensures { IfOk result (λ b. b ≡ is_near word.now key.now) }
{
    let found = distance(alloc, word, key)?;
    Ok(found <= 2 && 2 * found <= key.len())
}
