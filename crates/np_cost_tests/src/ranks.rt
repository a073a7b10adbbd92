//! How many places a search for a rank looks at, which no clause says.

ghost use Rattle.std.specs.Prelude.{◌==◌, nat_lt};
ghost use Rattle.std.proofs.Common.{arith};
ghost use Rattle.std.proofs.lemmas.Bool.Decides.{nat_tests};

use np_lists::{Group, Groups, Ids, Order, id_outside};
use std::alloc::Global;
use std::cell::Cell;

/// Numbers, in order.
struct ByNumber;

impl Order for ByNumber {
    type Key = u32;

    type Row = u32;

    ghost key = { λ number. number };

    ghost before = { nat_lt };

    ghost same = { λ first second. first == second };

    fn key(number: &u32) -> u32 {
        *number
    }

    fn is_before(first: u32, second: u32) -> bool {
        first < second
    }

    fn is_same(first: u32, second: u32) -> bool {
        first == second
    }

    ghost transitive = { λ a b k first second. Prim.grind (arith, nat_tests) };

    ghost one_way = { λ a b first. Prim.grind (arith, nat_tests) };

    ghost some_way = { λ a b past other. Prim.grind (arith, nat_tests) };

    ghost equal = { λ a b same. Prim.grind (arith, nat_tests) };
}

/// Ids that count how often a place is looked at.
#[derive(Drop)]
struct CountedIds<'a> {
    ids: &'a [u32],
    looks: Cell<u32>,
}

impl Ids<u32> for CountedIds<'_> {
    ghost ids = { λ list. list.ids.now };

    fn count(&self) -> usize {
        self.ids.len()
    }

    fn at(&self, place: usize) -> Option<u32> {
        self.looks.set(self.looks.get().wrapping_add(1));
        self.ids.get(place).copied()
    }
}

const INNER: Group = Group {
    class: 1,
    first: 0,
    second: 0,
    third: 0,
};

/// The odd numbers below a number, in a group.
fn odd_numbers(alloc: Global, end: u32) -> Option<Groups<ByNumber>> {
    let mut groups = Groups::new(alloc);
    for number in 0..end {
        if number % 2 == 1 {
            groups.reserve(1).ok()?;
            groups.put(INNER, number);
        }
    }
    Some(groups)
}

/// The numbers below a number.
fn numbers(alloc: Global, end: u32) -> Option<Vec<u32>> {
    let mut all = Vec::new(alloc);
    for number in 0..end {
        all.push(number).ok()?;
    }
    Some(all)
}

/// Whether each even number below 1,024 is found at its rank among those that are not odd, by at
/// most so many looks.
fn finds_each(alloc: Global, most: u32) -> Option<bool> {
    let groups = odd_numbers(alloc, 1_024)?;
    let ids = numbers(alloc, 1_024)?;
    for rank in 0..512u32 {
        let list = CountedIds {
            ids: &ids,
            looks: Cell::new(0),
        };
        if id_outside(&list, &groups, INNER, rank as usize) != Some(2 * rank)
            || list.looks.get() > most
        {
            return Some(false);
        }
    }
    Some(true)
}

#[test]
fn a_rank_is_found_by_few_looks(rt: HostRuntime) {
    assert!(rt; finds_each(rt.alloc(), 12) == Some(true));
}
