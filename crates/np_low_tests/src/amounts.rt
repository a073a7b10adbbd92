//! Amounts against limits, and a pool's largest amount.

use np_amount::{Amount, Limit};

const USED: Amount = Amount {
    instances: 2,
    cores: 8,
    ram: 2048,
};

const ONE: Amount = Amount {
    instances: 1,
    cores: 3,
    ram: 1024,
};

const BOTH: Amount = Amount {
    instances: 3,
    cores: 11,
    ram: 3072,
};

// The largest offer, 1,000 cores and 1,000,000 MiB, and as much for each of 262,144 nodes.
const LARGEST: Amount = Amount {
    instances: 1,
    cores: 1_000,
    ram: 1_000_000,
};

const ALL: Amount = Amount {
    instances: 262_144,
    cores: 262_144_000,
    ram: 262_144_000_000,
};

fn amounts_are_summed_part_by_part() -> bool {
    USED.plus(ONE) == BOTH
        && BOTH.minus(ONE) == USED
        && LARGEST.times(262_144) == ALL
        && ONE.times(0) == Amount::NOTHING
        && ALL.fits(&Limit::NO_LIMIT)
}

// The most instances, cores and MiB of a limit, and whether `USED` fits it.
const LIMITS: [(Option<u64>, Option<u64>, Option<u64>, bool); 5] = [
    (Some(2), Some(8), Some(2048), true),
    (Some(1), None, None, false),
    (None, Some(7), None, false),
    (None, None, Some(2047), false),
    (Some(0), None, None, false),
];

fn an_amount_fits_up_to_each_limit() -> bool {
    every!((instances, cores, ram, want) in &LIMITS => {
        let limit = Limit { instances: *instances, cores: *cores, ram: *ram };
        USED.fits(&limit) == *want
    })
}

#[test]
fn amounts_are_summed_and_limited(rt: HostRuntime) {
    assert!(rt; amounts_are_summed_part_by_part(), "sums");
    assert!(rt; an_amount_fits_up_to_each_limit(), "limits");
}
