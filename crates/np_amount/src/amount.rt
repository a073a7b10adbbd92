//! Amounts and limits.

ghost use Rattle.std.specs.Prelude.{◌≡◌, ◌+◌, ◌*◌, ◌<◌, ◌≤◌, ◌^◌};
ghost use Rattle.np_amount.specs.Amounts.{plus, minus, times, fits, is_within};

/// What some nodes take of a pool: instances, cores, and ram in MiB.
#[derive(Clone, Copy, Debug, PartialEq, Eq)]
pub struct Amount {
    pub instances: u64,
    pub cores: u64,
    pub ram: u64,
}

/// What a pool may use at most of each; `None` is no limit (Nodepool's `max-servers`, `max-cores`
/// and `max-ram`).
#[derive(Clone, Copy, Debug, PartialEq, Eq)]
pub struct Limit {
    pub instances: Option<u64>,
    pub cores: Option<u64>,
    pub ram: Option<u64>,
}

impl Limit {
    /// No limit at all: each amount fits.
    pub const NO_LIMIT: Limit = Limit {
        instances: None,
        cores: None,
        ram: None,
    };
}

impl Amount {
    /// What no node takes.
    pub const NOTHING: Amount = Amount {
        instances: 0,
        cores: 0,
        ram: 0,
    };

    /// The sum of both.
    pub fn plus(self, other: Amount) -> Amount
        requires instances { self.instances + other.instances < 2 ^ 64 }
        requires cores { self.cores + other.cores < 2 ^ 64 }
        requires ram { self.ram + other.ram < 2 ^ 64 }
        ensures { result ≡ plus self other }
    {
        Amount {
            instances: self.instances + other.instances,
            cores: self.cores + other.cores,
            ram: self.ram + other.ram,
        }
    }

    /// What is left of this amount without the other.
    pub fn minus(self, other: Amount) -> Amount
        requires instances { other.instances ≤ self.instances }
        requires cores { other.cores ≤ self.cores }
        requires ram { other.ram ≤ self.ram }
        ensures { result ≡ minus self other }
    {
        Amount {
            instances: self.instances - other.instances,
            cores: self.cores - other.cores,
            ram: self.ram - other.ram,
        }
    }

    /// What `n` nodes take if each takes this amount.
    pub fn times(self, n: u64) -> Amount
        requires instances { n * self.instances < 2 ^ 64 }
        requires cores { n * self.cores < 2 ^ 64 }
        requires ram { n * self.ram < 2 ^ 64 }
        ensures { result ≡ times n self }
    {
        Amount {
            instances: n * self.instances,
            cores: n * self.cores,
            ram: n * self.ram,
        }
    }

    /// Whether each part is at most its limit, if it has one.
    pub fn fits(&self, limit: &Limit) -> bool
        ensures { result ≡ fits self.now limit.now }
    {
        is_within(limit.instances, self.instances)
            && is_within(limit.cores, self.cores)
            && is_within(limit.ram, self.ram)
    }
}

fn is_within(limit: Option<u64>, used: u64) -> bool
    ensures { result ≡ is_within limit used }
{
    match limit {
        None => true,
        Some(most) => used <= most,
    }
}
