//! Rows that go by a name or by a number.

ghost use Rattle.std.specs.Prelude.{◌≡◌, List, ℕ};

use crate::row::{Job, Label, Offer, Pool, Provider, Requester, Sem, Tenant};
use np_text::SemId;

/// Something with a name.
pub trait Named: Drop {
    ghost name: { Self → List ℕ };

    fn name(&self) -> &[u8]
        ensures { result.now ≡ name self.now };
}

/// Something with a number.
pub trait Numbered: Drop {
    ghost number: { Self → ℕ };

    fn number(&self) -> u16
        ensures { result ≡ number self.now };
}

impl Named for Label {
    ghost name = { λ row. row.name };

    fn name(&self) -> &[u8] {
        self.name.items()
    }
}

impl Named for Provider {
    ghost name = { λ row. row.name };

    fn name(&self) -> &[u8] {
        self.name.items()
    }
}

impl Named for Pool {
    ghost name = { λ row. row.name };

    fn name(&self) -> &[u8] {
        self.name.items()
    }
}

impl Named for Sem {
    ghost name = { λ row. row.name };

    fn name(&self) -> &[u8] {
        self.name.items()
    }
}

impl Named for Tenant {
    ghost name = { λ row. row.name };

    fn name(&self) -> &[u8] {
        self.name.items()
    }
}

impl Named for Requester {
    ghost name = { λ row. row.name };

    fn name(&self) -> &[u8] {
        self.name.items()
    }
}

impl Named for Job {
    ghost name = { λ row. row.name };

    fn name(&self) -> &[u8] {
        self.name.items()
    }
}

impl Numbered for Offer {
    ghost number = { λ offer. offer.label.0 };

    fn number(&self) -> u16 {
        self.label.0
    }
}

impl Numbered for SemId {
    ghost number = { λ semaphore. semaphore.0 };

    fn number(&self) -> u16 {
        self.0
    }
}
