//! What is left of a write that a crash cut short, by a number.

ghost use Rattle.std.specs.Prelude.{◌≡◌, ◌≤◌, ◌<◌, length, IfOk, vec_len};
ghost use Rattle.np_io.specs.DiskCalls.{share_of};

use std::alloc::{AllocError, Global};

/// Numbers that are drawn one after the other, always the same ones for the same pick.
#[derive(Drop)]
pub struct Draws {
    /// It never changes.
    pick: u64,
    /// A linear congruential generator, with Knuth's numbers for 64 bits.
    state: u64,
}

/// How much of a write is left.
enum Share {
    Nothing,
    All,
    Part,
}

impl Draws {
    pub fn new(pick: u64) -> Draws
        ensures { result ≡ record { pick = pick; state = pick } }
    {
        Draws { pick, state: pick }
    }

    /// A number below 2 ^ 31: the higher bits of the state, which repeat less often than the lower.
    fn next(&mut self) -> u64
        ensures pick { self.new.pick ≡ self.old.pick }
    {
        self.state = self
            .state
            .wrapping_mul(6_364_136_223_846_793_005)
            .wrapping_add(1_442_695_040_888_963_407);
        self.state >> 33
    }

    /// A number from 0 to `most`.
    fn up_to(&mut self, most: usize) -> usize
        requires { most < usize.MAX }
        ensures bound { result ≤ most }
        ensures pick { self.new.pick ≡ self.old.pick }
    {
        self.next() as usize % (most + 1)
    }

    /// Nothing for pick 0, and all for pick 1. For any other pick one write in eight is lost, one
    /// is left whole, and six are torn.
    fn share(&mut self) -> Share
        ensures nothing { self.old.pick ≡ 0 → result ≡ Share.Nothing }
        ensures all { self.old.pick ≡ 1 → result ≡ Share.All }
        ensures pick { self.new.pick ≡ self.old.pick }
    {
        match (self.pick, self.next() % 8) {
            (0, _) => Share::Nothing,
            (1, _) => Share::All,
            (_, 0) => Share::Nothing,
            (_, 1) => Share::All,
            (_, _) => Share::Part,
        }
    }

    /// Replaces these bytes by arbitrary ones.
    fn scramble(&mut self, bytes: &mut [u8])
        ensures pick { self.new.pick ≡ self.old.pick }
    {
        for byte in bytes {
            *byte = (self.next() % 256) as u8;
        }
    }

    /// Replaces the bytes before the cut, or those behind it, by arbitrary ones.
    fn scramble_side(&mut self, bytes: &mut [u8], cut: usize)
        requires { cut ≤ length bytes.old }
        ensures pick { self.new.pick ≡ self.old.pick }
    {
        if self.up_to(1) == 0 {
            self.scramble(&mut bytes[..cut]);
        } else {
            self.scramble(&mut bytes[cut..]);
        }
    }

    /// What is left of a write of these bytes: nothing, all, or a prefix of which one part is as
    /// written and the other has arbitrary bytes.
    pub fn left_of(&mut self, alloc: Global, bytes: &[u8]) -> Result<Vec<u8>, AllocError>
        ensures bound { IfOk result (λ left. vec_len left ≤ length bytes.now) }
        ensures share { self.old.pick ≤ 1 → IfOk result (λ left.
            left.items ≡ share_of self.old.pick bytes.now) }
        ensures pick { self.new.pick ≡ self.old.pick }
    {
        match self.share() {
            Share::Nothing => Ok(Vec::new(alloc)),
            Share::All => bytes.to_vec(alloc),
            Share::Part => {
                let end = self.up_to(bytes.len());
                let cut = self.up_to(end);
                let mut left = bytes[..end].to_vec(alloc)?;
                self.scramble_side(&mut left, cut);
                Ok(left)
            }
        }
    }
}
