//! What bytes are read from.

ghost use Rattle.std.specs.Prelude.{◌≡◌, ◌≤◌, ◌<◌, ◌↔◌, ℕ, Bool, List, [], length, take, Option, IfOk, IfSome, OnErr};
ghost use Rattle.np_io.specs.Memory.{Takes, Rose, SourceFacts};
ghost use Rattle.np_io.specs.Ends.{ended_by};

/// A read failed. The source's count of faults rose, and it has the same bytes left as before.
#[derive(Clone, Copy, Debug, PartialEq, Eq)]
pub struct ReadFailed;

/// Something to read bytes from.
pub trait Source {
    /// What is known of the source: the bytes still to come, if they are known, how many reads
    /// failed, and whether it is at its end.
    ghost facts: { Self → SourceFacts };

    /// Reads the next bytes into the front of `buf`, and answers how many: 0 at the end, and only
    /// there. It may read fewer bytes than `buf` has room for at any time.
    fn read(&mut self, buf: &mut [u8]) -> Result<usize, ReadFailed>
        requires { 0 < length buf.old }
        ensures bound { IfOk result (λ n. n ≤ length buf.new) }
        ensures read { IfOk result (λ n.
            Takes (facts self.old).left (facts self.new).left (take n buf.new)) }
        ensures end { IfOk result (λ n. IfSome (facts self.old).left (λ rest.
            (n ≡ 0) ↔ (rest ≡ []))) }
        ensures at_end { (facts self.new).at_end ≡ ended_by (facts self.old).at_end result }

        // A fault loses no byte.
        ensures err { OnErr result ((facts self.new).left ≡ (facts self.old).left) }
        ensures cause { OnErr result (Rose (facts self.old).faults (facts self.new).faults) }
        ensures later { (facts self.old).faults ≤ (facts self.new).faults };
}
