//! What bytes are written to.

ghost use Rattle.std.specs.Prelude.{◌≡◌, ◌≤◌, ◌<◌, ℕ, Bool, List, length, take, Option, IfOk, OnErr};
ghost use Rattle.np_io.specs.Memory.{Appends, Rose, SinkFacts};
ghost use Rattle.np_io.specs.Ends.{opened_by, finished_by};

/// A call of a sink failed. The sink's count of faults rose, and the call wrote no byte.
#[derive(Clone, Copy, Debug, PartialEq, Eq)]
pub struct WriteFailed;

/// Something to write bytes to.
pub trait Sink {
    /// What is known of the sink: the bytes written so far, if they are known, how many calls
    /// failed, and whether the output is finished.
    ghost facts: { Self → SinkFacts };

    /// Writes the first of `bytes`, and answers how many: at least one. It may write fewer than all
    /// of them at any time.
    fn write(&mut self, bytes: &[u8]) -> Result<usize, WriteFailed>
        requires { 0 < length bytes.now }
        ensures some { IfOk result (λ n. 0 < n) }
        ensures bound { IfOk result (λ n. n ≤ length bytes.now) }
        ensures written { IfOk result (λ n.
            Appends (facts self.old).written (facts self.new).written (take n bytes.now)) }
        ensures finished { (facts self.new).finished ≡ opened_by (facts self.old).finished result }

        // A fault adds no byte.
        ensures err { OnErr result ((facts self.new).written ≡ (facts self.old).written) }
        ensures cause { OnErr result (Rose (facts self.old).faults (facts self.new).faults) }
        ensures later { (facts self.old).faults ≤ (facts self.new).faults };

    /// Ends the output: every buffer is flushed. It changes no byte.
    fn finish(&mut self) -> Result<(), WriteFailed>
        ensures kept { (facts self.new).written ≡ (facts self.old).written }
        ensures finished { (facts self.new).finished
            ≡ finished_by (facts self.old).finished result }
        ensures cause { OnErr result (Rose (facts self.old).faults (facts self.new).faults) }
        ensures later { (facts self.old).faults ≤ (facts self.new).faults };
}
