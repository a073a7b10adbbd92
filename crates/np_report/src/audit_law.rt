//! The law. Its function does nothing: its contract is the law.
#![tactic(auto, using(crate::proofs::Findings::laws))]

ghost use Rattle.std.specs.Prelude.{◌≡◌, ℕ, List};
ghost use Rattle.np_report.specs.declared.finding.Finding.{Finding};
ghost use Rattle.np_report.specs.Audit.{IsSo};

/// Bytes have one finding: they are the Text of a run, or one line is the first that is wrong.
pub fn bytes_have_one_finding()
    ensures { (bytes : List ℕ) (a b : Finding) → IsSo a bytes → IsSo b bytes → a ≡ b }
{}
