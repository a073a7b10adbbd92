//! Worked examples. Nothing here runs: the function states a theorem.

ghost use Rattle.std.specs.Prelude.{◌≡◌, List, ℕ, [], ◌∷◌, codes, None, Some};
ghost use Rattle.np_replay.specs.Command.{command};
ghost use Rattle.np_replay.specs.declared.command.Command.TheVariants as the;

/// Which words are a command, by examples.
pub fn worked_commands()
    ensures bare { (command (codes "replay" ∷ []) ≡ Some the.Replay)
        × (command (codes "run" ∷ []) ≡ Some the.Run)
        × (command (codes "audit" ∷ []) ≡ Some the.Audit) }
    ensures hosts { (command (codes "run" ∷ codes "hosts" ∷ []) ≡ Some the.RunHosts)
        × (command (codes "run" ∷ codes "--" ∷ codes "hosts" ∷ []) ≡ Some the.RunHosts)
        × (command (codes "run" ∷ codes "host" ∷ []) ≡ None)
        × (command (codes "hosts" ∷ []) ≡ None)
        × (command (codes "replay" ∷ codes "hosts" ∷ []) ≡ None)
        × (command (codes "run" ∷ codes "hosts" ∷ codes "x" ∷ []) ≡ None) }
    ensures planned { (command (codes "run" ∷ codes "planned" ∷ []) ≡ Some the.RunPlanned)
        × (command (codes "--" ∷ codes "run" ∷ codes "planned" ∷ []) ≡ Some the.RunPlanned)
        × (command (codes "run" ∷ codes "plan" ∷ []) ≡ None)
        × (command (codes "planned" ∷ []) ≡ None)
        × (command (codes "run" ∷ codes "planned" ∷ codes "hosts" ∷ []) ≡ None) }
    ensures drill { (command (codes "drill" ∷ codes "12" ∷ []) ≡ Some (the.Drill 12))
        × (command (codes "drill" ∷ codes "4000" ∷ []) ≡ Some (the.Drill 4000))
        × (command (codes "drill" ∷ codes "4001" ∷ []) ≡ None)
        × (command (codes "drill" ∷ codes "0" ∷ []) ≡ None)
        × (command (codes "drill" ∷ codes "012" ∷ []) ≡ None) }
    ensures file { (command (codes "keep" ∷ codes "f" ∷ []) ≡ Some (the.Keep (codes "f")))
        × (command (codes "resume" ∷ codes "f" ∷ []) ≡ Some (the.Resume (codes "f")))
        × (command (codes "keep" ∷ []) ≡ None)
        × (command (codes "keep" ∷ codes "-f" ∷ []) ≡ None)
        × (command (codes "keep" ∷ codes "--" ∷ codes "-f" ∷ []) ≡ None)
        × (command (codes "keep" ∷ [] ∷ []) ≡ None) }
    ensures dashes { (command (codes "--" ∷ codes "replay" ∷ []) ≡ Some the.Replay)
        × (command (codes "replay" ∷ codes "--" ∷ []) ≡ Some the.Replay)
        × (command (codes "keep" ∷ codes "--" ∷ codes "f" ∷ []) ≡ Some (the.Keep (codes "f")))
        × (command (codes "--" ∷ codes "keep" ∷ codes "f" ∷ []) ≡ Some (the.Keep (codes "f")))
        × (command (codes "keep" ∷ codes "f" ∷ codes "--" ∷ []) ≡ Some (the.Keep (codes "f")))
        × (command (codes "--" ∷ codes "--" ∷ codes "replay" ∷ []) ≡ None) }
    ensures none { (command [] ≡ None)
        × (command (codes "replay" ∷ codes "x" ∷ []) ≡ None) }
{}
