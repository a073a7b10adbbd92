//! What is true of the sessions of a run. Each function does nothing: its contract is the law.

ghost use Rattle.std.specs.Prelude.{◌≡◌, Some, true, false};
ghost use Rattle.np_jobs.specs.Lower.{Configuration, IsReached, Role, SessionFacts, SessionId, State, is_role, session_of, takes_part};
ghost use Rattle.np_jobs.specs.Steps.{IsIdle};

/// Each session of a run belongs to a role of the configuration.
pub fn a_session_is_of_a_role_of_the_configuration()
    ensures { (c : Configuration) (s : State) (session : SessionId) (facts : SessionFacts) →
        IsReached c s → session_of session s ≡ Some facts → is_role c facts.role ≡ true }
{}

/// A role that is not in the configuration has nothing to do.
pub fn a_role_outside_is_idle()
    ensures { (c : Configuration) (s : State) (role : Role) →
        IsReached c s → takes_part c role ≡ false → IsIdle c s role }
{}
