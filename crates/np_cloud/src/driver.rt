//! What launches and removes servers.

ghost use Rattle.std.specs.Prelude.{◌≡◌, ℕ, List, Bool, Option, IfSome, slice_get};
ghost use Rattle.np_event.specs.declared.event.Outcome.{Outcome};
ghost use Rattle.np_cloud.specs.declared.driver.Tag.{Tag};
ghost use Rattle.np_cloud.specs.Facts.{DriverFacts};
ghost use Rattle.np_cloud.specs.Calls.{Launches, IsAsPlanned, Removes, KeepsCounts};
ghost use Rattle.np_cloud.specs.Sound.{Soundness, FailsOnlyFull};

use np_event::Outcome;
use np_text::{NodeId, PoolId};

/// How many launches a driver with room for more servers answers before one may fail.
pub const MOST_LAUNCHES: u64 = 9_007_199_254_740_992;

/// Which launch it is: an attempt of a node, and the start of this number in the pool.
#[derive(Clone, Copy, Debug, PartialEq, Eq)]
pub struct Tag {
    pub pool: PoolId,
    pub node: NodeId,
    pub attempt: u8,
    pub start: u32,
}

/// A launch, and what became of it.
#[derive(Clone, Copy)]
pub struct Launch {
    pub tag: Tag,
    pub outcome: Outcome,
}

/// A server, with the launch that made it.
#[derive(Clone, Copy, Debug, PartialEq, Eq)]
pub struct Server {
    pub tag: Tag,
    pub number: u64,
}

/// Why there is no server.
#[derive(Clone, Copy, Debug, PartialEq, Eq)]
pub enum LaunchFault {
    /// The driver's count of failed launches rose.
    Failed,
    NoMemory,
}

/// A removal failed. The driver's count of failed removals rose, and its servers are as before.
#[derive(Clone, Copy, Debug, PartialEq, Eq)]
pub struct RemoveFailed;

/// Launches and removes servers.
pub trait Driver {
    /// What is known of the driver: the launches that it answered and its servers, if it reports
    /// them, and how many launches and removals failed.
    ghost facts: { Self → DriverFacts };

    /// The answer planned for a launch, if the driver follows a plan. No call changes it.
    ghost plan: { Self → Tag → Option Outcome };

    /// Which lists of server numbers are sound for the driver. No call changes it.
    ghost sound: { Self → List ℕ → Bool };

    /// What always holds of them.
    ghost soundness: { (driver : Self) → Soundness (facts driver) (sound driver) };

    /// How many servers the driver has before a launch fails for want of room. No call changes it.
    ghost room: { Self → ℕ };

    /// Launches a server, and returns its number. The server is then the last of the driver's.
    fn launch(&mut self, tag: Tag) -> Result<u64, LaunchFault>
        ensures plan { plan self.new ≡ plan self.old }
        ensures sound { sound self.new ≡ sound self.old }
        ensures room { room self.new ≡ room self.old }
        ensures launch { Launches (facts self.old) tag result (facts self.new) }
        ensures planned { IsAsPlanned (plan self.old tag) result }
        ensures full { FailsOnlyFull (facts self.old) (room self.old) result }
        ensures counts { KeepsCounts (facts self.old) (facts self.new) };

    /// Removes each server of this number; there may be none.
    fn remove(&mut self, number: u64) -> Result<(), RemoveFailed>
        ensures plan { plan self.new ≡ plan self.old }
        ensures sound { sound self.new ≡ sound self.old }
        ensures room { room self.new ≡ room self.old }
        ensures removal { Removes (facts self.old) number result (facts self.new) }
        ensures counts { KeepsCounts (facts self.old) (facts self.new) };

    /// The server at a place, in the order of their launches: `None` if and only if it is past the
    /// last.
    fn server(&self, at: u32) -> Option<Server>
        ensures { IfSome (facts self.now).servers (λ servers. result ≡ slice_get servers at) };
}
