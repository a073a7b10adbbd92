//! What a round does with its driver.

ghost use Rattle.std.specs.Prelude.{◌≡◌, [], ◌∷◌, MatchResult};
ghost use Rattle.np_worker.specs.Prelude.{Drives, driving, launched};
ghost use Rattle.np_worker.specs.Stage.{RemovalEnds};

use crate::next::Next;
use np_cloud::{Driver, LaunchFault, Tag};
use np_event::Outcome;
use np_text::NoMemory;

/// Launches a server. A launch that ran out of memory leaves the driver as it was.
pub(crate) fn launch_server<D: Driver>(driver: &mut D, tag: Tag) -> Result<Outcome, NoMemory>
    ensures { MatchResult result
        (λ o. Drives (launched tag o ∷ [])
        (driving D.facts D.plan D.sound D.room driver.old)
        (driving D.facts D.plan D.sound D.room driver.new))
        (λ _. driving D.facts D.plan D.sound D.room driver.new
        ≡ driving D.facts D.plan D.sound D.room driver.old) }
{
    match driver.launch(tag) {
        Ok(number) => Ok(Outcome::Launched(number)),
        Err(LaunchFault::Failed) => Ok(Outcome::Failed),
        Err(LaunchFault::NoMemory) => Err(NoMemory),
    }
}

/// Removes the servers of a number.
pub(crate) fn remove_server<D: Driver>(driver: &mut D, number: u64) -> Next
    ensures { RemovalEnds number (driving D.facts D.plan D.sound D.room driver.old)
        (driving D.facts D.plan D.sound D.room driver.new) result }
{
    match driver.remove(number) {
        Ok(()) => Next::Go,
        Err(_) => Next::Failed,
    }
}
