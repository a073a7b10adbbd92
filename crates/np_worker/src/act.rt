//! The turns of a round.

ghost use Rattle.std.specs.Prelude.{◌≡◌, ◌+◌, IfOk, Option};
ghost use Rattle.np_worker.specs.Lower.{Entry};
ghost use Rattle.np_worker.specs.Prelude.{Driving, MayAsk, Phase, Work, acting, recorded, rests};
ghost use Rattle.np_worker.specs.Stage.{Counts, entry_count, Part, Came, Goes, IsOfDriver, IsLone, IsOfWork, Reaches, WentFar, phase_of, player};

use crate::next::Next;
use crate::playing::Playing;
use crate::stage::{Stage, acting};
use crate::{Ask, Turn};
use np_desk::Turns;
use np_event::Entry;
use np_text::{NoMemory, Role};

/// How many turns a role takes in a round, and how many turns a worker takes before it lets others
/// take theirs.
pub(crate) const ACTS: u32 = 16;

/// The count of entries after a turn.
fn count_entry(entries: u32, turn: Turn) -> Result<u32, NoMemory>
    ensures { IfOk result (λ n. n ≡ entries + entry_count turn) }
{
    match turn {
        Turn::Did(_) => entries.checked_add(1).ok_or(NoMemory),
        _ => Ok(entries),
    }
}

/// Takes a turn, and counts its entry. If the count has no room, the turn is made all the same.
pub(crate) fn take_turn<T: Turns<Ask = Ask, Entry = Entry, Turn = Turn>>(
    turns: &mut T,
    ask: Ask,
    entries: &mut u32,
) -> Result<Turn, NoMemory>
    requires ready { T.ready turns.old }
    requires recorded { T.recorded ≡ recorded }
    ensures ready { T.ready turns.new }
    ensures fixed { T.fixed turns.new ≡ T.fixed turns.old }
    ensures place { T.place turns.new ≡ T.place turns.old }
    ensures part { (p : Phase) (d : Option Driving) → MayAsk p ask → IsOfDriver ask d →
        Part T.answers (T.fixed turns.old) p (T.sight turns.old) (T.sight turns.new) d d
        (Came p ask result) }
    ensures count { IfOk result
        (λ _. Counts entries.old (T.sight turns.old) entries.new (T.sight turns.new)) }
{
    let turn = turns.turn(ask)?;
    *entries = count_entry(*entries, turn)?;
    Ok(turn)
}

/// The count of entries, if it has room.
fn count_of(entries: u64) -> Result<u32, NoMemory>
    ensures { IfOk result (λ n. n ≡ entries) }
{
    u32::try_from(entries).map_err(|_| -> NoMemory { NoMemory })
}

/// Takes turns one after another, at most 16, until a launch or a removal comes or the roles have
/// taken theirs, and counts their entries. If the count has no room, the turns are made all the same.
pub(crate) fn take_turns<T: Turns<Ask = Ask, Entry = Entry, Turn = Turn>>(
    turns: &mut T,
    stage: Stage,
    entries: &mut u32,
) -> Result<Stage, NoMemory>
    requires ready { T.ready turns.old }
    requires recorded { T.recorded ≡ recorded }
    ensures ready { T.ready turns.new }
    ensures fixed { T.fixed turns.new ≡ T.fixed turns.old }
    ensures place { T.place turns.new ≡ T.place turns.old }
    ensures part { (d : Option Driving) → Part T.answers (T.fixed turns.old) (phase_of stage)
        (T.sight turns.old) (T.sight turns.new) d d (Reaches result) }
    ensures far { IfOk result (λ s. WentFar (phase_of stage) s) }
    ensures work { (w : Work) → IsOfWork w (phase_of stage) →
        IfOk result (λ s. IsOfWork w (phase_of s)) }
    ensures count { IfOk result
        (λ _. Counts entries.old (T.sight turns.old) entries.new (T.sight turns.new)) }
{
    let mut playing = Playing {
        stage,
        entries: u64::from(*entries),
    };
    turns.turns(&mut playing, ACTS)?;
    *entries = count_of(playing.entries)?;
    Ok(playing.stage)
}

/// Takes the turns of a role that does nothing but act.
pub(crate) fn act_often<T: Turns<Ask = Ask, Entry = Entry, Turn = Turn>>(
    turns: &mut T,
    role: Role,
    entries: &mut u32,
) -> Result<Next, NoMemory>
    requires ready { T.ready turns.old }
    requires recorded { T.recorded ≡ recorded }
    requires lone { IsLone (player role) }
    ensures ready { T.ready turns.new }
    ensures fixed { T.fixed turns.new ≡ T.fixed turns.old }
    ensures place { T.place turns.new ≡ T.place turns.old }
    ensures part { (d : Option Driving) → Part T.answers (T.fixed turns.old) (acting role 16)
        (T.sight turns.old) (T.sight turns.new) d d (Goes rests rests result) }
    ensures count { IfOk result
        (λ _. Counts entries.old (T.sight turns.old) entries.new (T.sight turns.new)) }
{
    match take_turns(turns, acting(role, ACTS), entries)? {
        Stage::Ended => Ok(Next::Full),
        _ => Ok(Next::Idle),
    }
}
