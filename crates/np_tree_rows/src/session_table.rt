//! The tick, sessions and registrations.

ghost use Rattle.std.specs.Prelude.{◌≡◌, ◌<◌, ◌^◌, length, slice_get};
ghost use Rattle.np_tree_rows.specs.Lower.{Configuration, IsStored, State, registered, session_of};

use crate::bytes::{bytes_at, count_at, owner_at};
use np_config::Config;
use np_layout::Place;
use np_machine::{Registration, SessionFacts};
use np_record::SessionRecord;
use np_spelling::Record;
use np_text::{PoolId, SessionId, read_number};
use np_tree::Tree;

/// How many ticks have passed.
pub(crate) fn tick(tree: &Tree) -> u32
    ensures { (c : Configuration) (s : State) → IsStored c s tree.now → result ≡ s.tick }
{
    let Some(bytes) = bytes_at(tree, Place::Tick) else {
        return 0;
    };
    match read_number(bytes, u64::from(u32::MAX)) {
        Some(tick) => tick as u32,
        None => 0,
    }
}

/// What is known of the session, or `None` if it was never begun. The clause is about trees whose
/// last session has a number below 2^32.
pub(crate) fn session(tree: &Tree, session: SessionId) -> Option<SessionFacts>
    ensures { (c : Configuration) (s : State) → IsStored c s tree.now →
        tree.now.begun < 2 ^ 32 → result ≡ session_of session s }
{
    if session.0 == u32::MAX {
        return None;
    }
    let Some(bytes) = bytes_at(tree, Place::Session(session)) else {
        return None;
    };
    match SessionRecord::read(bytes) {
        Ok(kept) => Some(SessionFacts {
            role: kept.role,
            live: tree.is_live(session.0 + 1),
            mute: kept.mute,
        }),
        Err(_) => None,
    }
}

/// How many sessions were begun; they count from 1.
pub(crate) fn sessions(tree: &Tree) -> u32
    ensures { (c : Configuration) (s : State) → IsStored c s tree.now →
        result ≡ length s.sessions }
{
    count_at(tree, Place::Sessions)
}

/// The session that is registered for the pool: it owns the node of the registration.
pub(crate) fn registration(tree: &Tree, pool: PoolId) -> Option<SessionId>
    ensures { (c : Configuration) (s : State) → IsStored c s tree.now →
        result ≡ registered pool s.registrations }
{
    let Some(owner) = owner_at(tree, Place::Launcher(pool)) else {
        return None;
    };
    if owner == 0 {
        return None;
    }
    Some(SessionId(owner - 1))
}

/// How many registrations there are.
pub(crate) fn registrations(tree: &Tree) -> u32
    ensures { (c : Configuration) (s : State) → IsStored c s tree.now →
        result ≡ length s.registrations }
{
    count_at(tree, Place::Launchers)
}

/// The registration at a place, in the order of the pools. Walks the pools of the configuration, and
/// finds the node of each.
pub(crate) fn registration_at(tree: &Tree, config: &Config, at: u32) -> Option<Registration>
    ensures { (s : State) → IsStored config.now s tree.now →
        result ≡ slice_get s.registrations at }
{
    config.know_soundness();
    let mut left = at;
    for number in 0..u16::MAX {
        let pool = PoolId(number);
        let Some(_) = config.pool(pool) else {
            return None;
        };
        let Some(session) = registration(tree, pool) else {
            continue;
        };
        if left == 0 {
            return Some(Registration { pool, session });
        }
        left -= 1;
    }
    None
}
