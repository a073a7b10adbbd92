//! Words, each determined by its first byte.
ghost use Rattle.std.specs.Prelude.{◌≡◌, ◌++◌, ◌∷◌, [], OnOk, codes};
ghost use Rattle.std.specs.Fmt.{decimal};
ghost use Rattle.np_spelling.specs.Lower.{role_kind_word};
ghost use Rattle.np_spelling.specs.Reading.{chosen, flag_by, role_kind_by, role_name_in, role_of};
ghost use Rattle.np_spelling.specs.Spelling.{flag_text, joined, role_name};

use crate::cursor::Cursor;
use crate::text::{put, put_number_behind};
use np_text::{Ample, PoolId, RequesterId, Role, RoleKind};

/// The word of a flag.
pub(crate) fn flag_word(flag: bool) -> &'static [u8]
    ensures { result.now ≡ flag_text flag }
{
    if flag { b"true" } else { b"false" }
}

#[inline(always)]
#[tactic(auto, unfolding(crate::specs::Reading::chosen))]
pub(crate) fn flag(cursor: &mut Cursor) -> Option<bool>
    ensures { chosen flag_by flag_text cursor.old ≡ (result, cursor.new) }
{
    let flag = cursor.first() == b't';
    cursor.lead(flag_word(flag))?;
    Some(flag)
}

fn role_kind_by(first: u8) -> RoleKind
    ensures { result ≡ role_kind_by first }
{
    match first {
        b'l' => RoleKind::Launcher,
        b'j' => RoleKind::Janitor,
        _ => RoleKind::Requester,
    }
}

#[inline(always)]
#[tactic(auto, unfolding(crate::specs::Reading::chosen))]
fn role_kind(cursor: &mut Cursor) -> Option<RoleKind>
    ensures { chosen role_kind_by role_kind_word cursor.old ≡ (result, cursor.new) }
{
    let kind = role_kind_by(cursor.first());
    cursor.lead(kind.word().as_bytes())?;
    Some(kind)
}

fn role_of(kind: RoleKind, number: u16) -> Role
    ensures { result ≡ role_of kind number }
{
    match kind {
        RoleKind::Launcher => Role::Launcher(PoolId(number)),
        RoleKind::Janitor => Role::Janitor(PoolId(number)),
        RoleKind::Requester => Role::Requester(RequesterId(number)),
    }
}

/// A role's kind, a dash and its number.
#[inline(always)]
#[tactic(auto, unfolding(crate::specs::Reading::role_name_in))]
pub(crate) fn role_name(cursor: &mut Cursor) -> Option<Role>
    ensures { role_name_in cursor.old ≡ (result, cursor.new) }
{
    let kind = role_kind(cursor)?;
    let number = cursor.u16_behind(b"-")?;
    Some(role_of(kind, number))
}

/// Appends a role's kind, a dash and its number, and nothing for the reaper.
pub(crate) fn put_role_name(out: &mut Vec<u8>, role: Role) -> Ample
    ensures { OnOk result (out.new.items ≡ out.old.items ++ role_name role) }
{
    match role {
        Role::Launcher(pool) => put_kind_and_number(out, RoleKind::Launcher, pool.0),
        Role::Janitor(pool) => put_kind_and_number(out, RoleKind::Janitor, pool.0),
        Role::Requester(requester) => put_kind_and_number(out, RoleKind::Requester, requester.0),
        Role::Reaper => Ok(()),
    }
}

fn put_kind_and_number(out: &mut Vec<u8>, kind: RoleKind, number: u16) -> Ample
    ensures { OnOk result (out.new.items ≡ out.old.items ++ joined (role_kind_word kind ∷ codes "-" ∷ decimal number ∷ [])) }
{
    put(out, kind.word().as_bytes())?;
    put_number_behind(out, b"-", u64::from(number))
}
