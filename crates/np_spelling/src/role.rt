//! The records of roles.
ghost use Rattle.std.specs.Prelude.{◌≡◌, ℕ, List, Ok, IfOk, IfErr, OnOk, ◌++◌, length};
ghost use Rattle.np_spelling.specs.Reading.{answer, role_in};
ghost use Rattle.np_spelling.specs.Spelling.{IsRole, SpellsRole, StopsAt, role_text};

use crate::cursor::Cursor;
use crate::fault::BadRecord;
use crate::kind::Record;
use crate::text::{put, put_u32_behind};
use np_record::RoleRecord;
use np_text::{Ample, NoMemory};
use std::alloc::Global;

#[tactic(auto, unfolding(crate::specs::Reading::role_in))]
fn role(cursor: &mut Cursor) -> Option<RoleRecord>
    ensures { role_in cursor.old ≡ (result, cursor.new) }
{
    let acts = cursor.u32_behind(b"{\"acts\":")?;
    let starts = cursor.u32_behind(b",\"starts\":")?;
    let strikes = cursor.u32_behind(b",\"strikes\":")?;
    let role = RoleRecord {
        acts,
        starts,
        strikes,
    };
    cursor.spelled(b"}", role)
}

fn read_role(bytes: &[u8]) -> Result<RoleRecord, BadRecord>
    ensures { result ≡ answer (length bytes.now) (role_in bytes.now).0 (role_in bytes.now).1 }
{
    let mut cursor = Cursor::new(bytes);
    let found = role(&mut cursor);
    cursor.answer(bytes.len(), found)
}

fn put_role(out: &mut Vec<u8>, role: &RoleRecord) -> Ample
    ensures { OnOk result (out.new.items ≡ out.old.items ++ role_text role.now) }
{
    put_u32_behind(out, b"{\"acts\":", role.acts)?;
    put_u32_behind(out, b",\"starts\":", role.starts)?;
    put_u32_behind(out, b",\"strikes\":", role.strikes)?;
    put(out, b"}")
}

impl Record for RoleRecord {
    ghost is_sound = { IsRole };

    ghost spells = { SpellsRole };

    ghost written = { role_text };

    #[tactic(auto, using(crate::proofs::Records::role_law))]
    fn read(bytes: &[u8]) -> Result<RoleRecord, BadRecord> {
        read_role(bytes)
    }

    fn text(&self, alloc: Global) -> Result<Vec<u8>, NoMemory> {
        let mut out = Vec::new(alloc);
        put_role(&mut out, self)?;
        Ok(out)
    }
}
