//! The records of sessions.
ghost use Rattle.std.specs.Prelude.{◌≡◌, ◌++◌, OnOk, length};
ghost use Rattle.np_spelling.specs.Reading.{answer, session_in};
ghost use Rattle.np_spelling.specs.Spelling.{IsSession, SpellsSession, session_text};

use crate::cursor::Cursor;
use crate::fault::BadRecord;
use crate::kind::Record;
use crate::text::put;
use crate::word::{flag, flag_word, put_role_name, role_name};
use np_record::SessionRecord;
use np_text::{Ample, NoMemory};
use std::alloc::Global;

#[tactic(auto, unfolding(crate::specs::Reading::session_in))]
fn session(cursor: &mut Cursor) -> Option<SessionRecord>
    ensures { session_in cursor.old ≡ (result, cursor.new) }
{
    cursor.lead(b"{\"mute\":")?;
    let mute = flag(cursor)?;
    cursor.lead(b",\"role\":\"")?;
    let role = role_name(cursor)?;
    cursor.lead(b"\"}")?;
    Some(SessionRecord { mute, role })
}

fn read_session(bytes: &[u8]) -> Result<SessionRecord, BadRecord>
    ensures { result ≡ answer (length bytes.now) (session_in bytes.now).0 (session_in bytes.now).1 }
{
    let mut cursor = Cursor::new(bytes);
    let found = session(&mut cursor);
    cursor.answer(bytes.len(), found)
}

fn put_session(out: &mut Vec<u8>, session: &SessionRecord) -> Ample
    requires { IsSession session.now }
    ensures { OnOk result (out.new.items ≡ out.old.items ++ session_text session.now) }
{
    put(out, b"{\"mute\":")?;
    put(out, flag_word(session.mute))?;
    put(out, b",\"role\":\"")?;
    put_role_name(out, session.role)?;
    put(out, b"\"}")?;
    Ok(())
}

impl Record for SessionRecord {
    ghost is_sound = { IsSession };

    ghost spells = { SpellsSession };

    ghost written = { session_text };

    #[tactic(auto, using(crate::proofs::Records::session_law))]
    fn read(bytes: &[u8]) -> Result<SessionRecord, BadRecord> {
        read_session(bytes)
    }

    fn text(&self, alloc: Global) -> Result<Vec<u8>, NoMemory> {
        let mut out = Vec::new(alloc);
        put_session(&mut out, self)?;
        Ok(out)
    }
}
