//! Laws on the spellings. Nothing here runs: each function states a theorem.
ghost use Rattle.std.specs.Prelude.{◌≡◌, ℕ, List};
ghost use Rattle.np_spelling.specs.Spelling.{IsJob, IsNode, IsRequest, IsRole, IsSession, SpellsJob, SpellsNode, SpellsRequest, SpellsRole, SpellsSession, job_text, node_text, request_record_text, role_text, session_text};

use np_record::{JobRecord, NodeRecord, RequestRecord, RoleRecord, SessionRecord};

/// What is written for a record is a spelling of it. So it is read as that record again.
pub fn what_is_written_is_a_spelling()
    ensures requests { (r : RequestRecord) → IsRequest r → SpellsRequest r (request_record_text r) }
    ensures nodes { (n : NodeRecord) → IsNode n → SpellsNode n (node_text n) }
    ensures jobs { (j : JobRecord) → IsJob j → SpellsJob j (job_text j) }
    ensures roles { (r : RoleRecord) → IsRole r → SpellsRole r (role_text r) }
    ensures sessions { (s : SessionRecord) → IsSession s → SpellsSession s (session_text s) }
{}

/// Bytes spell at most one record of a kind.
pub fn a_spelling_has_one_value()
    ensures requests { (a b : RequestRecord) (bytes : List ℕ) → SpellsRequest a bytes → SpellsRequest b bytes → a ≡ b }
    ensures nodes { (a b : NodeRecord) (bytes : List ℕ) → SpellsNode a bytes → SpellsNode b bytes → a ≡ b }
    ensures jobs { (a b : JobRecord) (bytes : List ℕ) → SpellsJob a bytes → SpellsJob b bytes → a ≡ b }
    ensures roles { (a b : RoleRecord) (bytes : List ℕ) → SpellsRole a bytes → SpellsRole b bytes → a ≡ b }
    ensures sessions { (a b : SessionRecord) (bytes : List ℕ) → SpellsSession a bytes → SpellsSession b bytes → a ≡ b }
{}
