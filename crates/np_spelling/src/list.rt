//! Lists in brackets, read into rows.
ghost use Rattle.std.specs.Prelude.{◌≡◌, ℕ, ◌+◌, ◌-◌, ◌^◌, ◌<◌, ◌≤◌, [], ◌++◌, List, Option, OnOk, length};
ghost use Rattle.std.specs.Option.{option_map};
ghost use Rattle.np_spelling.specs.Reading.{declined_in, label_in, list_in, marked_in, node_id_in, reason_in, rest_in, with_front};
ghost use Rattle.np_spelling.specs.Spelling.{declined_text, label_text, list_text, marked_text, node_id_text, rest_text};

use crate::cursor::Cursor;
use crate::text::{put, put_number_between};
use crate::word::{flag, flag_word};
use np_record::{Declined, Item, Marked, Row};
use np_text::{Ample, LabelId, NodeId, PoolId, Reason, put_number, put_reason};

/// An item of a list.
pub(crate) trait Part: Item {
    /// How it is read.
    ghost reads: { List ℕ → Option Self × List ℕ };

    /// How it is written.
    ghost word: { Self → List ℕ };

    /// Appends an item.
    fn put_part(self, out: &mut Vec<u8>) -> Ample
        ensures { OnOk result (out.new.items ≡ out.old.items ++ Self.word self) };

    /// Passes an item.
    fn part(cursor: &mut Cursor) -> Option<Self>
        ensures { Self.reads cursor.old ≡ (result, cursor.new) };
}

/// Passes at most `room` further items, and the bracket.
fn rest<T: Part, const N: usize>(cursor: &mut Cursor, row: &mut Row<T, N>, room: u32) -> Option<()>
    requires { length row.old + room ≤ N }
    ensures { with_front row.old (rest_in T.reads room cursor.old) ≡ (option_map (λ passed. row.new) result, cursor.new) }
{
    for at in 0..room {
        if cursor.begins(b']') {
            return cursor.lead(b"]");
        }
        cursor.lead(b",")?;
        let item = T::part(cursor)?;
        row.push(item);
    }
    cursor.lead(b"]")
}

/// Passes a list in brackets, and puts its items into an empty row.
#[tactic(auto, unfolding(crate::specs::Reading::list_in))]
fn list<T: Part, const N: usize>(cursor: &mut Cursor, row: &mut Row<T, N>) -> Option<()>
    requires empty { row.old ≡ [] }
    requires some { 0 < N }
    requires few { N < 2 ^ 32 }
    ensures { list_in T.reads (N - 1) cursor.old ≡ (option_map (λ passed. row.new) result, cursor.new) }
{
    cursor.lead(b"[")?;
    if cursor.begins(b']') {
        return cursor.lead(b"]");
    }
    let item = T::part(cursor)?;
    row.push(item);
    rest(cursor, row, N as u32 - 1)
}

/// Passes a list in brackets of at most `N` items.
pub(crate) fn row<T: Part, const N: usize>(cursor: &mut Cursor) -> Option<Row<T, N>>
    requires some { 0 < N }
    requires few { N < 2 ^ 32 }
    ensures { list_in T.reads (N - 1) cursor.old ≡ (result, cursor.new) }
{
    let mut row = Row::new();
    list(cursor, &mut row)?;
    Some(row)
}

/// Appends further items, each after a comma, and the bracket.
#[tactic(auto, using(crate::proofs::Readers::writing))]
fn put_rest<T: Part>(out: &mut Vec<u8>, items: &[T]) -> Ample
    ensures { OnOk result (out.new.items ≡ out.old.items ++ rest_text T.word items.now) }
{
    for item in items {
        put(out, b",")?;
        (*item).put_part(out)?;
    }
    put(out, b"]")
}

/// Appends a list in brackets.
pub(crate) fn put_list<T: Part>(out: &mut Vec<u8>, items: &[T]) -> Ample
    ensures { OnOk result (out.new.items ≡ out.old.items ++ list_text T.word items.now) }
{
    let [first, others @ ..] = items else {
        return put(out, b"[]");
    };
    put(out, b"[")?;
    (*first).put_part(out)?;
    put_rest(out, others)
}

impl Part for LabelId {
    ghost reads = { label_in };

    ghost word = { label_text };

    fn put_part(self, out: &mut Vec<u8>) -> Ample {
        put_number(out, u64::from(self.0))
    }

    #[tactic(auto, unfolding(crate::specs::Reading::label_in))]
    fn part(cursor: &mut Cursor) -> Option<LabelId> {
        Some(LabelId(cursor.u16()?))
    }
}

impl Part for NodeId {
    ghost reads = { node_id_in };

    ghost word = { node_id_text };

    fn put_part(self, out: &mut Vec<u8>) -> Ample {
        put_number(out, u64::from(self.0))
    }

    #[tactic(auto, unfolding(crate::specs::Reading::node_id_in))]
    fn part(cursor: &mut Cursor) -> Option<NodeId> {
        Some(NodeId(cursor.u32()?))
    }
}

impl Part for Marked {
    ghost reads = { marked_in };

    ghost word = { marked_text };

    fn put_part(self, out: &mut Vec<u8>) -> Ample {
        put_number_between(out, b"[", u64::from(self.node.0), b",")?;
        put(out, flag_word(self.ended))?;
        put(out, b"]")
    }

    #[tactic(auto, unfolding(crate::specs::Reading::marked_in))]
    fn part(cursor: &mut Cursor) -> Option<Marked> {
        let node = cursor.u32_behind(b"[")?;
        cursor.lead(b",")?;
        let ended = flag(cursor)?;
        cursor.lead(b"]")?;
        Some(Marked {
            node: NodeId(node),
            ended,
        })
    }
}

#[tactic(auto, unfolding(crate::specs::Reading::reason_in))]
fn reason(cursor: &mut Cursor) -> Option<Reason>
    ensures { reason_in cursor.old ≡ (result, cursor.new) }
{
    if cursor.begins(b's') {
        return Some(Reason::Spent(NodeId(cursor.u32_behind(b"spent-n")?)));
    }
    if cursor.begins(b't') {
        return cursor.spelled(b"tenant-never-fits", Reason::TenantNeverFits);
    }
    cursor.lead(b"n")?;
    if cursor.begins(b'o') {
        return Some(Reason::NoLabel(LabelId(cursor.u16_behind(b"o-label-l")?)));
    }
    cursor.spelled(b"ever-fits", Reason::NeverFits)
}

impl Part for Declined {
    ghost reads = { declined_in };

    ghost word = { declined_text };

    fn put_part(self, out: &mut Vec<u8>) -> Ample {
        put_number_between(out, b"[", u64::from(self.pool.0), b",\"")?;
        put_reason(out, self.reason)?;
        put(out, b"\"]")
    }

    #[tactic(auto, unfolding(crate::specs::Reading::declined_in))]
    fn part(cursor: &mut Cursor) -> Option<Declined> {
        let pool = cursor.u16_behind(b"[")?;
        cursor.lead(b",\"")?;
        let reason = reason(cursor)?;
        cursor.lead(b"\"]")?;
        Some(Declined {
            pool: PoolId(pool),
            reason,
        })
    }
}
