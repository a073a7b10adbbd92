//! The desk.

ghost use Rattle.std.specs.Prelude.{◌≡◌, true, [], ◌∷◌, IfOk, IfErr};
ghost use Rattle.np_desk.specs.Rule.{StartsWith, added};
ghost use Rattle.np_desk.specs.Part.{IsWhole};
ghost use Rattle.np_desk.specs.Step.{DeskView, IsOf, origin_of, IsDesk, desk_view};

use crate::bell::WORDS;
use crate::object::SeqObject;
use crate::pass::Pass;
use crate::rule::Law;
use crate::view::SeatView;
use atomic_table::{Refused, Table};
use std::alloc::Global;
use std::marker::Model;
use std::snapshot::Snapshot;

/// An object at which threads take turns, one at a time, in the order of their tickets. Threads
/// share it by reference, and each has a pass of its own.
#[derive(Drop)]
pub struct Desk<M: SeqObject> {
    pub(crate) table: Table<M, SeatView<M::Fixed, M::Entry>, Snapshot<M>, Law<M>, Global>,
}

impl<M: SeqObject> Model for Desk<M> {
    ghost Value = { DeskView M.Fixed M.Entry };

    ghost view = { λ d. desk_view d.table.shared.table_id
        (origin_of M.fixed M.history d.table.shared.key.value) };

    ghost invariant = { λ d. IsDesk d.table.shared.table_id };
}

/// Memory ran out. The object comes back.
#[derive(Drop)]
pub struct SetUpFailed<M> {
    pub object: M,
}

impl<M: SeqObject> Desk<M> {
    /// Sets up a desk over the object, with a pass that is whole.
    pub fn set_up(alloc: Global, object: M) -> Result<(Desk<M>, Pass<M>), SetUpFailed<M>>
        requires legal { M.legal (M.fixed object) (M.history object) ≡ true }
        ensures desk { IfOk result (λ r. r.0.origin ≡ origin_of M.fixed M.history object) }
        ensures pass { IfOk result (λ r. IsOf r.1 r.0 × IsWhole r.1.part) }
        ensures seen { IfOk result (λ r. (r.1.seen ≡ M.history object) × (r.1.mine ≡ [])) }
        ensures err { IfErr result (λ e. e.object ≡ object) }
    {
        let about = Snapshot::of(&object);
        let Ok(mut slots) = Vec::with_capacity(alloc, 1) else {
            return Err(SetUpFailed { object });
        };
        slots.push_reserved(object);
        match Table::new(alloc, &[0; WORDS], slots, &about) {
            Ok((table, seat)) => Ok((Desk { table }, Pass { seat })),
            Err(Refused { mut slots }) => {
                let object = slots.pop().unwrap();
                slots.destroy_empty();
                Err(SetUpFailed { object })
            }
        }
    }

    /// Gives the object back. The pass is whole, so no turn is under way.
    pub fn close(self, pass: Pass<M>) -> M
        requires own { IsOf pass self }
        requires whole { IsWhole pass.part }
        ensures fixed { M.fixed result ≡ self.origin.fixed }
        ensures legal { M.legal self.origin.fixed (M.history result) ≡ true }
        ensures history { StartsWith (M.history result) pass.seen }
        ensures mine { pass.mine ≡ added self.origin.history (M.history result) }
    {
        let Desk { table } = self;
        let Pass { seat } = pass;
        let mut closed = table.close_with(seat);
        let object = closed.take(0);
        closed.free();
        object
    }
}
