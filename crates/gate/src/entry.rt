//! The critical section, with the work that is done in it as a value.
ghost use Rattle.std.specs.Prelude.{◌≡◌, ◌<◌, false, length, Some, List, IfOk, IfErr};
ghost use Rattle.std.specs.Prelude.{IsOk};
ghost use mathlib.Core.List.{IsPrefix};
ghost use Rattle.gate.specs.Places.{last_of, IsChain, HasAll};
ghost use Rattle.gate.specs.Visits.{IsVisit};

use crate::gate::{Gate, Seat};
use crate::view::Follows;
use std::sync::Wait;

/// What a thread does with the value of a gate in the critical section.
pub trait Visit<T> {
    /// What it answers.
    type Reply;

    // It can be done on this value.
    ghost can: { Self → T → Type 0 };

    // The value found, the value left, and the reply.
    ghost does: { Self → T → T → Self.Reply → Type 0 };

    /// Does it.
    fn visit(self, value: &mut T) -> Self::Reply
        requires can { can self value.old }
        ensures does { does self value.old value.new result };
}

impl<T: Follows> Gate<T> {
    /// Enters once no other thread is in the critical section, does the work on the value that was
    /// left last, leaves, and wakes a thread that waits.
    pub fn make_visit<R: Wait, V: Visit<T>>(&self, rt: &R, seat: &mut Seat<T>, work: V) -> V::Reply
        requires gate { seat.old.gate ≡ self.now }
        requires outside { seat.old.inside ≡ false }
        requires can { (list : List T) (x : T) → IsPrefix seat.old.list list
            → IsChain T.follows list → last_of list ≡ Some x
            → (seat.old.room ≡ 64 → HasAll list seat.old.own) → V.can work x }
        requires follows { (x y : T) (reply : V.Reply) → V.can work x → V.does work x y reply
            → T.follows x y }
        ensures visited { IsVisit T.follows (V.does work) seat.old seat.new result }
    {
        let mut inside = self.enter(rt, seat);
        let reply = work.visit(&mut inside.value);
        self.leave(seat, inside);
        self.wake();
        reply
    }

    /// As `make_visit`, if no other thread is in the critical section. Else it gives the work back
    /// as it was, which never comes with a room of 64.
    pub fn try_visit<V: Visit<T>>(&self, seat: &mut Seat<T>, work: V) -> Result<V::Reply, V>
        requires gate { seat.old.gate ≡ self.now }
        requires outside { seat.old.inside ≡ false }
        requires can { (list : List T) (x : T) → IsPrefix seat.old.list list
            → IsChain T.follows list → last_of list ≡ Some x
            → (seat.old.room ≡ 64 → HasAll list seat.old.own) → V.can work x }
        requires follows { (x y : T) (reply : V.Reply) → V.can work x → V.does work x y reply
            → T.follows x y }
        ensures visited { IfOk result
            (λ reply. IsVisit T.follows (V.does work) seat.old seat.new reply) }
        ensures expected { IfOk result (λ _. seat.old.expected_length < length seat.new.list) }
        ensures unchanged { IfErr result (λ back. back ≡ work) }
        ensures busy { IfErr result (λ _. (length seat.old.list < seat.new.expected_length)
            × (seat.new ≡ record seat.old { expected_length = seat.new.expected_length })) }
        ensures lone { seat.old.room ≡ 64 → IsOk result }
    {
        let Some(mut inside) = self.try_enter(seat) else {
            return Err(work);
        };
        let reply = work.visit(&mut inside.value);
        self.leave(seat, inside);
        Ok(reply)
    }
}
