//! The critical section of a shard, with the work that is done in it as a value.
ghost use Rattle.std.specs.Prelude.{◌≡◌, ◌<◌, ℕ, ◌++◌, false, length, List, Some, IfOk, IfErr};
ghost use Rattle.std.specs.Prelude.{IsOk};
ghost use mathlib.Core.List.{IsPrefix};
ghost use Rattle.gate.specs.Places.{last_of, IsChain, HasAll as HasAllPlaces};
ghost use Rattle.ledger.specs.declared.held.Held.{Held};
ghost use Rattle.ledger.specs.Acts.{AreLegal, IsWithin, HasAll};
ghost use Rattle.ledger.specs.Values.{MayFollowHeld, KeepsAll};
ghost use Rattle.ledger.specs.Visits.{IsListedVisit};

use crate::held::{Changes, Held};
use crate::ledger::{Follower, Ledger};
use crate::view::Lawful;
use gate::{Gate, Seat, Visit};
use std::sync::Wait;

impl<A: Lawful> Ledger<A> {
    /// Enters a shard's lock once no other thread is in its critical section, does the work on the
    /// value, records the acts between the value found and the value left, leaves, and wakes a
    /// thread that waits.
    pub fn make_visit<T: Changes<A>, R: Wait, V: Visit<T>>(
        &self,
        rt: &R,
        gate: &Gate<Held<T, A>>,
        seat: &mut Seat<Held<T, A>>,
        follower: &mut Follower<A>,
        work: V,
    ) -> V::Reply
        requires gate { seat.old.gate ≡ gate.now }
        requires outside { seat.old.inside ≡ false }
        requires ledger { follower.old.ledger ≡ self.now }
        requires keeps { (k : ℕ) × KeepsAll T.between self.now.table k seat.old.list }
        requires can { (list : List (Held T A)) (x : Held T A) → IsPrefix seat.old.list list
            → IsChain (MayFollowHeld T.between T.follows) list → last_of list ≡ Some x
            → (seat.old.room ≡ 64 → HasAllPlaces list seat.old.own) → V.can work x.value }
        requires follows { (x y : T) (reply : V.Reply) → V.can work x → V.does work x y reply
            → T.follows x y }
        requires legal { (list : List (Held T A)) (x : Held T A) (y : T) (reply : V.Reply)
            → IsPrefix seat.old.list list → IsChain (MayFollowHeld T.between T.follows) list
            → last_of list ≡ Some x → (seat.old.room ≡ 64 → HasAllPlaces list seat.old.own)
            → V.does work x.value y reply
            → A.legal self.now.setup x.keeper.shard x.keeper.acts
            → A.legal self.now.setup x.keeper.shard (x.keeper.acts ++ T.between x.value y) }
        ensures visited { IsListedVisit T.between T.follows (V.does work) self.now.table
            seat.old seat.new follower.old follower.new result }
        ensures earlier { IsWithin follower.old.list follower.old.own }
        ensures legal { AreLegal (A.legal self.now.setup) follower.new.list }
        ensures lone { follower.new.room ≡ 64 → HasAll follower.new.list follower.new.own }
    {
        let mut inside = gate.enter(rt, seat);
        let reply = work.visit(&mut inside.value.value);
        self.leave(gate, seat, follower, inside);
        gate.wake();
        reply
    }

    /// As `make_visit`, if no other thread is in the critical section. Else it gives the work back
    /// as it was, which never comes with a room of 64, and nothing is recorded.
    pub fn try_visit<T: Changes<A>, V: Visit<T>>(
        &self,
        gate: &Gate<Held<T, A>>,
        seat: &mut Seat<Held<T, A>>,
        follower: &mut Follower<A>,
        work: V,
    ) -> Result<V::Reply, V>
        requires gate { seat.old.gate ≡ gate.now }
        requires outside { seat.old.inside ≡ false }
        requires ledger { follower.old.ledger ≡ self.now }
        requires keeps { (k : ℕ) × KeepsAll T.between self.now.table k seat.old.list }
        requires can { (list : List (Held T A)) (x : Held T A) → IsPrefix seat.old.list list
            → IsChain (MayFollowHeld T.between T.follows) list → last_of list ≡ Some x
            → (seat.old.room ≡ 64 → HasAllPlaces list seat.old.own) → V.can work x.value }
        requires follows { (x y : T) (reply : V.Reply) → V.can work x → V.does work x y reply
            → T.follows x y }
        requires legal { (list : List (Held T A)) (x : Held T A) (y : T) (reply : V.Reply)
            → IsPrefix seat.old.list list → IsChain (MayFollowHeld T.between T.follows) list
            → last_of list ≡ Some x → (seat.old.room ≡ 64 → HasAllPlaces list seat.old.own)
            → V.does work x.value y reply
            → A.legal self.now.setup x.keeper.shard x.keeper.acts
            → A.legal self.now.setup x.keeper.shard (x.keeper.acts ++ T.between x.value y) }
        ensures visited { IfOk result (λ reply. IsListedVisit T.between T.follows (V.does work)
            self.now.table seat.old seat.new follower.old follower.new reply) }
        ensures expected { IfOk result (λ _. seat.old.expected_length < length seat.new.list) }
        ensures earlier { IfOk result (λ _. IsWithin follower.old.list follower.old.own) }
        ensures legal { IfOk result (λ _. AreLegal (A.legal self.now.setup) follower.new.list) }
        ensures all { IfOk result
            (λ _. follower.new.room ≡ 64 → HasAll follower.new.list follower.new.own) }
        ensures unchanged { IfErr result (λ back. (back ≡ work) × (follower.new ≡ follower.old)) }
        ensures busy { IfErr result (λ _. (length seat.old.list < seat.new.expected_length)
            × (seat.new ≡ record seat.old { expected_length = seat.new.expected_length })) }
        ensures lone { seat.old.room ≡ 64 → IsOk result }
    {
        let Some(mut inside) = gate.try_enter(seat) else {
            return Err(work);
        };
        let reply = work.visit(&mut inside.value.value);
        self.leave(gate, seat, follower, inside);
        Ok(reply)
    }
}
