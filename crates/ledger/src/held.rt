//! A lock of a shard, whose value lies beside the shard's keeper. The acts between two values that
//! are left one after the other are recorded in the ledger.
ghost use Rattle.std.specs.Prelude.{◌≡◌, ◌+◌, ℕ, false, true, ◌++◌, ◌∷◌, [], length, Some, None};
ghost use Rattle.std.specs.Prelude.{IfOk, IfSome, IfNone};
ghost use mathlib.Core.List.{IsPrefix};
ghost use Rattle.gate.specs.Places.{last_of, HasAll as HasAllPlaces, IsWithin as IsWithinPlaces};
ghost use Rattle.ledger.specs.Acts.{IsRecorded, acts_at, AreLegal, IsWithin, HasAll};
ghost use Rattle.ledger.specs.Values.{MayFollowHeld, KeepsAll, acts_left, acts_to, left_beside};

use crate::ledger::{Follower, Keeper, Ledger};
use crate::steps::ActChoice;
use crate::view::Lawful;
use gate::{Follows, Gate, Inside, NoMemory, Seat};
use std::alloc::Global;
use std::marker::Brand;
use std::sync::Wait;

/// The acts between two values, of which the second may follow the first. It has no call.
pub trait Changes<A>: Follows {
    ghost use Rattle.std.specs.Prelude.{List};

    ghost between: { Self → Self → List A };
}

/// A value under a shard's lock, and the shard's keeper.
#[derive(Drop)]
pub struct Held<T, A> {
    pub value: T,
    pub keeper: Keeper<A>,
}

impl<T: Changes<A>, A> Follows for Held<T, A> {
    ghost use Rattle.ledger.specs.Values.{MayFollowHeld};

    ghost follows = { MayFollowHeld T.between T.follows };
}

impl<A: Lawful> Ledger<A> {
    /// Makes a shard's lock over a value and the shard's keeper, which has recorded nothing. The
    /// seat has a room of 64. `NoMemory` if out of memory, and then value and keeper are dropped.
    pub fn open_gate<T: Changes<A> + Drop>(
        &self,
        alloc: Global,
        keeper: Keeper<A>,
        value: T,
    ) -> Result<(Gate<Held<T, A>>, Seat<Held<T, A>>), NoMemory>
        requires ledger { keeper.ledger ≡ self.now.table }
        requires none { keeper.acts ≡ [] }
        ensures seat { IfOk result (λ r. r.1 ≡ record {
          gate = r.0;
          list = record { value = value; keeper = keeper } ∷ [];
          own = [];
          room = 64;
          inside = false;
          expected_length = 0;
        }) }
        ensures keeps { IfOk result (λ r. KeepsAll T.between self.now.table keeper.shard r.1.list) }
    {
        match Gate::new(alloc, Held { value, keeper }) {
            Ok((gate, seat)) => Ok((gate, seat)),
            Err(error) => Err(error),
        }
    }

    /// Leaves a value. The acts between the value that was found and this one are the next acts of
    /// the shard. In the list of all shards they stand after all that the follower had seen.
    pub(crate) fn leave<T: Changes<A>>(
        &self,
        gate: &Gate<Held<T, A>>,
        seat: &mut Seat<Held<T, A>>,
        follower: &mut Follower<A>,
        inside: Inside<Held<T, A>>,
    )
        requires gate { seat.old.gate ≡ gate.now }
        requires inside { seat.old.inside ≡ true }
        requires ledger { (follower.old.ledger ≡ self.now)
            × (inside.value.keeper.ledger ≡ self.now.table) }
        requires found { IfSome (last_of seat.old.list) (λ found.
            T.follows found.value inside.value.value × (inside.value.keeper ≡ found.keeper)) }
        requires legal { A.legal self.now.setup inside.value.keeper.shard inside.value.keeper.acts
            → A.legal self.now.setup inside.value.keeper.shard (inside.value.keeper.acts
            ++ acts_to T.between seat.old.list inside.value.value) }
        ensures unchanged { (seat.new.gate ≡ seat.old.gate) × (seat.new.room ≡ seat.old.room)
            × (seat.new.inside ≡ false) }
        ensures list { seat.new.list ≡ seat.old.list ++ left_beside inside.value
            (acts_to T.between seat.old.list inside.value.value) ∷ [] }
        ensures own { seat.new.own ≡ seat.old.own ++ length seat.old.list ∷ [] }
        ensures keeps { (k : ℕ) → KeepsAll T.between self.now.table k seat.old.list
            → KeepsAll T.between self.now.table k seat.new.list }
        ensures recorded { IsRecorded follower.old inside.value.keeper
            (acts_to T.between seat.old.list inside.value.value) follower.new }
        ensures earlier { IsWithin follower.old.list follower.old.own }
        ensures follower { (follower.new.ledger ≡ follower.old.ledger)
            × (follower.new.room ≡ follower.old.room) }
        ensures legal { AreLegal (A.legal self.now.setup) follower.new.list }
        ensures lone { follower.new.room ≡ 64 → HasAll follower.new.list follower.new.own }
    {
        self.leave_with::<Brand, T>(gate, seat, follower, inside)
    }

    fn leave_with<W: ActChoice<A>, T: Changes<A>>(
        &self,
        gate: &Gate<Held<T, A>>,
        seat: &mut Seat<Held<T, A>>,
        follower: &mut Follower<A>,
        inside: Inside<Held<T, A>>,
    )
        requires gate { seat.old.gate ≡ gate.now }
        requires inside { seat.old.inside ≡ true }
        requires ledger { (follower.old.ledger ≡ self.now)
            × (inside.value.keeper.ledger ≡ self.now.table) }
        requires found { IfSome (last_of seat.old.list) (λ found.
            T.follows found.value inside.value.value × (inside.value.keeper ≡ found.keeper)) }
        requires legal { A.legal self.now.setup inside.value.keeper.shard inside.value.keeper.acts
            → A.legal self.now.setup inside.value.keeper.shard
            (inside.value.keeper.acts ++ W.acts) }
        requires setup { W.setup ≡ self.now.setup }
        requires acts { W.acts ≡ acts_to T.between seat.old.list inside.value.value }
        ensures unchanged { (seat.new.gate ≡ seat.old.gate) × (seat.new.room ≡ seat.old.room)
            × (seat.new.inside ≡ false) }
        ensures list { seat.new.list
            ≡ seat.old.list ++ left_beside inside.value W.acts ∷ [] }
        ensures own { seat.new.own ≡ seat.old.own ++ length seat.old.list ∷ [] }
        ensures keeps { (k : ℕ) → KeepsAll T.between self.now.table k seat.old.list
            → KeepsAll T.between self.now.table k seat.new.list }
        ensures recorded { IsRecorded follower.old inside.value.keeper W.acts follower.new }
        ensures earlier { IsWithin follower.old.list follower.old.own }
        ensures follower { (follower.new.ledger ≡ follower.old.ledger)
            × (follower.new.room ≡ follower.old.room) }
        ensures legal { AreLegal (A.legal self.now.setup) follower.new.list }
        ensures lone { follower.new.room ≡ 64 → HasAll follower.new.list follower.new.own }
    {
        let mut inside = inside;
        follower.record::<W>(self, &mut inside.value.keeper);
        gate.leave(seat, inside);
    }

    /// Takes the value that was left last out of a lock whose seats are all joined. The lock may be
    /// shared, and nobody enters it again. The follower has then seen the list of all shards whole.
    /// The acts of this shard in it are those between the values that were left here.
    pub fn take_value<T: Changes<A>>(
        &self,
        gate: &Gate<Held<T, A>>,
        seat: Seat<Held<T, A>>,
        follower: &mut Follower<A>,
    ) -> T
        requires gate { seat.gate ≡ gate.now }
        requires outside { seat.inside ≡ false }
        requires within { IsWithinPlaces seat.list seat.own }
        requires lone { seat.room ≡ 64 }
        requires ledger { follower.old.ledger ≡ self.now }
        requires keeps { (k : ℕ) × KeepsAll T.between self.now.table k seat.list }
        ensures last { IfSome (last_of seat.list) (λ x. x.value ≡ result) }
        ensures own { HasAllPlaces seat.list seat.own }
        ensures acts { (k : ℕ) → KeepsAll T.between self.now.table k seat.list
            → acts_at k follower.new.list ≡ acts_left T.between seat.list }
        ensures unchanged { follower.new ≡ record follower.old { list = follower.new.list } }
        ensures seen { IsPrefix follower.old.list follower.new.list }
        ensures legal { AreLegal (A.legal self.now.setup) follower.new.list }
        ensures all { follower.old.room ≡ 64
            → (follower.new ≡ follower.old) × HasAll follower.new.list follower.new.own }
    {
        let Held { value, mut keeper } = gate.take(seat);
        follower.observe(self, &mut keeper);
        value
    }
}
