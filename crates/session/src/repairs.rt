//! The repairs of a plan, one by one.
ghost use Rattle.std.specs.Prelude.{◌≡◌, ◌≢◌, ◌↔◌, [], length, drop, IsTrue};
ghost use Rattle.std.specs.List.{last_or, slice_get};
ghost use Rattle.std.specs.Option.{option_map};
ghost use Rattle.session.specs.RepairStep.{IsRepairStep};

use crate::Session;
use shared::{Answer, Fault, Item, Plan};
use std::alloc::Global;
use std::collections::VecDeque;
use std::marker::Model;

/// The items of a part of a plan that are still to be repaired. A clause sees them, the next one
/// first, and the part's last item, behind which the next part begins.
#[derive(Drop)]
pub struct Repairs {
    items: VecDeque<Item>,
    last: Option<Item>,
}

impl Model for Repairs {
    ghost use Rattle.session.specs.Rest.{Rest};

    ghost Value = { Rest };

    ghost view = { λ r. record { items = r.items.items; last = r.last } };
}

impl Repairs {
    /// All items of the part of a plan that comes behind `after`, or of its first part, in the
    /// plan's order.
    pub fn of(plan: Plan, after: Option<Item>) -> Repairs
        ensures items { result.items ≡ plan.items.items }
        ensures last { result.last ≡ last_or after plan.items.items }
    {
        let items = VecDeque::from(plan.items);
        let last = match items.back() {
            Some(item) => Some(item.duplicate()),
            None => after,
        };
        Repairs { items, last }
    }

    /// Takes in the part that comes behind this one, in place of what remains of it.
    pub fn follow(&mut self, plan: Plan)
        ensures items { self.new.items ≡ plan.items.items }
        ensures last { self.new.last ≡ last_or self.old.last plan.items.items }
    {
        let after = self.last.take();
        *self = Repairs::of(plan, after);
    }

    /// The last item of the part. If the part has none, the item behind which it begins.
    pub fn last(&self) -> Option<&Item>
        ensures { option_map (λ i. i.now) result ≡ self.now.last }
    {
        self.last.as_ref()
    }

    /// The number of remaining items.
    pub fn len(&self) -> u64
        ensures { result ≡ length self.now.items }
    {
        self.items.len() as u64
    }

    /// The remaining item at an index, from 0.
    pub fn get(&self, index: usize) -> Option<&Item>
        ensures { option_map (λ i. i.now) result ≡ slice_get self.now.items index }
    {
        self.items.get(index)
    }

    /// Repairs the next item, or returns `None` if there is none. After an error the item is still
    /// the next one.
    pub fn step(&mut self, session: &mut Session, alloc: Global) -> Option<Result<Answer, Fault>>
        ensures step { IsRepairStep self.old.items session.old result self.new.items session.new }
        ensures last { self.new.last ≡ self.old.last }
    {
        let item = self.items.front()?;
        let (name, stripe, fragment) = (item.name.duplicate(), item.stripe, u64::from(item.f));
        let reply = session.repair(alloc, name, stripe, fragment);
        if reply.is_ok() {
            let _item = self.items.pop_front();
        }
        Some(reply)
    }

    /// Leaves out the next item, and returns whether there was one.
    pub fn skip(&mut self) -> bool
        ensures items { self.new.items ≡ drop 1 self.old.items }
        ensures some { IsTrue result ↔ (self.old.items ≢ []) }
        ensures last { self.new.last ≡ self.old.last }
    {
        self.items.pop_front().is_some()
    }
}
