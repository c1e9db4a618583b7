//! The lost fragments in parts.
ghost use Rattle.std.specs.Prelude.{◌≡◌, ◌≢◌, ◌⊎◌, ◌+◌, None, take, IfOk, IfErr};
ghost use Rattle.std.specs.Option.{option_map};
ghost use Rattle.history.specs.History.{state_of};
ghost use Rattle.book.specs.Plan.{plan_of, items_after};
ghost use Rattle.shared.specs.Deeds.{Takes};
ghost use Rattle.shared.specs.Passes.{FindsBusy, VisitsOnce};

use crate::{Pass, Store};
use book::{Fault, Item, Plan};
use requests::PlanPartVisit;
use std::alloc::Global;
use std::sync::Wait;

impl Store {
    /// A part of the plan: the first `most` of its items that come behind `after`, or the first
    /// `most` if it is `None`. A caller passes the last item of the part before. A part of fewer
    /// than `most` items is the last. It is no call of the history.
    ///
    /// `NoMemory` if there is no memory for the list.
    pub fn plan_part<R: Wait>(
        &self,
        rt: &R,
        alloc: Global,
        pass: &mut Pass,
        after: Option<&Item>,
        most: usize,
    ) -> Result<Plan, Fault>
        requires { pass.old.store ≡ self.now }
        ensures takes { Takes pass.old None pass.new }
        ensures ok { IfOk result (λ p. p.items.items ≡ take most
            (items_after (option_map (λ i. i.now) after.entry)
            (plan_of (state_of pass.new.seen)))) }
        ensures faults { IfErr result (λ e. e ≡ Fault.NoMemory) }
    {
        let visit = PlanPartVisit { alloc, after, most };
        self.gate.make_visit(rt, &mut pass.seat, visit)
    }

    /// As `plan_part`, if no other thread is in the critical section. Else `Busy`, as `try_plan`
    /// says.
    pub fn try_plan_part(
        &self,
        alloc: Global,
        pass: &mut Pass,
        after: Option<&Item>,
        most: usize,
    ) -> Result<Plan, Fault>
        requires { pass.old.store ≡ self.now }
        ensures takes { Takes pass.old None pass.new }
        ensures ok { IfOk result (λ p. p.items.items ≡ take most
            (items_after (option_map (λ i. i.now) after.entry)
            (plan_of (state_of pass.new.seen)))) }
        ensures faults { IfErr result (λ e. (e ≡ Fault.Busy) ⊎ (e ≡ Fault.NoMemory)) }
        ensures busy { result ≡ Err Fault.Busy → FindsBusy pass.old pass.new }
        ensures entered { result ≢ Err Fault.Busy → VisitsOnce pass.old pass.new }
        ensures lone { pass.old.room ≡ 64 → result ≢ Err Fault.Busy }
    {
        let visit = PlanPartVisit { alloc, after, most };
        let Ok(reply) = self.gate.try_visit(&mut pass.seat, visit) else {
            return Err(Fault::Busy);
        };
        reply
    }
}
