//! Stores whose lost fragments workers repair.
ghost use Rattle.std.specs.Prelude.{Result, IfOk, IfErr};
ghost use Rattle.sealed.specs.declared.fault.Fault.{Fault};
ghost use Rattle.book.specs.declared.answer.Answer.{Answer};
ghost use Rattle.book.specs.declared.plan.Item.{Item};
ghost use Rattle.book.specs.Holds.{IsCallFault};
ghost use Rattle.mender.specs.Answers.{IsOfRepair};
ghost use Rattle.mender.specs.Made.{BelongsTo, IsRepaired};

use book::{Answer, Fault, Item};
use shared::{Pass, Store};
use std::alloc::Global;
use std::sync::Wait;

/// A store whose lost fragments workers repair.
pub trait Mends {
    /// A caller's pass to the store.
    type Pass;

    // The pass is one to this store.
    ghost belongs: { Self → Self.Pass → Type 0 };

    // The repair of an item had this result, with the pass before and after it.
    ghost repaired: { Self.Pass → Item → Result Answer Fault → Self.Pass → Type 0 };

    /// Repairs the fragment that an item names, of whatever blob its name then has.
    fn repair_item<R: Wait>(
        &self,
        rt: &R,
        alloc: Global,
        pass: &mut Self::Pass,
        item: &Item,
    ) -> Result<Answer, Fault>
        requires { belongs self.now pass.old }
        ensures belongs { belongs self.now pass.new }
        ensures repaired { repaired pass.old item.now result pass.new }
        ensures answer { IfOk result IsOfRepair }
        ensures faults { IfErr result IsCallFault };
}

impl Mends for Store {
    type Pass = Pass;

    ghost belongs = { BelongsTo };

    ghost repaired = { IsRepaired };

    fn repair_item<R: Wait>(
        &self,
        rt: &R,
        alloc: Global,
        pass: &mut Pass,
        item: &Item,
    ) -> Result<Answer, Fault> {
        let (name, fragment) = (item.name.duplicate(), u64::from(item.f));
        self.repair(rt, alloc, pass, name, item.stripe, fragment)
    }
}
