//! The numbers of the store.
ghost use Rattle.std.specs.Prelude.{◌≡◌, ◌≢◌, ◌-◌, length, None, IfOk, IfErr};
ghost use Rattle.book.specs.Numbers.{AreNumbersOf};
ghost use Rattle.book.specs.Trimming.{journaled};
ghost use Rattle.shared.specs.Deeds.{Takes};
ghost use Rattle.shared.specs.Passes.{FindsBusy, VisitsOnce};

use crate::{Pass, Store};
use book::{Fault, Numbers};
use requests::NumbersVisit;
use std::sync::Wait;

impl Store {
    /// The totals of all blobs, the number of calls, and that of the entries in the journal. They
    /// are held beside the blobs, so that it takes the same time for each store. It is no call of
    /// the history, and does not allocate. The pass may have seen more of the history.
    pub fn numbers<R: Wait>(&self, rt: &R, pass: &mut Pass) -> Numbers
        requires { pass.old.store ≡ self.now }
        ensures takes { Takes pass.old None pass.new }
        ensures holds { AreNumbersOf self.now.width pass.new.seen result }
        ensures entries { result.entries
            ≡ journaled self.now.limit (length pass.new.seen - pass.new.trimmed) }
    {
        self.gate.make_visit(rt, &mut pass.seat, NumbersVisit)
    }

    /// As `numbers`, if no other thread is in the critical section. Else `Busy`, which never comes
    /// with a room of 64: another thread has been in the critical section since the pass was, or is
    /// there now. Every other answer is given from the critical section.
    pub fn try_numbers(&self, pass: &mut Pass) -> Result<Numbers, Fault>
        requires { pass.old.store ≡ self.now }
        ensures takes { Takes pass.old None pass.new }
        ensures ok { IfOk result (AreNumbersOf self.now.width pass.new.seen) }
        ensures entries { IfOk result (λ n. n.entries
            ≡ journaled self.now.limit (length pass.new.seen - pass.new.trimmed)) }
        ensures faults { IfErr result (λ e. e ≡ Fault.Busy) }
        ensures busy { result ≡ Err Fault.Busy → FindsBusy pass.old pass.new }
        ensures entered { result ≢ Err Fault.Busy → VisitsOnce pass.old pass.new }
        ensures lone { pass.old.room ≡ 64 → result ≢ Err Fault.Busy }
    {
        let Ok(numbers) = self.gate.try_visit(&mut pass.seat, NumbersVisit) else {
            return Err(Fault::Busy);
        };
        Ok(numbers)
    }
}
