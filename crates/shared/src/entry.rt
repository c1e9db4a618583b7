//! One call in the critical section.
ghost use Rattle.std.specs.Prelude.{◌≡◌, ◌≢◌, ◌⊎◌, ◌+◌, IfOk, IfErr};
ghost use Rattle.shared.specs.Calls.{Called};
ghost use Rattle.shared.specs.Passes.{FindsBusy, VisitsOnce};
ghost use Rattle.requests.specs.Requests.{operation_of, IsFaultOf};
ghost use Rattle.shared.specs.Requests.{CanAsk, IsGrantedTo, WantedFor};

use crate::{Pass, Store};
use book::{Answer, Fault};
use requests::{Request, RequestVisit};
use std::sync::Wait;

impl Store {
    /// Makes a prepared call, once no other thread is in the critical section. The answer is that
    /// of the call with its name: `put_as` after `prepare_put`, `read` for `Request::Read`, and so
    /// on. `repair` makes an install.
    ///
    /// `JournalFull` if the journal holds as many entries as its limit; else `NoMemory` if out of
    /// memory. `TooLong` and `Busy` never come. The request is used up, also by a fault.
    pub fn make<R: Wait>(&self, rt: &R, pass: &mut Pass, request: Request) -> Result<Answer, Fault>
        requires store { pass.old.store ≡ self.now }
        requires can { CanAsk pass.old request }
        ensures called { Called pass.old (operation_of request) result pass.new }
        ensures granted { IfOk result (IsGrantedTo pass.new.seen self.now.width request) }
        ensures no_memory { result ≡ Err Fault.NoMemory
            → WantedFor pass.new.seen self.now.width request }
        ensures faults { IfErr result (IsFaultOf request) }
    {
        let who = pass.who;
        let visit = RequestVisit { who, request };
        self.gate.make_visit(rt, &mut pass.seat, visit)
    }

    /// As `make`, if no other thread is in the critical section. Else `Busy`, which never comes
    /// with a room of 64: another thread has been in the critical section since the pass was, or is
    /// there now. The request is lost; `try_prepared` gives it back.
    pub(crate) fn try_make(&self, pass: &mut Pass, request: Request) -> Result<Answer, Fault>
        requires store { pass.old.store ≡ self.now }
        requires can { CanAsk pass.old request }
        ensures called { Called pass.old (operation_of request) result pass.new }
        ensures granted { IfOk result (IsGrantedTo pass.new.seen self.now.width request) }
        ensures no_memory { result ≡ Err Fault.NoMemory
            → WantedFor pass.new.seen self.now.width request }
        ensures faults { IfErr result (λ e. (e ≡ Fault.Busy) ⊎ IsFaultOf request e) }
        ensures busy { result ≡ Err Fault.Busy → FindsBusy pass.old pass.new }
        ensures entered { result ≢ Err Fault.Busy → VisitsOnce pass.old pass.new }
        ensures lone { pass.old.room ≡ 64 → result ≢ Err Fault.Busy }
    {
        match self.try_prepared(pass, request) {
            Ok(reply) => reply,
            Err(_) => Err(Fault::Busy),
        }
    }
}
