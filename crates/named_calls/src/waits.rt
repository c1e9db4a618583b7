//! Stores that make prepared calls once they are free.
ghost use Rattle.std.specs.Prelude.{◌≡◌, Err, IfOk, IfErr};
ghost use Rattle.history.specs.Step.{repair as repair_of};
ghost use Rattle.book.specs.Holds.{IsCallFault};
ghost use Rattle.requests.specs.Requests.{operation_of, IsFaultOf};
ghost use Rattle.shared.specs.Requests.{IsGrantedTo, WantedFor};
ghost use Rattle.named_calls.specs.Asked.{CanAskIn, request_name};

use crate::Makes;
use book::{Answer, Fault, Name};
use requests::Request;
use std::alloc::Global;
use std::sync::Wait;

/// A store that makes prepared calls, and repairs, once no other thread is in the critical section.
/// `WaitingCalls` are its calls by name.
pub trait Waits: Makes {
    /// Makes a prepared call, once no other thread is in the critical section. The answer is that
    /// of the call with its name: `put_as` after `prepare_put`, `read` for `Request::Read`, and so
    /// on. `repair` makes an install.
    ///
    /// `JournalFull` if the journal holds as many entries as its limit; else `NoMemory` if out of
    /// memory. `TooLong` and `Busy` never come. The request is used up, also by a fault.
    fn make<R: Wait>(
        &self,
        rt: &R,
        pass: &mut Self::Pass,
        request: Request,
    ) -> Result<Answer, Fault>
        requires store { Self.is_to self.now pass.old }
        requires can { CanAskIn (Self.seen pass.old (request_name request))
            (Self.width self.now (request_name request)) request }
        ensures called { Self.called pass.old (operation_of request) result pass.new }
        ensures listed { Self.listed pass.old (operation_of request) result pass.new }
        ensures same { Self.is_to self.now pass.new }
        ensures granted { IfOk result (IsGrantedTo (Self.seen pass.new (request_name request))
            (Self.width self.now (request_name request)) request) }
        ensures no_memory { result ≡ Err Fault.NoMemory
            → WantedFor (Self.seen pass.new (request_name request))
            (Self.width self.now (request_name request)) request }
        ensures faults { IfErr result (IsFaultOf request) };

    /// Rebuilds a lost fragment of a name's blob. If the fragment can be rebuilt, it enters the
    /// critical section twice and rebuilds in between. The answer is then that of the second time.
    ///
    /// The answer is `NoName` if the name has no blob. Else it is `NoFragment` if the blob has no
    /// such stripe, or its code no such fragment. Else it is `NotLost` if the fragment is there.
    /// Else it is `Unrecoverable`, with the version, if the remaining fragments do not determine
    /// it. Else it is `Repaired`, with the version.
    ///
    /// `JournalFull` if the journal holds as many entries as its limit; `NoMemory` if out of
    /// memory.
    fn repair<R: Wait>(
        &self,
        rt: &R,
        alloc: Global,
        pass: &mut Self::Pass,
        name: Name,
        stripe: u64,
        fragment: u64,
    ) -> Result<Answer, Fault>
        requires { Self.is_to self.now pass.old }
        ensures called { Self.called pass.old (repair_of name stripe fragment) result pass.new }
        ensures listed { Self.listed pass.old (repair_of name stripe fragment) result pass.new }
        ensures same { Self.is_to self.now pass.new }
        ensures faults { IfErr result IsCallFault };
}
