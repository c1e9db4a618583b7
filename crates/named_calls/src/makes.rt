//! Stores that make prepared calls.
ghost use Rattle.std.specs.Prelude.{◌≡◌, ◌≢◌, ◌⊎◌, ◌↔◌, ◌<◌, ℕ, List, length, Result, Err};
ghost use Rattle.std.specs.Prelude.{IfOk, IfErr, IsOk};
ghost use Rattle.sealed.specs.declared.fault.Fault.{Fault};
ghost use Rattle.sealed.specs.Layout.{stripe_count};
ghost use Rattle.history.specs.Step.{Operation, put as put_of, repair as repair_of};
ghost use Rattle.history.specs.History.{History};
ghost use Rattle.book.specs.declared.answer.Answer.{Answer};
ghost use Rattle.book.specs.Holds.{IsCallFault};
ghost use Rattle.requests.specs.Requests.{operation_of, IsFaultOf};
ghost use Rattle.shared.specs.Requests.{IsGrantedTo, WantedFor};
ghost use Rattle.named_calls.specs.Asked.{CanAskIn, request_name};

use book::{Answer, Fault, Name};
use bytes::Bytes;
use lrc_code::Code;
use requests::Request;
use sealed::{Width, seal_as, seal_copy};
use std::alloc::Global;

/// A store that makes prepared calls, and repairs, without waiting. `TryCalls` are its calls by
/// name. What waits is in `Waits` and `WaitingCalls`, so that a static library can do without it.
///
/// An instance says what its callers see of a call: with which history it is legal, in which list
/// of more stores it stands, and what `Busy` means.
pub trait Makes {
    /// A caller's pass to the store.
    type Pass;

    // The pass is one to this store.
    ghost is_to: { Self → Self.Pass → Type 0 };

    // The legal history that the pass has seen where a name's blobs are.
    ghost seen: { Self.Pass → List ℕ → History };

    // How many bytes the fragments of a name's blob have.
    ghost width: { Self → List ℕ → ℕ };

    // The call had this result, with the pass before and after it.
    ghost called: { Self.Pass → Operation → Result Answer Fault → Self.Pass → Type 0 };

    // The call is in the list of what was done in several stores.
    ghost listed: { Self.Pass → Operation → Result Answer Fault → Self.Pass → Type 0 };

    // A call that does not wait found another thread in the critical section.
    ghost busy: { Self.Pass → Operation → Self.Pass → Type 0 };

    // A repair that does not wait found one there, before or after it looked.
    ghost busy_repair: { Self.Pass → List ℕ → ℕ → ℕ → Self.Pass → Type 0 };

    // A call entered the critical section once.
    ghost entered: { Self.Pass → Operation → Self.Pass → Type 0 };

    // A repair entered it once or twice.
    ghost entered_to_repair: { Self.Pass → Operation → Self.Pass → Type 0 };

    // No other pass is out.
    ghost lone: { Self.Pass → Type 0 };

    /// The width of all its fragments.
    fn width(&self) -> Width
        ensures { (n : List ℕ) → width self.now n ≡ result };

    /// The answer to a put that was refused before it entered a critical section: sealing was out
    /// of memory, or the blob is too long. The pass is as it was.
    fn refuse(&self, pass: &Self::Pass, fault: Fault) -> Result<Answer, Fault>
        requires { is_to self.now pass.now }
        ensures refused { result ≡ Err fault }
        ensures called { (n : List ℕ) (code : Code) (b : List ℕ)
            → (fault ≡ Fault.NoMemory) ⊎ (fault ≡ Fault.TooLong)
            → (fault ≡ Fault.TooLong → 4096 < stripe_count code (width self.now n) (length b))
            → called pass.now (put_of n code b) (Err fault) pass.now }
        ensures listed { (n : List ℕ) (code : Code) (b : List ℕ)
            → (fault ≡ Fault.NoMemory) ⊎ (fault ≡ Fault.TooLong)
            → listed pass.now (put_of n code b) (Err fault) pass.now };

    /// Makes a prepared call, if no other thread is in the critical section. If one is there, it
    /// gives the request back as it was, so that the call can be made again. With a pass that is
    /// the only one it never does.
    ///
    /// The reply is that of the call: its answer, `JournalFull` if the journal holds as many
    /// entries as its limit, or `NoMemory` if out of memory.
    fn try_prepared(
        &self,
        pass: &mut Self::Pass,
        request: Request,
    ) -> Result<Result<Answer, Fault>, Request>
        requires store { is_to self.now pass.old }
        requires can { CanAskIn (seen pass.old (request_name request))
            (width self.now (request_name request)) request }
        ensures called { IfOk result
            (λ reply. called pass.old (operation_of request) reply pass.new) }
        ensures listed { IfOk result
            (λ reply. listed pass.old (operation_of request) reply pass.new) }
        ensures same { is_to self.now pass.new }
        ensures granted { IfOk result (λ reply. IfOk reply (IsGrantedTo
            (seen pass.new (request_name request))
            (width self.now (request_name request)) request)) }
        ensures no_memory { IfOk result (λ reply. reply ≡ Err Fault.NoMemory
            → WantedFor (seen pass.new (request_name request))
            (width self.now (request_name request)) request) }
        ensures faults { IfOk result (λ reply. IfErr reply (IsFaultOf request)) }
        ensures entered { IfOk result (λ _. entered pass.old (operation_of request) pass.new) }
        ensures unchanged { IfErr result (λ r. r ≡ request) }
        ensures refused { IfErr result
            (λ _. called pass.old (operation_of request) (Err Fault.Busy) pass.new) }
        ensures unlisted { IfErr result
            (λ _. listed pass.old (operation_of request) (Err Fault.Busy) pass.new) }
        ensures busy { IfErr result (λ _. busy pass.old (operation_of request) pass.new) }
        ensures lone { lone pass.old → IsOk result };

    /// As `repair`, if no other thread is in the critical section at either time. Else `Busy`. If
    /// the second time is `Busy`, the pass may have seen more.
    fn try_repair(
        &self,
        alloc: Global,
        pass: &mut Self::Pass,
        name: Name,
        stripe: u64,
        fragment: u64,
    ) -> Result<Answer, Fault>
        requires { is_to self.now pass.old }
        ensures called { called pass.old (repair_of name stripe fragment) result pass.new }
        ensures listed { listed pass.old (repair_of name stripe fragment) result pass.new }
        ensures same { is_to self.now pass.new }
        ensures faults { IfErr result (λ e. (e ≡ Fault.Busy) ⊎ IsCallFault e) }
        ensures busy { result ≡ Err Fault.Busy
            → busy_repair pass.old name stripe fragment pass.new }
        ensures entered { result ≢ Err Fault.Busy
            → entered_to_repair pass.old (repair_of name stripe fragment) pass.new }
        ensures lone { lone pass.old → result ≢ Err Fault.Busy };

    /// Prepares a put of a blob under a name, in this code. It seals the blob in the store's width,
    /// and enters no critical section. Every pass to the store can make the request. The data
    /// fragments lie in `bytes`, without a copy, if the blob fills a stripe.
    ///
    /// `TooLong` if the blob needs more than 4,096 stripes, before anything is allocated; else
    /// `NoMemory` if out of memory.
    final fn prepare_put(
        &self,
        alloc: Global,
        name: Name,
        bytes: Bytes,
        code: Code,
    ) -> Result<Request, Fault>
        ensures put { IfOk result (λ r. operation_of r ≡ put_of name code bytes) }
        ensures can { IfOk result (λ r. (v : Self.Pass)
            → CanAskIn (seen v name) (width self.now name) r) }
        ensures refusals { IfOk result (λ r. (e : Fault) → IsFaultOf r e ↔ IsCallFault e) }
        ensures too_long { (result ≡ Err Fault.TooLong)
            ↔ (4096 < stripe_count code (width self.now name) (length bytes)) }
        ensures faults { IfErr result (λ e. (e ≡ Fault.NoMemory) ⊎ (e ≡ Fault.TooLong)) }
    {
        let sealed = seal_as(alloc, bytes, self.width(), code)?;
        Ok(Request::Put {
            alloc,
            name,
            sealed,
        })
    }

    /// As `prepare_put`, of a copy of the bytes, which is made as the blob is sealed.
    final fn prepare_copy(
        &self,
        alloc: Global,
        name: Name,
        bytes: &[u8],
        code: Code,
    ) -> Result<Request, Fault>
        ensures put { IfOk result (λ r. operation_of r ≡ put_of name code bytes.now) }
        ensures can { IfOk result (λ r. (v : Self.Pass)
            → CanAskIn (seen v name) (width self.now name) r) }
        ensures refusals { IfOk result (λ r. (e : Fault) → IsFaultOf r e ↔ IsCallFault e) }
        ensures too_long { (result ≡ Err Fault.TooLong)
            ↔ (4096 < stripe_count code (width self.now name) (length bytes.now)) }
        ensures faults { IfErr result (λ e. (e ≡ Fault.NoMemory) ⊎ (e ≡ Fault.TooLong)) }
    {
        let sealed = seal_copy(alloc, bytes, self.width(), code)?;
        Ok(Request::Put {
            alloc,
            name,
            sealed,
        })
    }
}
