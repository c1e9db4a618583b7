//! Calls that are prepared outside the critical section, and can be tried more than once.
ghost use Rattle.std.specs.Prelude.{◌≡◌, ◌⊎◌, ◌↔◌, ◌<◌, ℕ, List, Err, length, IfOk, IfErr};
ghost use Rattle.std.specs.Prelude.{IsOk};
ghost use Rattle.sealed.specs.Blob.{nothing};
ghost use Rattle.sealed.specs.Layout.{stripe_count};
ghost use Rattle.sealed.specs.Sealed.{StandsFor};
ghost use Rattle.history.specs.Step.{put as put_of};
ghost use Rattle.book.specs.Holds.{IsCallFault};
ghost use Rattle.requests.specs.Requests.{operation_of, IsFaultOf};
ghost use Rattle.shared.specs.Calls.{Called};
ghost use Rattle.shared.specs.Passes.{FindsBusy, VisitsOnce};
ghost use Rattle.shared.specs.Requests.{CanAsk, IsGrantedTo, WantedFor};

use crate::{Pass, Store};
use book::{Answer, Fault, Name};
use bytes::Bytes;
use lrc_code::Code;
use requests::{Request, RequestVisit};
use sealed::{Sealed, Width, seal_as, seal_copy};
use std::alloc::Global;

impl Store {
    /// The width of its fragments.
    pub fn width(&self) -> Width
        ensures { result ≡ self.now.width }
    {
        self.width
    }

    /// Seals a blob for a put, in this code and the store's width. It enters no critical section.
    /// The data fragments lie in `bytes`, without a copy, if the blob fills a stripe.
    ///
    /// `TooLong` if the blob needs more than 4,096 stripes, before anything is allocated; else
    /// `NoMemory` if out of memory.
    pub fn seal(&self, alloc: Global, bytes: Bytes, code: Code) -> Result<Sealed, Fault>
        ensures bytes { IfOk result (λ s. StandsFor s bytes nothing) }
        ensures shape { IfOk result (λ s. (s.width ≡ self.now.width) × (s.code ≡ code)) }
        ensures too_long { (result ≡ Err Fault.TooLong)
            ↔ (4096 < stripe_count code self.now.width (length bytes)) }
        ensures faults { IfErr result (λ e. (e ≡ Fault.NoMemory) ⊎ (e ≡ Fault.TooLong)) }
    {
        seal_as(alloc, bytes, self.width, code)
    }

    /// As `seal`, of a copy of the bytes, which is made as the blob is sealed.
    pub fn seal_copy(&self, alloc: Global, bytes: &[u8], code: Code) -> Result<Sealed, Fault>
        ensures bytes { IfOk result (λ s. StandsFor s bytes.now nothing) }
        ensures shape { IfOk result (λ s. (s.width ≡ self.now.width) × (s.code ≡ code)) }
        ensures too_long { (result ≡ Err Fault.TooLong)
            ↔ (4096 < stripe_count code self.now.width (length bytes.now)) }
        ensures faults { IfErr result (λ e. (e ≡ Fault.NoMemory) ⊎ (e ≡ Fault.TooLong)) }
    {
        seal_copy(alloc, bytes, self.width, code)
    }

    /// Puts a sealed blob under a name, if no other thread is in the critical section. The answer
    /// is as that of `put_as`. If another thread is there, it gives the blob back as it was, so
    /// that it can be put again. With a room of 64 it never does.
    pub fn try_put_sealed(
        &self,
        alloc: Global,
        pass: &mut Pass,
        name: Name,
        sealed: Sealed,
    ) -> Result<Result<Answer, Fault>, Sealed>
        requires store { pass.old.store ≡ self.now }
        requires width { sealed.width ≡ self.now.width }
        requires whole { (b : List ℕ) × StandsFor sealed b nothing }
        ensures called { IfOk result (λ reply. (b : List ℕ) → StandsFor sealed b nothing
            → Called pass.old (put_of name sealed.code b) reply pass.new) }
        ensures faults { IfOk result (λ reply. IfErr reply IsCallFault) }
        ensures entered { IfOk result (λ _. VisitsOnce pass.old pass.new) }
        ensures unchanged { IfErr result (λ s. s ≡ sealed) }
        ensures refused { IfErr result (λ _. (b : List ℕ)
            → Called pass.old (put_of name sealed.code b) (Err Fault.Busy) pass.new) }
        ensures busy { IfErr result (λ _. FindsBusy pass.old pass.new) }
        ensures lone { pass.old.room ≡ 64 → IsOk result }
    {
        let request = Request::Put {
            alloc,
            name,
            sealed,
        };
        match self.try_prepared(pass, request) {
            Ok(reply) => Ok(reply),
            Err(Request::Put { sealed, .. }) => Err(sealed),
            Err(_) => unreachable!(),
        }
    }

    /// Makes a prepared call, if no other thread is in the critical section. If one is there, it
    /// gives the request back as it was, so that the call can be made again. With a room of 64 it
    /// never does.
    ///
    /// The reply is that of the call: its answer, `JournalFull` if the journal holds as many
    /// entries as its limit, or `NoMemory` if out of memory.
    pub fn try_prepared(
        &self,
        pass: &mut Pass,
        request: Request,
    ) -> Result<Result<Answer, Fault>, Request>
        requires store { pass.old.store ≡ self.now }
        requires can { CanAsk pass.old request }
        ensures called { IfOk result
            (λ reply. Called pass.old (operation_of request) reply pass.new) }
        ensures granted { IfOk result
            (λ reply. IfOk reply (IsGrantedTo pass.new.seen self.now.width request)) }
        ensures no_memory { IfOk result (λ reply. reply ≡ Err Fault.NoMemory
            → WantedFor pass.new.seen self.now.width request) }
        ensures faults { IfOk result (λ reply. IfErr reply (IsFaultOf request)) }
        ensures entered { IfOk result (λ _. VisitsOnce pass.old pass.new) }
        ensures unchanged { IfErr result (λ r. r ≡ request) }
        ensures refused { IfErr result
            (λ _. Called pass.old (operation_of request) (Err Fault.Busy) pass.new) }
        ensures busy { IfErr result (λ _. FindsBusy pass.old pass.new) }
        ensures lone { pass.old.room ≡ 64 → IsOk result }
    {
        let who = pass.who;
        let visit = RequestVisit { who, request };
        let visit = match self.gate.try_visit(&mut pass.seat, visit) {
            Ok(reply) => return Ok(reply),
            Err(visit) => visit,
        };
        Err(visit.request)
    }
}
