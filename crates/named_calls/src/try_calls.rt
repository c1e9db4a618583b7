//! The calls that do not wait. Each is as the one without `try_` in its name, but `Busy` if another
//! thread is in the critical section. A pass that is the only one never finds another there.

// Contracts repeat for the reason that `waiting` gives.

ghost use Rattle.std.specs.Prelude.{◌≡◌, ◌≢◌, ◌⊎◌, ◌↔◌, ◌<◌, Err, length, IfOk, IfErr};
ghost use Rattle.sealed.specs.Layout.{stripe_count};
ghost use Rattle.history.specs.Step.{put as put_of, read as read_of, lose as lose_of};
ghost use Rattle.history.specs.Step.{repair as repair_of, restore as restore_of};
ghost use Rattle.history.specs.Step.{delete as delete_of, stat as stat_of};
ghost use Rattle.book.specs.Holds.{IsCallFault};
ghost use Rattle.book.specs.Known.{IsFragmentIn};
ghost use Rattle.requests.specs.Requests.{operation_of, IsFaultOf};
ghost use Rattle.shared.specs.Calls.{CanGrant, GrantedIn, IfGranted};
ghost use Rattle.shared.specs.Requests.{IsGrantedTo, WantedFor};
ghost use Rattle.named_calls.specs.Asked.{CanAskIn, IsRefusedBefore, request_name};

use crate::Makes;
use book::{Answer, Fault, Name};
use bytes::Bytes;
use lrc_code::Code;
use requests::Request;
use std::alloc::Global;

/// The calls by name that do not wait.
pub trait TryCalls: Makes {
    /// As `make`, if no other thread is in the critical section. Else `Busy`: another thread has
    /// been in the critical section since the pass was, or is there now. The request is lost;
    /// `try_prepared` gives it back.
    final fn try_make(&self, pass: &mut Self::Pass, request: Request) -> Result<Answer, Fault>
        requires store { Self.is_to self.now pass.old }
        requires can { CanAskIn (Self.seen pass.old (request_name request))
            (Self.width self.now (request_name request)) request }
        ensures called { Self.called pass.old (operation_of request) result pass.new }
        ensures listed { Self.listed pass.old (operation_of request) result pass.new }
        ensures same { Self.is_to self.now pass.new }
        ensures granted { IfOk result
            (IsGrantedTo (Self.seen pass.new (request_name request))
            (Self.width self.now (request_name request)) request) }
        ensures no_memory { result ≡ Err Fault.NoMemory
            → WantedFor (Self.seen pass.new (request_name request))
            (Self.width self.now (request_name request)) request }
        ensures faults { IfErr result (λ e. (e ≡ Fault.Busy) ⊎ IsFaultOf request e) }
        ensures busy { result ≡ Err Fault.Busy
            → Self.busy pass.old (operation_of request) pass.new }
        ensures entered { result ≢ Err Fault.Busy
            → Self.entered pass.old (operation_of request) pass.new }
        ensures lone { Self.lone pass.old → result ≢ Err Fault.Busy }
    {
        match self.try_prepared(pass, request) {
            Ok(reply) => reply,
            Err(_) => Err(Fault::Busy),
        }
    }

    /// As `put`, if no other thread is in the critical section. Else `Busy`. The blob is
    /// sealed first.
    final fn try_put(
        &self,
        alloc: Global,
        pass: &mut Self::Pass,
        name: Name,
        bytes: Bytes,
    ) -> Result<Answer, Fault>
        requires { Self.is_to self.now pass.old }
        ensures called { Self.called pass.old (put_of name Code.Wide bytes) result pass.new }
        ensures listed { Self.listed pass.old (put_of name Code.Wide bytes) result pass.new }
        ensures same { Self.is_to self.now pass.new }
        ensures too_long { (result ≡ Err Fault.TooLong)
            ↔ (4096 < stripe_count Code.Wide (Self.width self.now name) (length bytes)) }
        ensures faults { IfErr result
            (λ e. (e ≡ Fault.Busy) ⊎ IsCallFault e ⊎ (e ≡ Fault.TooLong)) }
        ensures busy { result ≡ Err Fault.Busy
            → Self.busy pass.old (put_of name Code.Wide bytes) pass.new }
        ensures entered { result ≢ Err Fault.Busy
            → Self.entered pass.old (put_of name Code.Wide bytes) pass.new
            ⊎ IsRefusedBefore pass.old result pass.new }
        ensures lone { Self.lone pass.old → result ≢ Err Fault.Busy }
    {
        self.try_put_as(alloc, pass, name, bytes, Code::Wide)
    }

    /// As `put_as`, if no other thread is in the critical section. Else `Busy`. The blob is sealed
    /// first.
    final fn try_put_as(
        &self,
        alloc: Global,
        pass: &mut Self::Pass,
        name: Name,
        bytes: Bytes,
        code: Code,
    ) -> Result<Answer, Fault>
        requires { Self.is_to self.now pass.old }
        ensures called { Self.called pass.old (put_of name code bytes) result pass.new }
        ensures listed { Self.listed pass.old (put_of name code bytes) result pass.new }
        ensures same { Self.is_to self.now pass.new }
        ensures too_long { (result ≡ Err Fault.TooLong)
            ↔ (4096 < stripe_count code (Self.width self.now name) (length bytes)) }
        ensures faults { IfErr result
            (λ e. (e ≡ Fault.Busy) ⊎ IsCallFault e ⊎ (e ≡ Fault.TooLong)) }
        ensures busy { result ≡ Err Fault.Busy
            → Self.busy pass.old (put_of name code bytes) pass.new }
        ensures entered { result ≢ Err Fault.Busy
            → Self.entered pass.old (put_of name code bytes) pass.new
            ⊎ IsRefusedBefore pass.old result pass.new }
        ensures lone { Self.lone pass.old → result ≢ Err Fault.Busy }
    {
        match self.prepare_put(alloc, name, bytes, code) {
            Ok(request) => self.try_make(pass, request),
            Err(fault) => self.refuse(pass, fault),
        }
    }

    /// As `put_copy`, if no other thread is in the critical section. Else `Busy`. The blob is
    /// sealed first.
    final fn try_put_copy(
        &self,
        alloc: Global,
        pass: &mut Self::Pass,
        name: Name,
        bytes: &[u8],
        code: Code,
    ) -> Result<Answer, Fault>
        requires { Self.is_to self.now pass.old }
        ensures called { Self.called pass.old (put_of name code bytes.now) result pass.new }
        ensures listed { Self.listed pass.old (put_of name code bytes.now) result pass.new }
        ensures same { Self.is_to self.now pass.new }
        ensures too_long { (result ≡ Err Fault.TooLong)
            ↔ (4096 < stripe_count code (Self.width self.now name) (length bytes.now)) }
        ensures faults { IfErr result
            (λ e. (e ≡ Fault.Busy) ⊎ IsCallFault e ⊎ (e ≡ Fault.TooLong)) }
        ensures busy { result ≡ Err Fault.Busy
            → Self.busy pass.old (put_of name code bytes.now) pass.new }
        ensures entered { result ≢ Err Fault.Busy
            → Self.entered pass.old (put_of name code bytes.now) pass.new
            ⊎ IsRefusedBefore pass.old result pass.new }
        ensures lone { Self.lone pass.old → result ≢ Err Fault.Busy }
    {
        match self.prepare_copy(alloc, name, bytes, code) {
            Ok(request) => self.try_make(pass, request),
            Err(fault) => self.refuse(pass, fault),
        }
    }

    /// As `read`, if no other thread is in the critical section. Else `Busy`.
    final fn try_read(
        &self,
        pass: &mut Self::Pass,
        name: Name,
        start: u64,
        len: u64,
    ) -> Result<Answer, Fault>
        requires { Self.is_to self.now pass.old }
        ensures called { Self.called pass.old (read_of name start len) result pass.new }
        ensures listed { Self.listed pass.old (read_of name start len) result pass.new }
        ensures same { Self.is_to self.now pass.new }
        ensures grant { IfOk result (λ a. IfGranted a
            (GrantedIn (Self.seen pass.new name) (Self.width self.now name) name start len)) }
        ensures no_memory { result ≡ Err Fault.NoMemory
            → CanGrant (Self.seen pass.new name) (Self.width self.now name) name start len }
        ensures faults { IfErr result (λ e. (e ≡ Fault.Busy) ⊎ IsCallFault e) }
        ensures busy { result ≡ Err Fault.Busy
            → Self.busy pass.old (read_of name start len) pass.new }
        ensures entered { result ≢ Err Fault.Busy
            → Self.entered pass.old (read_of name start len) pass.new }
        ensures lone { Self.lone pass.old → result ≢ Err Fault.Busy }
    {
        self.try_make(pass, Request::Read { name, start, len })
    }

    /// As `lose`, if no other thread is in the critical section. Else `Busy`.
    final fn try_lose(
        &self,
        alloc: Global,
        pass: &mut Self::Pass,
        name: Name,
        stripe: u64,
        fragment: u64,
    ) -> Result<Answer, Fault>
        requires { Self.is_to self.now pass.old }
        ensures called { Self.called pass.old (lose_of name stripe fragment) result pass.new }
        ensures listed { Self.listed pass.old (lose_of name stripe fragment) result pass.new }
        ensures same { Self.is_to self.now pass.new }
        ensures faults { IfErr result (λ e. (e ≡ Fault.Busy) ⊎ IsCallFault e) }
        ensures busy { result ≡ Err Fault.Busy
            → Self.busy pass.old (lose_of name stripe fragment) pass.new }
        ensures entered { result ≢ Err Fault.Busy
            → Self.entered pass.old (lose_of name stripe fragment) pass.new }
        ensures lone { Self.lone pass.old → result ≢ Err Fault.Busy }
    {
        let loss = Request::Lose {
            alloc,
            name,
            stripe,
            fragment,
        };
        self.try_make(pass, loss)
    }

    /// As `restore`, if no other thread is in the critical section. Else `Busy`.
    final fn try_restore(
        &self,
        alloc: Global,
        pass: &mut Self::Pass,
        name: Name,
        version: u64,
        stripe: u64,
        fragment: u64,
        bytes: Bytes,
    ) -> Result<Answer, Fault>
        requires store { Self.is_to self.now pass.old }
        requires known { IsFragmentIn (Self.seen pass.old name) (Self.width self.now name) name
            version stripe fragment bytes }
        ensures called { Self.called pass.old (restore_of name version stripe fragment) result
            pass.new }
        ensures listed { Self.listed pass.old (restore_of name version stripe fragment) result
            pass.new }
        ensures same { Self.is_to self.now pass.new }
        ensures faults { IfErr result (λ e. (e ≡ Fault.Busy) ⊎ IsCallFault e) }
        ensures busy { result ≡ Err Fault.Busy
            → Self.busy pass.old (restore_of name version stripe fragment) pass.new }
        ensures entered { result ≢ Err Fault.Busy
            → Self.entered pass.old (restore_of name version stripe fragment) pass.new }
        ensures lone { Self.lone pass.old → result ≢ Err Fault.Busy }
    {
        let restoration = Request::Restore {
            alloc,
            name,
            version,
            stripe,
            fragment,
            bytes,
        };
        self.try_make(pass, restoration)
    }

    /// As `delete`, if no other thread is in the critical section. Else `Busy`.
    final fn try_delete(&self, pass: &mut Self::Pass, name: Name) -> Result<Answer, Fault>
        requires { Self.is_to self.now pass.old }
        ensures called { Self.called pass.old (delete_of name) result pass.new }
        ensures listed { Self.listed pass.old (delete_of name) result pass.new }
        ensures same { Self.is_to self.now pass.new }
        ensures faults { IfErr result (λ e. (e ≡ Fault.Busy) ⊎ (e ≡ Fault.JournalFull)) }
        ensures busy { result ≡ Err Fault.Busy
            → Self.busy pass.old (delete_of name) pass.new }
        ensures entered { result ≢ Err Fault.Busy
            → Self.entered pass.old (delete_of name) pass.new }
        ensures lone { Self.lone pass.old → result ≢ Err Fault.Busy }
    {
        self.try_make(pass, Request::Delete { name })
    }

    /// As `stat`, if no other thread is in the critical section. Else `Busy`.
    final fn try_stat(&self, pass: &mut Self::Pass, name: Name) -> Result<Answer, Fault>
        requires { Self.is_to self.now pass.old }
        ensures called { Self.called pass.old (stat_of name) result pass.new }
        ensures listed { Self.listed pass.old (stat_of name) result pass.new }
        ensures same { Self.is_to self.now pass.new }
        ensures faults { IfErr result (λ e. (e ≡ Fault.Busy) ⊎ (e ≡ Fault.JournalFull)) }
        ensures busy { result ≡ Err Fault.Busy
            → Self.busy pass.old (stat_of name) pass.new }
        ensures entered { result ≢ Err Fault.Busy
            → Self.entered pass.old (stat_of name) pass.new }
        ensures lone { Self.lone pass.old → result ≢ Err Fault.Busy }
    {
        self.try_make(pass, Request::Stat { name })
    }
}
