//! The calls that wait until no thread is in the critical section. After a fault the call is in no
//! history, and the pass may have seen more.

// Contracts repeat, here and in `try_calls`, since a caller sees only that of the call that it
// makes.

ghost use Rattle.std.specs.Prelude.{◌≡◌, ◌⊎◌, ◌↔◌, ◌<◌, Err, length, IfOk, IfErr};
ghost use Rattle.sealed.specs.Layout.{stripe_count};
ghost use Rattle.history.specs.Step.{put as put_of, read as read_of, lose as lose_of};
ghost use Rattle.history.specs.Step.{repair as repair_of, restore as restore_of};
ghost use Rattle.history.specs.Step.{delete as delete_of, stat as stat_of};
ghost use Rattle.book.specs.Holds.{IsCallFault};
ghost use Rattle.book.specs.Known.{IsFragmentIn};
ghost use Rattle.shared.specs.Calls.{CanGrant, GrantedIn, IfGranted};

use crate::Waits;
use book::{Answer, Fault, Name};
use bytes::Bytes;
use lrc_code::Code;
use requests::Request;
use std::alloc::Global;
use std::sync::Wait;

/// The calls by name that wait.
pub trait WaitingCalls: Waits {
    /// Stores a blob under a name in LRC(12,2,2), as `put_as` does.
    final fn put<R: Wait>(
        &self,
        rt: &R,
        alloc: Global,
        pass: &mut Self::Pass,
        name: Name,
        bytes: Bytes,
    ) -> Result<Answer, Fault>
        requires { Self.is_to self.now pass.old }
        ensures called { Self.called pass.old (put_of name Code.Wide bytes) result pass.new }
        ensures listed { Self.listed pass.old (put_of name Code.Wide bytes) result pass.new }
        ensures same { Self.is_to self.now pass.new }
        ensures too_long { (result ≡ Err Fault.TooLong)
            ↔ (4096 < stripe_count Code.Wide (Self.width self.now name) (length bytes)) }
        ensures faults { IfErr result (λ e. IsCallFault e ⊎ (e ≡ Fault.TooLong)) }
    {
        self.put_as(rt, alloc, pass, name, bytes, Code::Wide)
    }

    /// Stores a blob under a name in this code, in place of the one that the name had. The answer
    /// is `Stored`, with the number of this put. The blob is sealed before the critical section.
    ///
    /// `TooLong` if the blob needs more than 4,096 stripes, before anything is allocated;
    /// `JournalFull` if the journal holds as many entries as its limit; `NoMemory` if out of
    /// memory.
    final fn put_as<R: Wait>(
        &self,
        rt: &R,
        alloc: Global,
        pass: &mut Self::Pass,
        name: Name,
        bytes: Bytes,
        code: Code,
    ) -> Result<Answer, Fault>
        requires { Self.is_to self.now pass.old }
        ensures called { Self.called pass.old (put_of name code bytes) result pass.new }
        ensures listed { Self.listed pass.old (put_of name code bytes) result pass.new }
        ensures same { Self.is_to self.now pass.new }
        ensures too_long { (result ≡ Err Fault.TooLong)
            ↔ (4096 < stripe_count code (Self.width self.now name) (length bytes)) }
        ensures faults { IfErr result (λ e. IsCallFault e ⊎ (e ≡ Fault.TooLong)) }
    {
        match self.prepare_put(alloc, name, bytes, code) {
            Ok(request) => self.make(rt, pass, request),
            Err(fault) => self.refuse(pass, fault),
        }
    }

    /// As `put_as`, of a copy of the bytes, which is made as the blob is sealed.
    final fn put_copy<R: Wait>(
        &self,
        rt: &R,
        alloc: Global,
        pass: &mut Self::Pass,
        name: Name,
        bytes: &[u8],
        code: Code,
    ) -> Result<Answer, Fault>
        requires { Self.is_to self.now pass.old }
        ensures called { Self.called pass.old (put_of name code bytes.now) result pass.new }
        ensures listed { Self.listed pass.old (put_of name code bytes.now) result pass.new }
        ensures same { Self.is_to self.now pass.new }
        ensures too_long { (result ≡ Err Fault.TooLong)
            ↔ (4096 < stripe_count code (Self.width self.now name) (length bytes.now)) }
        ensures faults { IfErr result (λ e. IsCallFault e ⊎ (e ≡ Fault.TooLong)) }
    {
        match self.prepare_copy(alloc, name, bytes, code) {
            Ok(request) => self.make(rt, pass, request),
            Err(fault) => self.refuse(pass, fault),
        }
    }

    /// Grants `len` bytes of the blob of a name, from the byte `start` on. A grant holds the blob
    /// as it was, whatever later calls do.
    ///
    /// The answer is `NoName` if the name has no blob. Else it is `OutOfRange` if the range does
    /// not lie inside the blob. Else it is `Unrecoverable`, with the version, if a byte of the
    /// range is in an unrecoverable fragment. Else it is `Granted`.
    ///
    /// `JournalFull` if the journal holds as many entries as its limit; `NoMemory` only in place of
    /// `Granted`, if one more owner of the blob was refused.
    final fn read<R: Wait>(
        &self,
        rt: &R,
        pass: &mut Self::Pass,
        name: Name,
        start: u64,
        len: u64,
    ) -> Result<Answer, Fault>
        requires { Self.is_to self.now pass.old }
        ensures called { Self.called pass.old (read_of name start len) result pass.new }
        ensures listed { Self.listed pass.old (read_of name start len) result pass.new }
        ensures same { Self.is_to self.now pass.new }
        ensures grant { IfOk result (λ a. IfGranted a
            (GrantedIn (Self.seen pass.new name) (Self.width self.now name) name start len)) }
        ensures no_memory { result ≡ Err Fault.NoMemory
            → CanGrant (Self.seen pass.new name) (Self.width self.now name) name start len }
        ensures faults { IfErr result IsCallFault }
    {
        self.make(rt, pass, Request::Read { name, start, len })
    }

    /// Loses a fragment of a name's blob: only earlier grants lend its bytes. Their memory is freed
    /// with the last of the blob.
    ///
    /// The answer is `NoName` if the name has no blob. Else it is `NoFragment` if the blob has no
    /// such stripe, or its code no such fragment. Else it is `AlreadyLost` if it was lost before.
    /// Else it is `Lost`, with the version.
    ///
    /// `JournalFull` if the journal holds as many entries as its limit; else `NoMemory` if out of
    /// memory.
    final fn lose<R: Wait>(
        &self,
        rt: &R,
        alloc: Global,
        pass: &mut Self::Pass,
        name: Name,
        stripe: u64,
        fragment: u64,
    ) -> Result<Answer, Fault>
        requires { Self.is_to self.now pass.old }
        ensures called { Self.called pass.old (lose_of name stripe fragment) result pass.new }
        ensures listed { Self.listed pass.old (lose_of name stripe fragment) result pass.new }
        ensures same { Self.is_to self.now pass.new }
        ensures faults { IfErr result IsCallFault }
    {
        let loss = Request::Lose {
            alloc,
            name,
            stripe,
            fragment,
        };
        self.make(rt, pass, loss)
    }

    /// Restores a lost fragment with the given bytes, whatever else is lost: those that it has in
    /// the blob that was put under this name and version. They may come from a snapshot, another
    /// device or another machine. It enters the critical section once, and rebuilds nothing.
    ///
    /// The answer is `NoName` if the name has no blob, and `Replaced`, with the version of its
    /// blob, if that is another one. Else it is `NoFragment` if the blob has no such stripe, or its
    /// code no such fragment. Else it is `NotLost` if the fragment is there. Else it is `Repaired`,
    /// with the version.
    ///
    /// `JournalFull` if the journal holds as many entries as its limit; `NoMemory` if out of
    /// memory.
    final fn restore<R: Wait>(
        &self,
        rt: &R,
        alloc: Global,
        pass: &mut Self::Pass,
        name: Name,
        version: u64,
        stripe: u64,
        fragment: u64,
        bytes: Bytes,
    ) -> Result<Answer, Fault>
        requires store { Self.is_to self.now pass.old }
        requires known { IsFragmentIn (Self.seen pass.old name) (Self.width self.now name) name
            version stripe fragment bytes }
        ensures called { Self.called pass.old (restore_of name version stripe fragment) result
            pass.new }
        ensures listed { Self.listed pass.old (restore_of name version stripe fragment) result
            pass.new }
        ensures same { Self.is_to self.now pass.new }
        ensures faults { IfErr result IsCallFault }
    {
        let restoration = Request::Restore {
            alloc,
            name,
            version,
            stripe,
            fragment,
            bytes,
        };
        self.make(rt, pass, restoration)
    }

    /// Deletes a name. The answer is `NoName` if the name has no blob, else `Deleted`, with the
    /// version of the blob that it had. It does not allocate.
    ///
    /// `JournalFull` if the journal holds as many entries as its limit.
    final fn delete<R: Wait>(
        &self,
        rt: &R,
        pass: &mut Self::Pass,
        name: Name,
    ) -> Result<Answer, Fault>
        requires { Self.is_to self.now pass.old }
        ensures called { Self.called pass.old (delete_of name) result pass.new }
        ensures listed { Self.listed pass.old (delete_of name) result pass.new }
        ensures same { Self.is_to self.now pass.new }
        ensures faults { IfErr result (λ e. e ≡ Fault.JournalFull) }
    {
        self.make(rt, pass, Request::Delete { name })
    }

    /// Answers the shape of a name's blob: `NoName` if the name has no blob, else `Shape`, with how
    /// many bytes, stripes and lost fragments the blob has. It does not allocate.
    ///
    /// `JournalFull` if the journal holds as many entries as its limit.
    final fn stat<R: Wait>(
        &self,
        rt: &R,
        pass: &mut Self::Pass,
        name: Name,
    ) -> Result<Answer, Fault>
        requires { Self.is_to self.now pass.old }
        ensures called { Self.called pass.old (stat_of name) result pass.new }
        ensures listed { Self.listed pass.old (stat_of name) result pass.new }
        ensures same { Self.is_to self.now pass.new }
        ensures faults { IfErr result (λ e. e ≡ Fault.JournalFull) }
    {
        self.make(rt, pass, Request::Stat { name })
    }
}
