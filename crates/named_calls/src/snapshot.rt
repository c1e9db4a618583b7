//! Snapshots: versions of blobs that are taken out of a store.
ghost use Rattle.std.specs.Prelude.{◌≡◌, ◌≢◌, ◌⊎◌, Err, IfOk, IfErr, IfSome, IfNone};
ghost use Rattle.history.specs.Step.{read as read_of};
ghost use Rattle.book.specs.Holds.{IsCallFault};
ghost use Rattle.shared.specs.Calls.{CanGrant};
ghost use Rattle.shared.specs.Snapshots.{IsVersionIn, HasNoBlob, HasFragmentsOf, version_held_by};
ghost use Rattle.named_calls.specs.Taken.{TakesVersion};

use crate::{Makes, Waits};
use book::{Answer, Fault, Name};
use lent::Snapshot;
use std::sync::Wait;

/// A store of whose blobs snapshots can be taken once it is free.
pub trait WaitingSnapshots: Waits {
    /// Takes a snapshot of the blob of a name, by a read of no byte. The snapshot holds the blob as
    /// it was, whatever later calls do. `None` if the name has no blob. A pass that has seen this
    /// call can restore each fragment of the snapshot.
    ///
    /// `JournalFull` if the journal holds as many entries as its limit; `NoMemory` only in place of
    /// a snapshot, if one more owner of the blob was refused.
    fn snapshot<R: Wait>(
        &self,
        rt: &R,
        pass: &mut Self::Pass,
        name: Name,
    ) -> Result<Option<Snapshot>, Fault>
        requires { Self.is_to self.now pass.old }
        ensures called { TakesVersion Self.called Self.listed pass.old name result pass.new }
        ensures same { Self.is_to self.now pass.new }
        ensures version { IfOk result (λ found. IfSome found
            (IsVersionIn (Self.seen pass.new name) (Self.width self.now name) name)) }
        ensures none { IfOk result
            (λ found. IfNone found (HasNoBlob (Self.seen pass.new name) name)) }
        ensures known { IfOk result (λ found. IfSome found
            (HasFragmentsOf (Self.seen pass.new name) (Self.width self.now name) name)) }
        ensures no_memory { result ≡ Err Fault.NoMemory
            → CanGrant (Self.seen pass.new name) (Self.width self.now name) name 0 0 }
        ensures faults { IfErr result IsCallFault };
}

/// A store of whose blobs snapshots can be taken without waiting.
pub trait TrySnapshots: Makes {
    /// As `snapshot`, if no other thread is in the critical section. Else `Busy`.
    fn try_snapshot(&self, pass: &mut Self::Pass, name: Name) -> Result<Option<Snapshot>, Fault>
        requires { Self.is_to self.now pass.old }
        ensures called { TakesVersion Self.called Self.listed pass.old name result pass.new }
        ensures same { Self.is_to self.now pass.new }
        ensures version { IfOk result (λ found. IfSome found
            (IsVersionIn (Self.seen pass.new name) (Self.width self.now name) name)) }
        ensures none { IfOk result
            (λ found. IfNone found (HasNoBlob (Self.seen pass.new name) name)) }
        ensures known { IfOk result (λ found. IfSome found
            (HasFragmentsOf (Self.seen pass.new name) (Self.width self.now name) name)) }
        ensures no_memory { result ≡ Err Fault.NoMemory
            → CanGrant (Self.seen pass.new name) (Self.width self.now name) name 0 0 }
        ensures faults { IfErr result (λ e. (e ≡ Fault.Busy) ⊎ IsCallFault e) }
        ensures busy { result ≡ Err Fault.Busy → Self.busy pass.old (read_of name 0 0) pass.new }
        ensures entered { result ≢ Err Fault.Busy
            → Self.entered pass.old (read_of name 0 0) pass.new }
        ensures lone { Self.lone pass.old → result ≢ Err Fault.Busy };
}

/// The snapshot that the answer to a read of no byte gives. Such a range lies inside every blob and
/// has no unrecoverable byte, so without a grant the name has no blob.
pub fn snapshot_of(called: Result<Answer, Fault>) -> Result<Option<Snapshot>, Fault>
    ensures { result ≡ version_held_by called }
{
    match called {
        Ok(Answer::Granted(grant)) => Ok(Some(grant.into_snapshot())),
        Ok(_) => Ok(None),
        Err(fault) => Err(fault),
    }
}
