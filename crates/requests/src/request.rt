//! Calls with all that they need.
ghost use Rattle.std.specs.Prelude.{◌≡◌};
ghost use Rattle.history.specs.Parts.{name_of};
ghost use Rattle.history.specs.History.{call_of};
ghost use Rattle.requests.specs.Requests.{operation_of};

use book::Name;
use bytes::Bytes;
use sealed::Sealed;
use std::alloc::Global;

/// A call with all that it needs, made before the critical section: the blob of a put is sealed,
/// and the fragment that a repair installs is rebuilt.
#[derive(Drop)]
pub enum Request {
    /// Stores the sealed blob, which has no lost fragment and the book's width, under the name.
    Put {
        alloc: Global,
        name: Name,
        sealed: Sealed,
    },
    /// Grants `len` bytes of the name's blob from `start` on.
    Read {
        name: Name,
        start: u64,
        len: u64,
    },
    /// Loses a fragment of a stripe of the name's blob.
    Lose {
        alloc: Global,
        name: Name,
        stripe: u64,
        fragment: u64,
    },
    /// Installs these bytes, which were rebuilt from the blob of this version.
    Install {
        alloc: Global,
        name: Name,
        version: u64,
        stripe: u64,
        fragment: u64,
        bytes: Bytes,
    },
    /// Restores a lost fragment with these bytes, which it has in the blob of this version.
    Restore {
        alloc: Global,
        name: Name,
        version: u64,
        stripe: u64,
        fragment: u64,
        bytes: Bytes,
    },
    /// Deletes the name.
    Delete {
        name: Name,
    },
    /// Asks for the shape of the name's blob.
    Stat {
        name: Name,
    },
}

impl Request {
    /// The name that the call is on.
    pub fn name(&self) -> &Name
        ensures { result.now ≡ name_of (call_of (operation_of self.now)) }
    {
        match self {
            Request::Put { name, .. }
            | Request::Read { name, .. }
            | Request::Lose { name, .. }
            | Request::Install { name, .. }
            | Request::Restore { name, .. }
            | Request::Delete { name }
            | Request::Stat { name } => name,
        }
    }
}
