//! Bytes whose put was refused.
ghost use Rattle.std.specs.Prelude.{◌≡◌, ◌↔◌, ◌<◌, length, Err};
ghost use Rattle.sealed.specs.Blob.{nothing};
ghost use Rattle.sealed.specs.Layout.{stripe_count};
ghost use Rattle.sealed.specs.Sealed.{StandsFor};
ghost use Rattle.shared.specs.Requests.{IsSealing};

use sealed::count_stripes;
use shared::{Bytes, Code, Fault, Sealed, Store};
use std::alloc::Global;
use std::marker::Model;

/// The bytes of a buffer whose put was refused. They can be put again, and not be written. A clause
/// sees the bytes.
///
/// It holds the bytes. If the put found another thread in the critical section, it also holds the
/// sealed blob, so that the next put need not seal again. The data fragments of that blob lie in
/// the bytes. It has memory of its own for the parities, which are a third of the bytes in
/// LRC(12,2,2) and two thirds in LRC(6,2,2), and for a copy of the last stripe if that is not full.
#[derive(Drop)]
pub struct Refused {
    bytes: Bytes,
    sealed: Option<Sealed>,
}

impl Model for Refused {
    ghost use Rattle.std.specs.Prelude.{ℕ, List, IfSome};
    ghost use Rattle.sealed.specs.Blob.{nothing};
    ghost use Rattle.sealed.specs.Sealed.{StandsFor};

    ghost Value = { List ℕ };

    ghost view = { λ r. r.bytes };

    ghost invariant = { λ r. IfSome r.sealed (λ s. StandsFor s r.bytes nothing) };
}

impl Refused {
    /// These bytes, which are not sealed.
    pub fn of(bytes: Bytes) -> Refused
        ensures { result ≡ bytes }
    {
        Refused {
            bytes,
            sealed: None,
        }
    }

    /// The bytes, sealed in this code for this store. It seals them, unless it holds them sealed in
    /// this code and the store's width. Afterwards it holds the bytes alone.
    ///
    /// `TooLong` if the blob needs more than 4,096 stripes, before anything is allocated; else
    /// `NoMemory` if out of memory.
    pub(crate) fn seal_for(
        &mut self,
        alloc: Global,
        store: &Store,
        code: Code,
    ) -> Result<Sealed, Fault>
        ensures unchanged { self.new ≡ self.old }
        ensures sealing { IsSealing store.now.width code self.old result }
        ensures too_long { (result ≡ Err Fault.TooLong)
            ↔ (4096 < stripe_count code store.now.width (length self.old)) }
    {
        let width = store.width();
        if count_stripes(code, width, self.bytes.len() as u64) > 4096 {
            return Err(Fault::TooLong);
        }
        if let Some(sealed) = self.sealed.take() {
            if sealed.width.get() == width.get() && sealed.code == code {
                return Ok(sealed);
            }
        }
        let Ok(copy) = self.bytes.clone() else {
            return Err(Fault::NoMemory);
        };
        store.seal(alloc, copy, code)
    }

    /// Keeps the bytes sealed.
    pub(crate) fn keep(&mut self, sealed: Sealed)
        requires { StandsFor sealed self.old nothing }
        ensures { self.new ≡ self.old }
    {
        self.sealed = Some(sealed);
    }
}
