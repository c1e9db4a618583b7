//! Storage of a sealed blob.
ghost use Rattle.std.specs.Prelude.{◌≡◌, ◌↔◌, ◌+◌, List, ℕ, length, count_by, IfOk, IfErr, OnErr};
ghost use Rattle.sealed.specs.Blob.{nothing};
ghost use Rattle.sealed.specs.Sealed.{StandsFor};
ghost use Rattle.history.specs.History.{is_put};
ghost use Rattle.history.specs.Step.{put as put_of};
ghost use Rattle.book.specs.Holds.{CarriesOn, IsCallFault, KeepsBase};

use crate::book::{Book, note_call};
use crate::truth::Truth;
use crate::{Answer, Call, Fault, Name};
use sealed::Sealed;
use std::alloc::Global;
use std::sync::Arc;

impl Book {
    /// Stores a sealed blob under a name, and drops the blob that the name had. The version is the
    /// number of this put. Does not allocate if the journal is full.
    pub fn put(
        &mut self,
        alloc: Global,
        who: u32,
        name: Name,
        sealed: Sealed,
    ) -> Result<Answer, Fault>
        requires width { sealed.width ≡ self.old.width }
        requires stands { (b : List ℕ) × StandsFor sealed b nothing }
        ensures ok { IfOk result (λ a. (b : List ℕ) → StandsFor sealed b nothing
            → CarriesOn self.old self.new who (put_of name sealed.code b) a) }
        ensures answer { IfOk result (λ a. a ≡ Answer.Stored
            (self.old.base.puts + count_by is_put self.old.entries + 1)) }
        ensures full { (result ≡ Err Fault.JournalFull)
            ↔ (length self.old.entries ≡ self.old.limit) }
        ensures unchanged { KeepsBase self.old self.new }
        ensures faults { IfErr result IsCallFault }
        ensures err { OnErr result (self.new ≡ self.old) }
    {
        if self.is_full() {
            return Err(Fault::JournalFull);
        }
        let version = self.puts + 1;
        let code = sealed.code;
        let len = sealed.len;
        let truth = Truth::with(&self.truth, &name, &sealed);
        let Ok(sealed) = Arc::new(alloc, sealed.with_version(version)) else {
            return Err(Fault::NoMemory);
        };
        self.catalogue.insert(&name, sealed)?;
        self.puts = version;
        self.truth = truth;
        let call = Call::Put { name, code, len };
        let answer = Answer::Stored(version);
        Ok(note_call(&mut self.log, who, call, answer))
    }
}
