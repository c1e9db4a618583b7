//! Reads, which grant a range.
ghost use Rattle.std.specs.Prelude.{◌≡◌, IfErr, ◌↔◌, length, IfOk, OnErr};
ghost use Rattle.std.specs.Option.{option_map};
ghost use Rattle.book.specs.Asked.{IsReadAnswer, IsGrantable};
ghost use Rattle.book.specs.Contents.{sealed_at};
ghost use Rattle.history.specs.Step.{read as read_of};
ghost use Rattle.book.specs.Holds.{CarriesOn, IsCallFault, KeepsBase};

use crate::book::{Book, note_call};
use crate::{Answer, Call, Fault, Name};
use lent::{Asked, Grant};
use sealed::Sealed;
use std::alloc::AllocError;
use std::sync::Arc;

impl Book {
    /// Grants `len` bytes of a name's blob, from the byte `start` on. Does not allocate: `NoMemory`
    /// comes only in place of `Granted`, if the count of the blob's owners can't grow.
    pub fn read(&mut self, who: u32, name: Name, start: u64, len: u64) -> Result<Answer, Fault>
        ensures ok { IfOk result (CarriesOn self.old self.new who (read_of name start len)) }
        ensures answer { IfOk result (IsReadAnswer (sealed_at self.old name) start len) }
        ensures full { (result ≡ Err Fault.JournalFull)
            ↔ (length self.old.entries ≡ self.old.limit) }
        ensures no_memory { result ≡ Err Fault.NoMemory
            → IsGrantable (sealed_at self.old name) start len }
        ensures unchanged { KeepsBase self.old self.new }
        ensures faults { IfErr result IsCallFault }
        ensures err { OnErr result (self.new ≡ self.old) }
    {
        if self.is_full() {
            return Err(Fault::JournalFull);
        }
        let answer = answer_read(self.find(&name), start, len)?;
        let call = Call::Read { name, start, len };
        Ok(note_call(&mut self.log, who, call, answer))
    }
}

/// The answer to a read, by what the name has.
fn answer_read(found: Option<&Arc<Sealed>>, start: u64, len: u64) -> Result<Answer, AllocError>
    ensures ok { IfOk result (IsReadAnswer (option_map (λ a. a.now.value) found.entry) start len) }
    ensures err { OnErr result (IsGrantable (option_map (λ a. a.now.value) found.entry) start len) }
{
    let Some(sealed) = found else {
        return Ok(Answer::NoName);
    };
    match Grant::ask(sealed, start, len)? {
        Asked::Granted(grant) => Ok(Answer::Granted(grant)),
        Asked::OutOfRange => Ok(Answer::OutOfRange),
        Asked::Unrecoverable => Ok(Answer::Unrecoverable(sealed.version)),
    }
}
