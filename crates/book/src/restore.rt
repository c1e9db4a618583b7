//! Restoration of a lost fragment with bytes from outside.
ghost use Rattle.std.specs.Prelude.{◌≡◌, true, ◌↔◌, length, IfSome, IfOk, IfErr, OnErr};
ghost use Rattle.book.specs.Catalogue.{lacks_at};
ghost use Rattle.book.specs.Known.{IsFragmentIn};
ghost use Rattle.book.specs.Losing.{Restores, Replaces, value_at};
ghost use Rattle.book.specs.Notes.{note_of};
ghost use Rattle.history.specs.History.{History};
ghost use Rattle.history.specs.Step.{restore as restore_of};
ghost use Rattle.book.specs.Totals.{DifferAt};
ghost use Rattle.book.specs.Holds.{HoldsHistory, CarriesOn, IsCallFault, KeepsBase};
ghost use Rattle.history.specs.Views.{restore_reply};

use crate::book::{Book, note_call};
use crate::stored_blob::StoredBlob;
use crate::{Answer, Call, Fault, Name};
use bytes::Bytes;
use std::alloc::Global;
use std::collections::BTreeMap;

impl Book {
    /// Makes a lost fragment of a name's blob present with `bytes`, whatever else is lost. They are
    /// those that the fragment has in the blob that was put under this name and version. Does not
    /// allocate if the journal is full.
    pub fn restore(
        &mut self,
        alloc: Global,
        who: u32,
        name: Name,
        version: u64,
        stripe: u64,
        fragment: u64,
        bytes: Bytes,
    ) -> Result<Answer, Fault>
        requires known { (h : History) × HoldsHistory self.old h
            × IsFragmentIn h self.old.width name version stripe fragment bytes }
        ensures ok { IfOk result (CarriesOn self.old self.new who
            (restore_of name version stripe fragment)) }
        ensures full { (result ≡ Err Fault.JournalFull)
            ↔ (length self.old.entries ≡ self.old.limit) }
        ensures unchanged { KeepsBase self.old self.new }
        ensures faults { IfErr result IsCallFault }
        ensures err { OnErr result (self.new ≡ self.old) }
    {
        if self.is_full() {
            return Err(Fault::JournalFull);
        }
        let answer = self
            .catalogue
            .restore(alloc, &name, version, stripe, fragment, bytes)?;
        let call = Call::Restore {
            name,
            version,
            stripe,
            fragment,
        };
        Ok(note_call(&mut self.log, who, call, answer))
    }
}

/// Restores a lost fragment of a name's blob in the catalogue. The only error is `NoMemory`.
pub(crate) fn restore_in(
    catalogue: &mut BTreeMap<Name, StoredBlob>,
    alloc: Global,
    name: &Name,
    version: u64,
    stripe: u64,
    fragment: u64,
    bytes: Bytes,
) -> Result<Answer, Fault>
    requires { IfSome (value_at catalogue.old.entries name.now) (λ s. length bytes ≡ s.width) }
    ensures ok { IfOk result (λ a. Replaces (λ w x. restore_reply w x version stripe fragment)
        (Restores version stripe fragment bytes (note_of a)) catalogue.old.entries
        catalogue.new.entries name.now (note_of a)) }
    ensures fewer { lacks_at catalogue.new.entries name.now ≡ true
        → lacks_at catalogue.old.entries name.now ≡ true }
    ensures totals { DifferAt catalogue.old.entries catalogue.new.entries name.now }
    ensures faults { IfErr result (λ e. e ≡ Fault.NoMemory) }
    ensures err { OnErr result (catalogue.new.entries ≡ catalogue.old.entries) }
{
    match catalogue.get_mut(name) {
        Some(stored) => stored.restore(alloc, version, stripe, fragment, bytes),
        None => Ok(Answer::NoName),
    }
}
