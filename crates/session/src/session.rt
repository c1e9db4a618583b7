//! Sessions: a pass with its store.
ghost use Rattle.std.specs.Prelude.{◌≡◌, ◌≢◌, ◌⊎◌, ◌↔◌, ◌≤◌, ◌+◌, ◌-◌, ◌++◌, ℕ, [], length, IfOk};
ghost use Rattle.std.specs.Prelude.{Option, IfErr, OnOk, OnErr};
ghost use mathlib.Core.List.{IsPrefix};
ghost use Rattle.gate.specs.Places.{AreApart, times};
ghost use Rattle.history.specs.Log.{call_limit};
ghost use Rattle.book.specs.Holds.{HoldsHistory};
ghost use Rattle.book.specs.Serial.{Deed};
ghost use Rattle.shared.specs.Deeds.{Takes};
ghost use Rattle.shared.specs.Passes.{Shows, IsConsistent, IsWhole, seen_by, DoneAfter};
ghost use Rattle.session.specs.FreshSession.{IsFirstSession, IsSplitOff, IsClosing};
ghost use Rattle.session.specs.Learns.{Learns};

use shared::{Book, Fault, Limit, Pass, Store};
use std::alloc::Global;
use std::marker::Model;
use std::sync::Arc;

/// A pass with its store. A clause sees what the pass shows.
#[derive(Drop)]
pub struct Session {
    pub(crate) store: Arc<Store>,
    pub(crate) pass: Pass,
}

impl Model for Session {
    ghost use Rattle.std.specs.Prelude.{◌≡◌};
    ghost use Rattle.shared.specs.Passes.{Shows};

    ghost Value = { Shows };

    ghost view = { λ s. s.pass };

    ghost invariant = { λ s. s.pass.store ≡ s.store.value };
}

impl Session {
    /// Opens a store without blobs, and returns its only session. Without a limit it has no
    /// journal. `BadWidth` if `width` is not in 1..=65,536. `NoMemory` if memory runs out.
    pub fn open(alloc: Global, width: u32, limit: Option<Limit>) -> Result<Session, Fault>
        ensures opened { IfOk result (IsFirstSession width (call_limit limit)) }
        ensures bad_width { (result ≡ Err Fault.BadWidth) ↔ ((1 ≤ width) × (width ≤ 65536) → ⊥) }
        ensures faults { IfErr result (λ e. (e ≡ Fault.NoMemory) ⊎ (e ≡ Fault.BadWidth)) }
    {
        match Store::open_with(alloc, width, limit) {
            Ok((store, pass)) => match Arc::new(alloc, store) {
                Ok(store) => Ok(Session { store, pass }),
                Err(_) => Err(Fault::NoMemory),
            },
            Err(fault) => Err(fault),
        }
    }

    /// Splits off a session of the same store, with this label and a room of 1. `NoPass` if the
    /// session's own room is 1. `NoMemory` if memory runs out; the session is then unchanged.
    pub fn split(&mut self, who: u32) -> Result<Session, Fault>
        ensures unchanged { OnOk result (self.new ≡ record self.old { room = self.old.room - 1 }) }
        ensures given { IfOk result (IsSplitOff self.old who) }
        ensures no_pass { (result ≡ Err Fault.NoPass) ↔ (self.old.room ≡ 1) }
        ensures faults { IfErr result (λ e. (e ≡ Fault.NoMemory) ⊎ (e ≡ Fault.NoPass)) }
        ensures err { OnErr result (self.new ≡ self.old) }
    {
        if self.pass.room() <= 1 {
            return Err(Fault::NoPass);
        }
        let Ok(store) = Arc::try_clone(&self.store) else {
            return Err(Fault::NoMemory);
        };
        match self.pass.split(&self.store, who) {
            Ok(pass) => Ok(Session { store, pass }),
            Err(fault) => Err(fault),
        }
    }

    /// Joins another session of the same store into this one, which then counts as the caller of
    /// its calls.
    pub fn join(&mut self, other: Session)
        requires { other.store ≡ self.old.store }
        ensures unchanged { (self.new.store ≡ self.old.store) × (self.new.who ≡ self.old.who)
            × (self.new.room ≡ self.old.room + other.room) }
        ensures one { ((self.new.seen ≡ self.old.seen) × (self.new.trimmed ≡ self.old.trimmed))
            ⊎ ((self.new.seen ≡ other.seen) × (self.new.trimmed ≡ other.trimmed)) }
        ensures seen { IsPrefix self.old.seen self.new.seen × IsPrefix other.seen self.new.seen }
        ensures made { self.new.made ≡ self.old.made ++ other.made }
        ensures acts { IsPrefix self.old.acts self.new.acts × IsPrefix other.acts self.new.acts }
        ensures did { self.new.did ≡ self.old.did ++ other.did }
        ensures whole { self.new.room ≡ 64 → IsWhole self.new }
        ensures apart { AreApart self.old.made other.made }
    {
        let Session { store, pass } = other;
        self.pass.join(&self.store, pass);
        drop(store);
    }

    /// Learns all that another session of the same store has seen. Of the two histories it then
    /// shows the one that begins with both, and whatever it does next stands after all of it. The
    /// calls that it made, its label and its room are as before, and the other session is as it
    /// was. It takes no lock, does not wait and does not allocate.
    pub fn learn(&mut self, other: &mut Session)
        requires store { other.old.store ≡ self.old.store }
        ensures learns { Learns self.old (seen_by other.old) self.new }
        ensures later { (deed : Option Deed) (w : Shows) → Takes self.new deed w
            → DoneAfter other.old.acts self.new w }
        ensures unchanged { other.new ≡ other.old }
    {
        let receipt = other.pass.receipt(&self.store);
        self.pass.accept(&self.store, receipt);
    }

    /// Closes the store and returns its book, if all other sessions were joined. Otherwise the
    /// error returns the session unchanged.
    pub fn close(self) -> Result<Book, Session>
        ensures ok { IfOk result (IsClosing self) }
        ensures err { IfErr result (λ s. (s ≡ self) × (self.room ≢ 64)) }
    {
        let Session { store, pass } = self;
        if pass.room() != 64 {
            return Err(Session { store, pass });
        }
        Ok(store.take_book(pass))
    }
}
