//! The calls of a session. No call waits: it returns `Busy` if another thread is in the critical
//! section. The session has then seen no more of the history. `Busy` never comes to a session with
//! a room of 64. After any other error the history does not have the call, and the session may have
//! seen further calls.
ghost use Rattle.std.specs.Prelude.{◌≡◌, ◌≢◌, ◌⊎◌, ◌↔◌, ◌<◌, ◌≤◌, ◌-◌, ℕ, None, length, take};
ghost use Rattle.std.specs.Prelude.{IfOk, IfErr};
ghost use Rattle.std.specs.Option.{option_map};
ghost use Rattle.sealed.specs.Layout.{stripe_count};
ghost use Rattle.history.specs.Step.{put as put_of, read as read_of, lose as lose_of};
ghost use Rattle.history.specs.Step.{repair as repair_of, delete as delete_of, stat as stat_of};
ghost use Rattle.history.specs.History.{state_of};
ghost use Rattle.book.specs.Numbers.{AreNumbersOf};
ghost use Rattle.book.specs.Plan.{plan_of, items_after};
ghost use Rattle.book.specs.Holds.{IsCallFault};
ghost use Rattle.book.specs.Trimming.{journaled};
ghost use Rattle.shared.specs.Calls.{Called, CanGrant, GrantedIn, IfGranted};
ghost use Rattle.shared.specs.Deeds.{Takes, trim_deed};
ghost use Rattle.shared.specs.Mends.{FoundBusy};
ghost use Rattle.shared.specs.Passes.{FindsBusy};
ghost use Rattle.session.specs.KnownFault.{IsBusyOrCallFault, IsBusyOrFull};

use crate::{Refused, Session};
use named_calls::TryCalls;
use shared::{Answer, Bytes, Code, Fault, Item, Name, Numbers, Plan};
use std::alloc::Global;

impl Session {
    /// Stores a blob in a code. The answer is `Stored`.
    pub fn put_as(
        &mut self,
        alloc: Global,
        name: Name,
        bytes: Bytes,
        code: Code,
    ) -> Result<Answer, Fault>
        ensures called { Called self.old (put_of name code bytes) result self.new }
        ensures too_long { (result ≡ Err Fault.TooLong)
            ↔ (4096 < stripe_count code self.old.store.width (length bytes)) }
        ensures faults { IfErr result
            (λ e. (e ≡ Fault.Busy) ⊎ IsCallFault e ⊎ (e ≡ Fault.TooLong)) }
        ensures busy { result ≡ Err Fault.Busy → FindsBusy self.old self.new }
        ensures lone { self.old.room ≡ 64 → result ≢ Err Fault.Busy }
    {
        self.store
            .try_put_as(alloc, &mut self.pass, name, bytes, code)
    }

    /// As `put_as`, of a copy of the bytes, which is made as the blob is sealed.
    pub fn put_copy(
        &mut self,
        alloc: Global,
        name: Name,
        bytes: &[u8],
        code: Code,
    ) -> Result<Answer, Fault>
        ensures called { Called self.old (put_of name code bytes.now) result self.new }
        ensures too_long { (result ≡ Err Fault.TooLong)
            ↔ (4096 < stripe_count code self.old.store.width (length bytes.now)) }
        ensures faults { IfErr result
            (λ e. (e ≡ Fault.Busy) ⊎ IsCallFault e ⊎ (e ≡ Fault.TooLong)) }
        ensures busy { result ≡ Err Fault.Busy → FindsBusy self.old self.new }
        ensures lone { self.old.room ≡ 64 → result ≢ Err Fault.Busy }
    {
        self.store
            .try_put_copy(alloc, &mut self.pass, name, bytes, code)
    }

    /// As `put_as`, of bytes whose put may have been refused before. They stay there. After `Busy`
    /// they stay there sealed, and the next put in this code, to a store of this width, does not
    /// seal them again.
    pub fn put_again(
        &mut self,
        alloc: Global,
        name: Name,
        refused: &mut Refused,
        code: Code,
    ) -> Result<Answer, Fault>
        ensures called { Called self.old (put_of name code refused.old) result self.new }
        ensures unchanged { refused.new ≡ refused.old }
        ensures too_long { (result ≡ Err Fault.TooLong)
            ↔ (4096 < stripe_count code self.old.store.width (length refused.old)) }
        ensures faults { IfErr result
            (λ e. (e ≡ Fault.Busy) ⊎ IsCallFault e ⊎ (e ≡ Fault.TooLong)) }
        ensures busy { result ≡ Err Fault.Busy → FindsBusy self.old self.new }
        ensures lone { self.old.room ≡ 64 → result ≢ Err Fault.Busy }
    {
        let sealed = match refused.seal_for(alloc, &self.store, code) {
            Ok(sealed) => sealed,
            Err(fault) => {
                // Once the label is asked for, it is known what the pass shows.
                let _who = self.pass.who();
                return Err(fault);
            }
        };
        match self
            .store
            .try_put_sealed(alloc, &mut self.pass, name, sealed)
        {
            Ok(reply) => reply,
            Err(sealed) => {
                refused.keep(sealed);
                Err(Fault::Busy)
            }
        }
    }

    /// Asks for `len` bytes of a blob, from the byte `start` on.
    pub fn read(&mut self, name: Name, start: u64, len: u64) -> Result<Answer, Fault>
        ensures called { Called self.old (read_of name start len) result self.new }
        ensures grant { IfOk result (λ a. IfGranted a
            (GrantedIn self.new.seen self.old.store.width name start len)) }
        ensures no_memory { result ≡ Err Fault.NoMemory
            → CanGrant self.new.seen self.old.store.width name start len }
        ensures faults { IfErr result IsBusyOrCallFault }
        ensures busy { result ≡ Err Fault.Busy → FindsBusy self.old self.new }
        ensures lone { self.old.room ≡ 64 → result ≢ Err Fault.Busy }
    {
        self.store.try_read(&mut self.pass, name, start, len)
    }

    /// Loses a fragment of a stripe, as after a disk failure.
    pub fn lose(
        &mut self,
        alloc: Global,
        name: Name,
        stripe: u64,
        fragment: u64,
    ) -> Result<Answer, Fault>
        ensures called { Called self.old (lose_of name stripe fragment) result self.new }
        ensures faults { IfErr result IsBusyOrCallFault }
        ensures busy { result ≡ Err Fault.Busy → FindsBusy self.old self.new }
        ensures lone { self.old.room ≡ 64 → result ≢ Err Fault.Busy }
    {
        self.store
            .try_lose(alloc, &mut self.pass, name, stripe, fragment)
    }

    /// Rebuilds a lost fragment of a stripe.
    pub fn repair(
        &mut self,
        alloc: Global,
        name: Name,
        stripe: u64,
        fragment: u64,
    ) -> Result<Answer, Fault>
        ensures called { Called self.old (repair_of name stripe fragment) result self.new }
        ensures faults { IfErr result IsBusyOrCallFault }
        ensures busy { result ≡ Err Fault.Busy → FoundBusy self.old name stripe fragment self.new }
        ensures lone { self.old.room ≡ 64 → result ≢ Err Fault.Busy }
    {
        self.store
            .try_repair(alloc, &mut self.pass, name, stripe, fragment)
    }

    /// Removes a name and its blob.
    pub fn delete(&mut self, name: Name) -> Result<Answer, Fault>
        ensures called { Called self.old (delete_of name) result self.new }
        ensures faults { IfErr result IsBusyOrFull }
        ensures busy { result ≡ Err Fault.Busy → FindsBusy self.old self.new }
        ensures lone { self.old.room ≡ 64 → result ≢ Err Fault.Busy }
    {
        self.store.try_delete(&mut self.pass, name)
    }

    /// Asks for the shape of a blob.
    pub fn stat(&mut self, name: Name) -> Result<Answer, Fault>
        ensures called { Called self.old (stat_of name) result self.new }
        ensures faults { IfErr result IsBusyOrFull }
        ensures busy { result ≡ Err Fault.Busy → FindsBusy self.old self.new }
        ensures lone { self.old.room ≡ 64 → result ≢ Err Fault.Busy }
    {
        self.store.try_stat(&mut self.pass, name)
    }

    /// Discards all journal entries except the last `keep`, and returns how many it discarded. It
    /// is no call of the history.
    pub fn trim(&mut self, alloc: Global, keep: u64) -> Result<u64, Fault>
        ensures takes { Takes self.old (trim_deed keep result) self.new }
        ensures faults { IfErr result (λ e. (e ≡ Fault.Busy) ⊎ (e ≡ Fault.NoMemory)) }
        ensures busy { result ≡ Err Fault.Busy → FindsBusy self.old self.new }
        ensures lone { self.old.room ≡ 64 → result ≢ Err Fault.Busy }
    {
        self.store.try_trim(alloc, &mut self.pass, keep)
    }

    /// As `trim`, but it discards at most `most` entries.
    pub fn trim_part(&mut self, alloc: Global, keep: u64, most: u64) -> Result<u64, Fault>
        ensures part { (k : ℕ) × (keep ≤ k) × Takes self.old (trim_deed k result) self.new }
        ensures few { IfOk result (λ n. n ≤ most) }
        ensures whole { IfOk result
            (λ n. n < most → Takes self.old (trim_deed keep result) self.new) }
        ensures faults { IfErr result (λ e. (e ≡ Fault.Busy) ⊎ (e ≡ Fault.NoMemory)) }
        ensures busy { result ≡ Err Fault.Busy → FindsBusy self.old self.new }
        ensures lone { self.old.room ≡ 64 → result ≢ Err Fault.Busy }
    {
        self.store.try_trim_part(alloc, &mut self.pass, keep, most)
    }

    /// The totals of all blobs, and the numbers of calls and of journal entries. It is no call of
    /// the history, and does not allocate.
    pub fn numbers(&mut self) -> Result<Numbers, Fault>
        ensures takes { Takes self.old None self.new }
        ensures ok { IfOk result (AreNumbersOf self.old.store.width self.new.seen) }
        ensures entries { IfOk result (λ n. n.entries
            ≡ journaled self.old.store.limit (length self.new.seen - self.new.trimmed)) }
        ensures faults { IfErr result (λ e. e ≡ Fault.Busy) }
        ensures busy { result ≡ Err Fault.Busy → FindsBusy self.old self.new }
        ensures lone { self.old.room ≡ 64 → result ≢ Err Fault.Busy }
    {
        self.store.try_numbers(&mut self.pass)
    }

    /// The lost fragments of all blobs. It is no call of the history.
    pub fn plan(&mut self, alloc: Global) -> Result<Plan, Fault>
        ensures takes { Takes self.old None self.new }
        ensures ok { IfOk result (λ p. p.items.items ≡ plan_of (state_of self.new.seen)) }
        ensures faults { IfErr result (λ e. (e ≡ Fault.Busy) ⊎ (e ≡ Fault.NoMemory)) }
        ensures busy { result ≡ Err Fault.Busy → FindsBusy self.old self.new }
        ensures lone { self.old.room ≡ 64 → result ≢ Err Fault.Busy }
    {
        self.store.try_plan(alloc, &mut self.pass)
    }

    /// A part of the plan: the first `most` of its items that come behind `after`.
    pub fn plan_part(
        &mut self,
        alloc: Global,
        after: Option<&Item>,
        most: usize,
    ) -> Result<Plan, Fault>
        ensures takes { Takes self.old None self.new }
        ensures ok { IfOk result (λ p. p.items.items ≡ take most
            (items_after (option_map (λ i. i.now) after.entry)
            (plan_of (state_of self.new.seen)))) }
        ensures faults { IfErr result (λ e. (e ≡ Fault.Busy) ⊎ (e ≡ Fault.NoMemory)) }
        ensures busy { result ≡ Err Fault.Busy → FindsBusy self.old self.new }
        ensures lone { self.old.room ≡ 64 → result ≢ Err Fault.Busy }
    {
        self.store.try_plan_part(alloc, &mut self.pass, after, most)
    }
}
