//! The calls by name of a store alone.
ghost use Rattle.std.specs.Prelude.{◌≡◌, ◌⊎◌, ◌+◌};

use crate::snapshot::snapshot_of;
use crate::{Makes, TryCalls, TrySnapshots, WaitingCalls, WaitingSnapshots, Waits};
use book::{Answer, Fault, Name};
use lent::Snapshot;
use requests::Request;
use sealed::Width;
use shared::{Pass, Store};
use std::alloc::Global;
use std::sync::Wait;

impl Makes for Store {
    type Pass = Pass;

    ghost use Rattle.std.specs.Prelude.{◌≡◌, ◌⊎◌, ◌+◌};
    ghost use Rattle.shared.specs.Calls.{Called};
    ghost use Rattle.shared.specs.Mends.{FoundBusy};
    ghost use Rattle.shared.specs.Passes.{FindsBusy, VisitsOnce};

    ghost is_to = { λ s v. v.store ≡ s };

    ghost seen = { λ v n. v.seen };

    ghost width = { λ s n. s.width };

    ghost called = { Called };

    // There is one store, so there is no list of several.
    ghost listed = { λ v o r w. Unit {0} };

    ghost busy = { λ v o w. FindsBusy v w };

    ghost busy_repair = { FoundBusy };

    ghost entered = { λ v o w. VisitsOnce v w };

    ghost entered_to_repair = { λ v o w. (w.visits ≡ v.visits + 1) ⊎ (w.visits ≡ v.visits + 2) };

    ghost lone = { λ v. v.room ≡ 64 };

    fn width(&self) -> Width {
        Store::width(self)
    }

    fn refuse(&self, pass: &Pass, fault: Fault) -> Result<Answer, Fault> {
        // What every pass keeps is known once its label is read.
        let _who = pass.who();
        Err(fault)
    }

    fn try_prepared(
        &self,
        pass: &mut Pass,
        request: Request,
    ) -> Result<Result<Answer, Fault>, Request> {
        Store::try_prepared(self, pass, request)
    }

    fn try_repair(
        &self,
        alloc: Global,
        pass: &mut Pass,
        name: Name,
        stripe: u64,
        fragment: u64,
    ) -> Result<Answer, Fault> {
        Store::try_repair(self, alloc, pass, name, stripe, fragment)
    }
}

impl Waits for Store {
    fn make<R: Wait>(&self, rt: &R, pass: &mut Pass, request: Request) -> Result<Answer, Fault> {
        Store::make(self, rt, pass, request)
    }

    fn repair<R: Wait>(
        &self,
        rt: &R,
        alloc: Global,
        pass: &mut Pass,
        name: Name,
        stripe: u64,
        fragment: u64,
    ) -> Result<Answer, Fault> {
        Store::repair(self, rt, alloc, pass, name, stripe, fragment)
    }
}

impl WaitingCalls for Store {}

impl TryCalls for Store {}

impl WaitingSnapshots for Store {
    fn snapshot<R: Wait>(
        &self,
        rt: &R,
        pass: &mut Pass,
        name: Name,
    ) -> Result<Option<Snapshot>, Fault> {
        snapshot_of(self.read(rt, pass, name, 0, 0))
    }
}

impl TrySnapshots for Store {
    fn try_snapshot(&self, pass: &mut Pass, name: Name) -> Result<Option<Snapshot>, Fault> {
        snapshot_of(self.try_read(pass, name, 0, 0))
    }
}
