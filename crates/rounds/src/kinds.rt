//! The two kinds of tasks: calls, and parts in a mend.
ghost use Rattle.std.specs.Prelude.{◌≡◌};
ghost use Rattle.rounds.specs.Errands.{DidCalls, DidMend, ArePacedCalls, IsPacedMend};
ghost use Rattle.rounds.specs.Errands.{FitsCalls, FitsPart};
ghost use Rattle.rounds.specs.Halts.{called_lacks, called_paused, mend_lacks, mend_paused};

use crate::work::{Ending, Errand};
use book::{Fault, Plan};
use mender::{Done, Drawer, Tickets, WorkFault, work};
use shared::{Cause, Job, Pace, Pass, RowReply, Stopped, Store};
use std::alloc::Global;
use std::sync::{Arc, Wait};

/// Make these calls, in order.
#[derive(Drop)]
pub struct Calls(pub Vec<Job>);

/// The outcome of calls: their replies, or why the worker stopped.
#[derive(Drop)]
pub struct Called(pub Result<Vec<RowReply>, Stopped>);

/// A worker's part in a mend.
#[derive(Drop)]
pub struct Mending {
    /// The row that asks for it.
    pub row: u32,
    /// The lost fragments.
    pub plan: Arc<Plan>,
    /// The plan's tickets.
    pub tickets: Arc<Tickets>,
    /// The worker's drawer, which draws these tickets.
    pub drawer: Drawer,
}

/// The outcome of a worker's part in a mend, with its drawer.
#[derive(Drop)]
pub struct Returned {
    /// The worker's drawer.
    pub drawer: Drawer,
    /// What the worker did.
    pub mended: Mended,
}

/// What a worker did of its part in a mend.
#[derive(Drop)]
pub enum Mended {
    /// The pace did not admit the row, and no ticket was drawn.
    Paused,
    /// The results, or why the worker stopped, with the results so far.
    Worked(Result<Vec<Done>, WorkFault>),
}

impl Ending for Called {
    ghost lacks = { called_lacks };

    ghost paused = { called_paused };

    fn lacks_memory(&self) -> bool {
        match &self.0 {
            Ok(_) => false,
            Err(stopped) => stopped.cause == Cause::NoMemory,
        }
    }

    fn is_paused(&self) -> bool {
        match &self.0 {
            Ok(_) => false,
            Err(stopped) => stopped.cause == Cause::Paused,
        }
    }
}

impl Ending for Returned {
    ghost lacks = { mend_lacks };

    ghost paused = { mend_paused };

    fn lacks_memory(&self) -> bool {
        match &self.mended {
            Mended::Worked(Err(stopped)) => stopped.fault != Fault::JournalFull,
            _ => false,
        }
    }

    fn is_paused(&self) -> bool {
        match &self.mended {
            Mended::Paused => true,
            Mended::Worked(_) => false,
        }
    }
}

impl Errand for Calls {
    type Outcome = Called;

    ghost fits = { FitsCalls };

    ghost did = { DidCalls };

    ghost paced = { ArePacedCalls };

    fn is_idle(&self) -> bool {
        self.0.is_empty()
    }

    fn carry_out<R: Wait, P: Pace>(
        self,
        rt: &R,
        alloc: Global,
        store: &Store,
        pass: &mut Pass,
        pace: &P,
    ) -> Called {
        let Calls(jobs) = self;
        Called(store.run(rt, alloc, pass, jobs, pace))
    }
}

impl Errand for Mending {
    type Outcome = Returned;

    ghost fits = { FitsPart };

    ghost did = { DidMend };

    ghost paced = { IsPacedMend };

    fn is_idle(&self) -> bool {
        false
    }

    fn carry_out<R: Wait, P: Pace>(
        self,
        rt: &R,
        alloc: Global,
        store: &Store,
        pass: &mut Pass,
        pace: &P,
    ) -> Returned {
        let Mending {
            row,
            plan,
            tickets,
            mut drawer,
        } = self;
        if !pace.before(row) {
            return Returned {
                drawer,
                mended: Mended::Paused,
            };
        }
        let worked = work(rt, alloc, store, pass, &plan, &tickets, &mut drawer);
        pace.after(row);
        Returned {
            drawer,
            mended: Mended::Worked(worked),
        }
    }
}
