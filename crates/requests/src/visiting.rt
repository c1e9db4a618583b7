//! What is done with the book in the gate, as values.
ghost use Rattle.std.specs.Prelude.{⊤};
ghost use Rattle.requests.specs.Requests.{CanMake};
ghost use Rattle.requests.specs.Visits.{IsRequestMade, IsInspected, IsPlanPart, AreCounted};
ghost use Rattle.requests.specs.Visits.{IsTrimPart};

use crate::BoxedBook;
use crate::inspection::Inspection;
use crate::request::Request;
use book::{Answer, Book, Fault, Item, Name, Numbers, Plan};
use gate::Visit;
use std::alloc::Global;
use std::sync::Arc;

/// A prepared call, and the label under which it is made.
///
/// `JournalFull` if the journal holds as many entries as its limit; else `NoMemory` if out of
/// memory. A deletion and a question for the shape do not allocate. After either the book is
/// unchanged.
#[derive(Drop)]
pub struct RequestVisit {
    /// The label.
    pub who: u32,
    /// The call.
    pub request: Request,
}

impl Visit<BoxedBook> for RequestVisit {
    type Reply = Result<Answer, Fault>;

    ghost can = { λ w x. CanMake x.0.value w.request };

    ghost does = { λ w x y reply. IsRequestMade w.who w.request x.0.value y.0.value reply };

    fn visit(self, value: &mut BoxedBook) -> Result<Answer, Fault> {
        let RequestVisit { who, request } = self;
        let book: &mut Book = &mut value.0;
        match request {
            Request::Put {
                alloc,
                name,
                sealed,
            } => book.put(alloc, who, name, sealed),
            Request::Read { name, start, len } => book.read(who, name, start, len),
            Request::Lose {
                alloc,
                name,
                stripe,
                fragment,
            } => book.lose(alloc, who, name, stripe, fragment),
            Request::Install {
                alloc,
                name,
                version,
                stripe,
                fragment,
                bytes,
            } => book.install(alloc, who, name, version, stripe, fragment, bytes),
            Request::Restore {
                alloc,
                name,
                version,
                stripe,
                fragment,
                bytes,
            } => book.restore(alloc, who, name, version, stripe, fragment, bytes),
            Request::Delete { name } => book.delete(who, name),
            Request::Stat { name } => book.stat(who, name),
        }
    }
}

/// The inspection before a repair, and the label of the repair. It makes the repair if its answer
/// is not `Repaired`. Else it changes nothing, and gives the value to rebuild from.
///
/// `JournalFull` if the journal holds as many entries as its limit; else `NoMemory` if out of
/// memory.
#[derive(Drop)]
pub struct InspectionVisit<'a> {
    pub alloc: Global,
    /// The label.
    pub who: u32,
    /// The blob's name.
    pub name: &'a Name,
    pub stripe: u64,
    pub fragment: u64,
}

impl<'a> Visit<BoxedBook> for InspectionVisit<'a> {
    type Reply = Inspection;

    ghost can = { λ _ _. ⊤ };

    ghost does = { λ w x y reply. IsInspected w.who w.name.now w.stripe w.fragment x.0.value
        y.0.value reply };

    fn visit(self, value: &mut BoxedBook) -> Inspection {
        let InspectionVisit {
            alloc,
            who,
            name,
            stripe,
            fragment,
        } = self;
        let book: &mut Book = &mut value.0;
        if book.is_full() {
            return Inspection::Refused(Fault::JournalFull);
        }
        if let Some(sealed) = book.find(name) {
            if sealed.is_rebuildable(stripe, fragment) {
                return match Arc::try_clone(sealed) {
                    Ok(sealed) => Inspection::Rebuildable(sealed),
                    Err(_) => Inspection::Refused(Fault::NoMemory),
                };
            }
        }
        match book.repair(alloc, who, name.duplicate(), stripe, fragment) {
            Ok(answer) => Inspection::Done(answer),
            Err(fault) => Inspection::Refused(fault),
        }
    }
}

/// The first `most` of the lost fragments that come behind `after`, as `Book::plan_part` gives
/// them.
#[derive(Drop)]
pub struct PlanPartVisit<'a> {
    pub alloc: Global,
    pub after: Option<&'a Item>,
    pub most: usize,
}

impl<'a> Visit<BoxedBook> for PlanPartVisit<'a> {
    type Reply = Result<Plan, Fault>;

    ghost use Rattle.std.specs.Option.{option_map};

    ghost can = { λ _ _. ⊤ };

    ghost does = { λ w x y reply. IsPlanPart (option_map (λ i. i.now) w.after) w.most x.0.value
        y.0.value reply };

    fn visit(self, value: &mut BoxedBook) -> Result<Plan, Fault> {
        let PlanPartVisit { alloc, after, most } = self;
        match value.0.plan_part(alloc, after, most) {
            Ok(plan) => Ok(plan),
            Err(_) => Err(Fault::NoMemory),
        }
    }
}

/// The numbers of the store, as `Book::numbers` gives them.
#[derive(Drop)]
pub struct NumbersVisit;

impl Visit<BoxedBook> for NumbersVisit {
    type Reply = Numbers;

    ghost can = { λ _ _. ⊤ };

    ghost does = { λ _ x y reply. AreCounted x.0.value y.0.value reply };

    fn visit(self, value: &mut BoxedBook) -> Numbers {
        value.0.numbers()
    }
}

/// At most `most` entries of the journal are discarded, and none of the last `keep`, as by
/// `Book::trim_part`.
#[derive(Drop)]
pub struct TrimPartVisit {
    pub alloc: Global,
    pub keep: u64,
    pub most: u64,
}

impl Visit<BoxedBook> for TrimPartVisit {
    type Reply = Result<u64, Fault>;

    ghost can = { λ _ _. ⊤ };

    ghost does = { λ w x y reply. IsTrimPart w.keep w.most x.0.value y.0.value reply };

    fn visit(self, value: &mut BoxedBook) -> Result<u64, Fault> {
        let TrimPartVisit { alloc, keep, most } = self;
        value.0.trim_part(alloc, keep, most)
    }
}
