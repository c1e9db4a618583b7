//! Work beside a thread in the critical section.
ghost use Rattle.std.specs.Prelude.{◌≡◌, false};

use super::{gives, granted, letters};
use crate::tests::compare;
use book::{Book, Limit, Name};
use gate::{Gate, Seat};
use lent::Grant;
use requests::BoxedBook;
use sealed::{Width, seal};
use std::alloc::Global;
use std::process::Abort;
use std::test::Fail;
use std::thread::join;

/// What a second seat does while the first is inside: it finds the gate entered, and walks a grant
/// to its end.
fn walk_beside(
    rt: &impl Abort,
    alloc: Global,
    gate: &Gate<BoxedBook>,
    seat: Seat<BoxedBook>,
    grant: &Grant,
) -> Seat<BoxedBook>
    requires { (seat.gate ≡ gate.now) × (seat.inside ≡ false) }
    ensures { (result.gate ≡ gate.now) × (result.inside ≡ false) }
{
    let mut seat = seat;
    if let Some(inside) = gate.try_enter(&mut seat) {
        gate.leave(&mut seat, inside);
        panic!(rt; "the gate was entered");
    }
    gives(rt, alloc, grant, b"ABCDEFGHIJKL", 0);
    seat
}

/// The number of entries that a seat finds at a free gate.
fn entries_found(rt: &impl Abort, gate: &Gate<BoxedBook>, seat: &mut Seat<BoxedBook>) -> usize
    requires { (seat.old.gate ≡ gate.now) × (seat.old.inside ≡ false) }
{
    let Some(inside) = gate.try_enter(seat) else {
        panic!(rt; "the gate was free again");
    };
    let entries = inside.value.0.entries().len();
    gate.leave(seat, inside);
    entries
}

/// A book with a blob under one name, and a grant of it.
fn begun(rt: &impl Abort, alloc: Global) -> Result<(Book, Grant), Fail> {
    let width = Width::new(1).expect(rt, "a width");
    let limit = Limit::new(8).expect(rt, "a limit");
    let mut book = Book::new(alloc, width, limit)?;
    let a = Name::new("a")?;
    let _stored = book.put(alloc, 1, a.duplicate(), seal(alloc, letters(), width)?)?;
    let grant = granted(rt, book.read(1, a, 0, 12));
    Ok((book, grant))
}

#[test]
fn walk_while_entered(rt: HostRuntime) -> Result<(), Fail> {
    let alloc = rt.alloc();
    let (book, grant) = begun(&rt, alloc)?;
    let (gate, mut first) = Gate::new(alloc, BoxedBook::boxed(alloc, book)?)?;
    let second = first.split(&gate)?;
    let Some(inside) = gate.try_enter(&mut first) else {
        panic!(rt; "the gate was free");
    };
    let (mut second, ()) = join(
        &rt,
        || -> Seat<BoxedBook>
            requires { (second.gate ≡ gate) × (second.inside ≡ false) }
            ensures { (result.gate ≡ gate) × (result.inside ≡ false) }
        { walk_beside(&rt, alloc, &gate, second, &grant) },
        || (),
    );
    gate.leave(&mut first, inside);
    compare(&rt, entries_found(&rt, &gate, &mut second), 2);
    Ok(())
}
