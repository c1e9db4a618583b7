ghost use Rattle.std.specs.Prelude.{◌≡◌, ◌≤◌, ◌++◌, ◌∷◌, [], ℕ, List, false, length, MatchBool};
ghost use Rattle.std.specs.Prelude.{IsTrue, IfSome, IfOk, All};
ghost use Rattle.gate.specs.Places.{last_of};

use super::compare;
use gate::{Follows, Gate, NoMemory, Seat};
use std::alloc::Global;
use std::collections::BTreeMap;
use std::marker::Model;
use std::process::Abort;
use std::sync::Wait;
use std::test::Fail;
use std::thread::{join, map_vec};

// How often each was counted, and all in order.
#[derive(Drop)]
struct Tally {
    counts: BTreeMap<u32, u64>,
    hits: Vec<u32>,
}

impl Follows for Tally {
    ghost use Rattle.std.specs.Prelude.{◌≤◌, length};

    ghost follows = { λ x y. length x.hits.items ≤ length y.hits.items };
}

impl Tally {
    // Counts one, if there is memory.
    fn count(&mut self, who: u32)
        ensures { length self.old.hits.items ≤ length self.new.hits.items }
    {
        if self.hits.push(who).is_ok() {
            let before = self.counts.get(&who).copied().unwrap_or(0);
            let _ = self.counts.insert(who, before.saturating_add(1));
        }
    }
}

/// A gate over an empty tally, and its first seat.
fn opened(rt: &impl Abort, alloc: Global) -> (Gate<Tally>, Seat<Tally>)
    ensures { (result.1.gate ≡ result.0) × (result.1.inside ≡ false) × (result.1.room ≡ 64) }
{
    let opening = Tally {
        counts: BTreeMap::new(alloc),
        hits: Vec::new(alloc),
    };
    match Gate::new(alloc, opening) {
        Ok(opened) => opened,
        Err(_) => panic!(rt; "there was no memory"),
    }
}

/// Whether a tally has so many hits, and so many of one number.
fn has(tally: &Tally, hits: usize, who: u32, count: u64) -> bool {
    tally.hits.len() == hits && tally.counts.get(&who).copied() == Some(count)
}

fn count_many<R: Wait>(rt: &R, gate: &Gate<Tally>, seat: Seat<Tally>, who: u32) -> Seat<Tally>
    requires { (seat.gate ≡ gate.now) × (seat.inside ≡ false) }
    ensures { (result.gate ≡ gate.now) × (result.inside ≡ false) × (result.room ≡ seat.room) }
{
    let mut seat = seat;
    for _ in 0..1000 {
        let mut inside = gate.enter(rt, &mut seat);
        inside.value.count(who);
        gate.leave(&mut seat, inside);
    }
    seat
}

#[test]
fn two_threads_count(rt: HostRuntime) -> Result<(), Fail> {
    let (gate, mut first) = opened(&rt, rt.alloc());
    let Ok(second) = first.split(&gate) else {
        panic!(rt; "there was no memory")
    };
    let (mut first, second) = join(
        &rt,
        || -> Seat<Tally>
            requires { (first.gate ≡ gate) × (first.inside ≡ false) × (first.room ≡ 63) }
            ensures { (result.gate ≡ gate) × (result.inside ≡ false) × (result.room ≡ 63) }
        { count_many(&rt, &gate, first, 1) },
        || -> Seat<Tally>
            requires { (second.gate ≡ gate) × (second.inside ≡ false) × (second.room ≡ 1) }
            ensures { (result.gate ≡ gate) × (result.inside ≡ false) × (result.room ≡ 1) }
        { count_many(&rt, &gate, second, 2) },
    );
    first.join(&gate, second);
    let tally = gate.close(first);
    assert!(rt; has(&tally, 2000, 1, 1000));
    assert!(rt; has(&tally, 2000, 2, 1000));
    Ok(())
}

/// Sixteen seats, split from the first.
fn sixteen_seats(
    alloc: Global,
    gate: &Gate<Tally>,
    first: &mut Seat<Tally>,
) -> Result<Vec<Seat<Tally>>, NoMemory>
    requires { (first.old.gate ≡ gate.now) × (first.old.inside ≡ false) × (first.old.room ≡ 64) }
    ensures first { (first.new.gate ≡ gate.now) × (first.new.inside ≡ false) }
    ensures seats { IfOk result (λ seats. All (λ seat. (seat.gate ≡ gate.now)
        × (seat.inside ≡ false)) seats.items) }
{
    let mut seats = Vec::with_capacity(alloc, 16)?;
    for _ in 0..16u64 {
        seats.push(first.split(gate)?)?;
    }
    Ok(seats)
}

/// Joins all seats into the first.
fn join_all(gate: &Gate<Tally>, first: &mut Seat<Tally>, seats: Vec<Seat<Tally>>)
    requires first { (first.old.gate ≡ gate.now) × (first.old.inside ≡ false) }
    requires seats { All (λ seat. (seat.gate ≡ gate.now) × (seat.inside ≡ false)) seats.items }
    ensures { (first.new.gate ≡ gate.now) × (first.new.inside ≡ false) }
{
    for seat in seats {
        first.join(gate, seat);
    }
}

#[test]
fn sixteen_threads_count(rt: HostRuntime) -> Result<(), Fail> {
    let (gate, mut first) = opened(&rt, rt.alloc());
    let seats = sixteen_seats(rt.alloc(), &gate, &mut first)?;
    let seats = map_vec(
        &rt,
        seats,
        &|seat: Seat<Tally>| -> Seat<Tally>
            requires { (seat.gate ≡ gate) × (seat.inside ≡ false) }
            ensures { (result.gate ≡ gate) × (result.inside ≡ false) }
        { count_many(&rt, &gate, seat, 3) },
    )?;
    join_all(&gate, &mut first, seats);
    assert!(rt; first.room() == 64);
    let tally = gate.close(first);
    assert!(rt; has(&tally, 16000, 3, 16000));
    Ok(())
}

/// How many hits a seat finds, or `None` if the gate is entered.
fn hits_found(gate: &Gate<Tally>, seat: &mut Seat<Tally>) -> Option<usize>
    requires { (seat.old.gate ≡ gate.now) × (seat.old.inside ≡ false) }
    ensures { (seat.new.gate ≡ gate.now) × (seat.new.inside ≡ false)
        × (seat.new.room ≡ seat.old.room) }
{
    let inside = gate.try_enter(seat)?;
    let hits = inside.value.hits.len();
    gate.leave(seat, inside);
    Some(hits)
}

#[test]
fn who_is_second_finds_it_entered(rt: HostRuntime) -> Result<(), Fail> {
    let (gate, mut first) = opened(&rt, rt.alloc());
    let Ok(mut second) = first.split(&gate) else {
        panic!(rt; "there was no memory")
    };
    let Some(mut inside) = gate.try_enter(&mut first) else {
        panic!(rt; "the gate was free")
    };
    compare(&rt, hits_found(&gate, &mut second), None);
    inside.value.count(7);
    gate.leave(&mut first, inside);
    compare(&rt, hits_found(&gate, &mut second), Some(1));
    compare(&rt, first.room() + second.room(), 64);
    Ok(())
}

// What was noted, in order. Contracts see it as a list.
#[derive(Drop)]
struct Log {
    notes: Vec<u32>,
}

impl Model for Log {
    ghost use Rattle.std.specs.Prelude.{List, ℕ, ◌≤◌, length};

    ghost Value = { List ℕ };

    ghost view = { λ l. l.notes.items };

    ghost invariant = { λ l. length l.notes.items ≤ 1000 };
}

impl Follows for Log {
    ghost use mathlib.Core.List.{IsPrefix};

    ghost follows = { λ x y. IsPrefix x y };
}

impl Log {
    // Adds a note, if there is room for it.
    fn note(&mut self, x: u32) -> bool
        ensures { MatchBool result (self.new ≡ self.old ++ x ∷ []) (self.new ≡ self.old) }
    {
        if self.notes.len() >= 1000 || self.notes.reserve(1).is_err() {
            return false;
        }
        self.notes.push_reserved(x);
        true
    }
}

// Adds a note to what the last one left, and says whether it did.
fn note<R: Wait>(rt: &R, gate: &Gate<Log>, seat: &mut Seat<Log>, x: u32) -> bool
    requires { (seat.old.gate ≡ gate.now) × (seat.old.inside ≡ false) }
    ensures same { (seat.new.gate ≡ gate.now) × (seat.new.inside ≡ false)
        × (seat.new.room ≡ seat.old.room) }
    ensures noted { IsTrue result → IfSome (last_of seat.new.list)
        (λ notes. (before : List ℕ) × (notes ≡ before ++ x ∷ [])) }
{
    let mut inside = gate.enter(rt, seat);
    let done = inside.value.note(x);
    gate.leave(seat, inside);
    done
}

#[test]
fn notes_of_a_type_with_a_model(rt: HostRuntime) -> Result<(), Fail> {
    let opening = Log {
        notes: Vec::new(rt.alloc()),
    };
    let Ok((gate, mut seat)) = Gate::new(rt.alloc(), opening) else {
        panic!(rt; "there was no memory")
    };
    assert!(rt; note(&rt, &gate, &mut seat, 5) && note(&rt, &gate, &mut seat, 6));
    let log = gate.close(seat);
    compare(&rt, log.notes.len(), 2);
    Ok(())
}
