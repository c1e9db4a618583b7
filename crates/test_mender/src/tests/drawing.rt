//! Numbers drawn by many threads.
ghost use Rattle.std.specs.Prelude.{◌≡◌};
ghost use Rattle.std.specs.List.{All};

use super::compare;
use mender::{Drawer, Tickets};
use std::alloc::Global;
use std::process::Abort;
use std::sync::Wait;
use std::thread::{Threads, map_vec};

/// A drawer, and the numbers that were drawn with it.
#[derive(Drop)]
struct Drawn {
    drawer: Drawer,
    numbers: Vec<u64>,
}

/// Draws a hundred numbers.
fn draw_hundred(rt: &impl Abort, alloc: Global, tickets: &Tickets, mut drawer: Drawer) -> Drawn
    requires { drawer.tickets ≡ tickets.now }
    ensures { result.drawer.tickets ≡ tickets.now }
{
    let mut numbers = Vec::with_capacity(alloc, 100).expect(rt, "memory");
    for _ in 0..100u64 {
        if let Some(number) = tickets.draw(&mut drawer) {
            numbers.push(number).expect(rt, "memory");
        }
    }
    Drawn { drawer, numbers }
}

/// So many drawers, split from the first.
fn drawers(
    rt: &impl Abort,
    alloc: Global,
    count: u64,
    tickets: &Tickets,
    first: &mut Drawer,
) -> Vec<Drawer>
    requires { first.old.tickets ≡ tickets.now }
    ensures first { first.new.tickets ≡ tickets.now }
    ensures drawers { All (λ d. d.tickets ≡ tickets.now) result.items }
{
    let mut drawers = Vec::new(alloc);
    for _ in 0..count {
        let drawer = first.split(tickets).expect(rt, "memory");
        drawers.push(drawer).expect(rt, "memory");
    }
    drawers
}

/// All numbers, rising, with the drawers joined to the first.
fn joined(
    rt: &impl Abort,
    alloc: Global,
    tickets: &Tickets,
    first: &mut Drawer,
    all: Vec<Drawn>,
) -> Vec<u64>
    requires first { first.old.tickets ≡ tickets.now }
    requires all { All (λ drawn. drawn.drawer.tickets ≡ tickets.now) all.items }
{
    let mut numbers = Vec::new(alloc);
    for drawn in all {
        first.join(tickets, drawn.drawer);
        numbers
            .extend_from_slice(&drawn.numbers)
            .expect(rt, "memory");
    }
    numbers.sort().expect(rt, "memory");
    numbers
}

/// All numbers that so many threads draw, a hundred each, rising.
fn numbers_by<R: Threads + Wait + Sync + Abort>(rt: &R, alloc: Global, count: u64) -> Vec<u64> {
    let (tickets, mut first) = Tickets::open(alloc).expect(rt, "memory");
    let drawers = drawers(rt, alloc, count, &tickets, &mut first);
    let all = map_vec(
        rt,
        drawers,
        &|drawer: Drawer| -> Drawn
            requires { drawer.tickets ≡ tickets }
            ensures { result.drawer.tickets ≡ tickets }
        { draw_hundred(rt, alloc, &tickets, drawer) },
    )
    .expect(rt, "memory");
    joined(rt, alloc, &tickets, &mut first, all)
}

/// Whether the numbers are those from 0 on.
fn are_all(numbers: &[u64]) -> bool {
    numbers
        .iter()
        .enumerate()
        .all(|(place, &number)| place as u64 == number)
}

#[test]
fn each_number_is_drawn_once(rt: HostRuntime) {
    for count in &[1, 2, 16] {
        let numbers = numbers_by(&rt, rt.alloc(), *count);
        compare(&rt, numbers.len() as u64, 100 * *count);
        assert!(rt; are_all(&numbers));
    }
}
