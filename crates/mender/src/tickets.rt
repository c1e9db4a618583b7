//! Numbers that threads draw, each once.
ghost use Rattle.std.specs.Prelude.{◌≡◌, ◌+◌, ◌-◌, ◌/◌, ◌^◌, ◌<◌, ◌++◌, ◌∷◌, [], length, All};
ghost use Rattle.std.specs.Prelude.{IfSome, IfNone, IfOk, OnOk, OnErr};
ghost use Rattle.gate.specs.Places.{times, AreApart};
ghost use Rattle.mender.specs.Drawn.{IsSole, DrewFirstNumbers};

use crate::view::{DrawStep, DrawerView, HalveStep, JoinStep, LookStep, TicketRule};
use atomic_table::{Seat, Table};
use std::alloc::{AllocError, Global};
use std::marker::Model;

/// How many numbers can be drawn in all.
const ALL: u64 = 1 << 40;

/// The numbers from 0 on, of which each is drawn once. It is one word and one kind of step, the
/// `fetch_add` of `draw`. A clause sees which tickets they are.
#[derive(Drop)]
pub struct Tickets {
    table: Table<(), DrawerView, (), TicketRule, Global>,
}

impl Model for Tickets {
    ghost use Rattle.std.specs.Prelude.{◌≡◌};
    ghost use Rattle.gate.specs.Places.{TableId};

    ghost Value = { TableId };

    ghost view = { λ t. t.table.shared.table_id };

    ghost invariant = { λ t. t.table.shared.table_id.words ≡ 1 };
}

/// The right to draw a number of tickets, its allowance. Dropping a drawer drops its allowance. A
/// clause sees its tickets, the allowance, and the numbers drawn so far, with those of the drawers
/// that it joined.
#[derive(Drop)]
pub struct Drawer {
    seat: Seat<(), DrawerView>,
    allowance: u64,
}

impl Model for Drawer {
    ghost use Rattle.mender.specs.Drawn.{DrawerState};

    ghost Value = { DrawerState };

    ghost use Rattle.mender.specs.Rule.{hand_of, IsDrawer};

    ghost view = { λ d. hand_of d.seat };

    ghost invariant = { λ d. IsDrawer d.seat.me d.allowance };
}

impl Tickets {
    /// Tickets of which none is drawn, and the one drawer for them, with an allowance of 2^40.
    /// `AllocError` if out of memory.
    pub fn open(alloc: Global) -> Result<(Tickets, Drawer), AllocError>
        ensures { IfOk result
            (λ r. r.1 ≡ record { tickets = r.0; allowance = 2 ^ 40; drawn = [] }) }
    {
        let Ok((table, seat)) = Table::of_words(alloc, &[0], &()) else {
            return Err(AllocError);
        };
        Ok((
            Tickets { table },
            Drawer {
                seat,
                allowance: ALL,
            },
        ))
    }

    /// The next number, for one of the drawer's allowance. `None` if and only if the allowance is
    /// 0, and then the drawer is unchanged. It does not allocate.
    ///
    /// The number is above all that the drawer has drawn, and no drawer of these tickets draws it
    /// again. A drawer that has joined all others draws the count of its draws. It knows which
    /// numbers were drawn: those below that count.
    pub fn draw(&self, drawer: &mut Drawer) -> Option<u64>
        requires { drawer.old.tickets ≡ self.now }
        ensures none { IfNone result ((drawer.old.allowance ≡ 0) × (drawer.new ≡ drawer.old)) }
        ensures some { IfSome result
            (λ n. (0 < drawer.old.allowance) × (drawer.new ≡ record drawer.old {
              allowance =
                  drawer.old.allowance - 1;
              drawn = drawer.old.drawn ++ n ∷ [];
            })) }
        ensures fresh { IfSome result (λ n. times n drawer.old.drawn ≡ 0) }
        ensures rises { IfSome result (λ n. All (λ m. m < n) drawer.old.drawn) }
        ensures next { IfSome result (λ n. IsSole drawer.old → n ≡ length drawer.old.drawn) }
        ensures whole { IfSome result (λ _. DrewFirstNumbers drawer.new) }
    {
        if drawer.allowance == 0 {
            return None;
        }
        let number = self
            .table
            .shared
            .fetch_add::<DrawStep>(&mut drawer.seat, 0, 1);
        drawer.allowance -= 1;
        Some(number)
    }
}

impl Drawer {
    /// A new drawer of the same tickets, which has drawn nothing, with half of the allowance,
    /// rounded down. The old one keeps the rest, and the numbers that it has drawn.
    ///
    /// `AllocError` if out of memory. Then the drawer is unchanged.
    pub fn split(&mut self, tickets: &Tickets) -> Result<Drawer, AllocError>
        requires { self.old.tickets ≡ tickets.now }
        ensures unchanged { OnOk result (self.new
            ≡ record self.old { allowance = self.old.allowance - self.old.allowance / 2 }) }
        ensures given { IfOk result (λ d. d ≡ record {
          tickets = self.old.tickets;
          allowance = self.old.allowance / 2;
          drawn = [];
        }) }
        ensures err { OnErr result (self.new ≡ self.old) }
    {
        let seat = tickets.table.shared.split_seat::<HalveStep>(&mut self.seat);
        let half = self.allowance / 2;
        self.allowance -= half;
        Ok(Drawer {
            seat,
            allowance: half,
        })
    }

    /// Takes in another drawer of the same tickets, with its allowance and the numbers that it has
    /// drawn. The two had drawn no number in common. It does not allocate.
    pub fn join(&mut self, tickets: &Tickets, other: Drawer)
        requires { (self.old.tickets ≡ tickets.now) × (other.tickets ≡ tickets.now) }
        ensures both { self.new ≡ record self.old {
          allowance = self.old.allowance +
              other.allowance;
          drawn = self.old.drawn ++ other.drawn;
        } }
        ensures apart { AreApart self.old.drawn other.drawn }
        ensures whole { DrewFirstNumbers self.new }
    {
        let Drawer { seat, allowance } = other;
        let shared = &tickets.table.shared;
        shared.join_seat::<JoinStep>(&mut self.seat, seat);
        shared.load::<LookStep>(&mut self.seat, 0);
        self.allowance += allowance;
    }
}
