//! The contents of a slot, lent in place for as long as the slot is borrowed.
ghost use Rattle.std.specs.Prelude.{◌≡◌, ◌≢◌, None};
ghost use Rattle.std.specs.Borrow.{sem, follows};
ghost use Rattle.core.specs.contracts.option.Option.{the_row as option_row};
ghost use Rattle.session.specs.contracts.held.Held.{the_row};
ghost use Rattle.session.specs.contracts.slot.Slot.{the_row as slot_row};
ghost use Rattle.session.specs.Holding.{holding};

use crate::{Held, Slot};

impl Slot {
    /// Lends the contents of the box. The slot keeps whatever the borrower leaves there.
    pub fn get_mut(&mut self) -> &mut Option<Held>
        requires { self.old.held ≢ None }
        ensures* follows { sem 𝓛 (follows slot_row (option_row the_row) self.entry.ghost_name
            result.ghost_name (holding self.entry.now)) }
        ensures value { result.now ≡ self.old.held }
    {
        unsafe { &mut *(self.at as *mut Option<Held>) }
    }
}
