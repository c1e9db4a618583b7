//! Places of what slots hold.
//!
//! An assignment repeats the code that drops the old value in what the prover sees of a function,
//! and each exit that of what it leaves. Here it stands once.
ghost use Rattle.std.specs.Prelude.{◌≡◌, None, Some, IfSome};

use session::{Held, Slot};
use std::alloc::Global;
use std::boxed::Box;

/// Writes a value into a place.
pub(crate) fn put_in<T: Drop>(place: &mut T, value: T)
    ensures { place.new ≡ value }
{
    *place = value;
}

/// Room for what a slot is to hold, or None if memory runs out.
pub(crate) fn make_room(alloc: Global) -> Option<Box<Option<Held>>>
    ensures { IfSome result (λ room. room.value ≡ None) }
{
    match Box::new(alloc, None) {
        Ok(room) => Some(room),
        Err(_) => None,
    }
}

/// Puts a value into its room, and both into a slot, whose box is lost if it had one.
pub(crate) fn fill(mut room: Box<Option<Held>>, held: Held, slot: &mut Slot)
    ensures { slot.new.held ≡ Some held }
{
    *room = Some(held);
    slot.put(room);
}
