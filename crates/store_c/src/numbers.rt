//! The numbers of a store, for C.
ghost use Rattle.store_c.specs.Numbers.{IsNumbersCall};

use crate::answers::number_of;
use crate::status::DONE;
use session::Session;

/// The numbers of a store in C's layout. A total above `u64::MAX` is given as `u64::MAX`.
#[repr(C)]
#[derive(Clone, Copy, Drop)]
pub struct StoreNumbers {
    pub blobs: u64,
    pub bytes: u64,
    pub lost: u64,
    pub unrecoverable: u64,
    pub calls: u64,
    pub entries: u64,
}

/// Writes the numbers of the store, and returns the status.
pub(crate) fn numbers(session: &mut Session, target: &mut StoreNumbers) -> u32
    ensures { IsNumbersCall session.old result target.old target.new session.new }
{
    match session.numbers() {
        Ok(numbers) => {
            *target = StoreNumbers {
                blobs: numbers.blobs,
                bytes: numbers.bytes,
                lost: numbers.lost,
                unrecoverable: numbers.unrecoverable,
                calls: numbers.calls,
                entries: numbers.entries,
            };
            DONE
        }
        Err(fault) => number_of(fault),
    }
}
