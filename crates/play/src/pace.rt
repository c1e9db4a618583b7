//! The pace of a run.

use shared::Pace;

/// A pace that admits every row at once.
#[derive(Clone, Copy, Drop)]
pub struct Always;

impl Pace for Always {
    ghost use Rattle.std.specs.Prelude.{◌≡◌, true};

    ghost may_answer = { λ _ _ goes_on. goes_on ≡ true };

    fn before(&self, _row: u32) -> bool {
        true
    }

    fn after(&self, _row: u32) {}
}
