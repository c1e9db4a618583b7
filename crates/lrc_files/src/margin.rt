//! What may still be lost.

ghost use Rattle.std.specs.Prelude.{◌≡◌, ◌⊎◌, ◌↔◌, ◌<◌, ◌≤◌, ℕ, true, false, bit_or, count_ones};
ghost use Rattle.lrc_code.specs.Code.{fragment_count, is_lost};
ghost use Rattle.lrc_files.specs.Margin.{AreFurther, IsRecoverable};

use lrc_code::{Code, LostSet};

/// Whether all fragments of a set are ones that the code has and that are not lost.
fn are_further(code: Code, lost: LostSet, more: LostSet) -> bool
    ensures { (result ≡ true) ↔ AreFurther code lost more }
{
    for i in 0..16u8 {
        if !more.left(i) && !is_there(code, lost, i) {
            return false;
        }
    }
    true
}

/// Whether the code has a fragment, and it is not lost.
fn is_there(code: Code, lost: LostSet, i: u8) -> bool
    requires { i < 16 }
    ensures { (result ≡ true) ↔ ((i < fragment_count code) × (is_lost lost i ≡ false)) }
{
    i < code.fragments() && lost.left(i)
}

/// Whether each fragment of the code is recoverable without these.
fn is_recoverable(code: Code, lost: u16) -> bool
    ensures { (result ≡ true) ↔ IsRecoverable code lost }
{
    LostSet::of_bits(lost).excess_in(code) <= 2
}

/// Whether the further loss of these fragments makes one unrecoverable.
fn is_fatal(code: Code, lost: u16, more: u16) -> bool
    ensures { (result ≡ true) ↔ (AreFurther code lost more
        × (IsRecoverable code (bit_or lost more) → ⊥)) }
{
    are_further(code, LostSet::of_bits(lost), LostSet::of_bits(more))
        && !is_recoverable(code, lost | more)
}

/// The number of these fragments if their further loss makes one unrecoverable, if that is less.
fn least_with(code: Code, lost: u16, more: u16, least: u32) -> u32
    ensures lower { result ≤ least }
    ensures fatal { AreFurther code lost more → (IsRecoverable code (bit_or lost more) → ⊥)
        → result ≤ count_ones more }
    ensures one { (result ≡ least) ⊎ (AreFurther code lost more × (count_ones more ≡ result)
        × (IsRecoverable code (bit_or lost more) → ⊥)) }
{
    if !is_fatal(code, lost, more) {
        return least;
    }
    more.count_ones().min(least)
}

/// The least number of further fragments whose loss would make one unrecoverable: no fewer do,
/// whichever they are. 0 if a fragment is unrecoverable already, and at most 5.
pub fn fatal_loss(code: Code, lost: u16) -> u32
    ensures most { result ≤ 5 }
    ensures safe { (more : ℕ) → more < 65536 → AreFurther code lost more
        → count_ones more < result → IsRecoverable code (bit_or lost more) }
    ensures least { result < 5 → (more : ℕ) × (more < 65536) × AreFurther code lost more
        × (count_ones more ≡ result) × (IsRecoverable code (bit_or lost more) → ⊥) }
{
    let mut least = 5;
    // a set of all sixteen has more than five
    for more in 0..u16::MAX {
        least = least_with(code, lost, more, least);
    }
    least
}
