//! Blocks and the data of a stripe, from the blocks that remain.

ghost use Rattle.std.specs.Prelude.{◌≡◌, ◌*◌, ◌<◌, ◌↔◌, ℕ, true, false, length};
ghost use Rattle.lrc_code.specs.Code.{Open, data_count, fragment_count};
ghost use Rattle.lrc_code.specs.Stripe.{HasRange, Reaches, Rebuilds, is_absent};
ghost use Rattle.fragments.specs.Data.{HasLostData, JoinsTo};

use decode::rebuild_to;
use lrc_code::Left;

/// Writes the block of a fragment: the one that remains, or else the one that the others determine.
/// Returns false if and only if the fragment is absent and unrecoverable.
pub fn block_to(left: &Left, f: u8, target: &mut [u8]) -> bool
    requires inside { HasRange left.now.code left.now.fragments f 0 (length target.old) }
    ensures lost { (result ≡ false) ↔ ((is_absent left.now.fragments f ≡ true)
        × Open left.now.code (is_absent left.now.fragments) f) }
    ensures length_of { length target.new ≡ length target.old }
    ensures ok { result ≡ true
        → Rebuilds left.now.code left.now.fragments f 0 (length target.old) target.new }
{
    match left.fragments[usize::from(f)] {
        Some(bytes) => {
            target.copy_from_slice(&bytes[..target.len()]);
            true
        }
        None => {
            let to = target.len();
            rebuild_to(left, f, 0, to, target)
        }
    }
}

/// Writes the data of a stripe, of which `left` has the blocks that remain: the bytes of every
/// stripe that agrees with them, one data fragment after the other. Returns false if and only if a
/// data fragment is lost and unrecoverable.
pub fn join_stripe(left: &Left, width: usize, target: &mut [u8]) -> bool
    requires reach { (i : ℕ) → i < fragment_count left.now.code
        → is_absent left.now.fragments i ≡ false → Reaches left.now.fragments width i }
    requires room { length target.old ≡ data_count left.now.code * width }
    ensures lost { (result ≡ false) ↔ HasLostData left.now.code left.now.fragments }
    ensures length_of { length target.new ≡ length target.old }
    ensures ok { result ≡ true
        → JoinsTo left.now.code left.now.fragments width target.new }
{
    for f in 0..left.code.data_fragments() {
        let at = usize::from(f) * width;
        if !block_to(left, f, &mut target[at..at + width]) {
            return false;
        }
    }
    true
}
