//! The parities of a stripe.

ghost use Rattle.std.specs.Prelude.{◌≡◌, ◌*◌, ◌+◌, ◌<◌, ◌≤◌, ℕ, List, length};
ghost use Rattle.std.specs.Prelude.{slice_index_or, slice_range};
ghost use Rattle.std.specs.Borrow.{Bor};
ghost use Rattle.lrc_code.specs.Code.{data_count};
ghost use Rattle.fragments.specs.Data.{AreParitiesOf};

use lrc_code::{Code, encode_to};

/// The blocks of a stripe's data, and then empty slices.
fn blocks_of(code: Code, width: usize, bytes: &[u8]) -> [&[u8]; 12]
    requires width { width ≤ 1048576 }
    requires long { length bytes.now ≡ data_count code * width }
    ensures count { length result ≡ 12 }
    ensures slices { (f : ℕ) (other : Bor (List ℕ)) → f < data_count code
        → (slice_index_or result f other).now
        ≡ slice_range bytes.now (width * f) (width * f + width) }
{
    let mut slices: [&[u8]; 12] = [&[]; 12];
    for f in 0..usize::from(code.data_fragments()) {
        slices[f] = &bytes[width * f..width * f + width];
    }
    slices
}

/// Writes the blocks of the four parities of a stripe's data, one after the other.
pub fn seal_stripe(code: Code, width: usize, bytes: &[u8], parities: &mut [u8])
    requires width { width ≤ 1048576 }
    requires long { length bytes.now ≡ data_count code * width }
    requires room { length parities.old ≡ 4 * width }
    ensures { AreParitiesOf code width bytes.now parities.new }
{
    let slices = blocks_of(code, width, bytes);
    let (first, rest) = parities.split_at_mut(width);
    let (second, rest) = rest.split_at_mut(width);
    let (third, fourth) = rest.split_at_mut(width);
    let count = usize::from(code.data_fragments());
    encode_to(code, &slices[..count], first, second, third, fourth);
}
