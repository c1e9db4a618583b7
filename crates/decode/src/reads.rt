//! How many fragments a decoder has to read.
ghost use Rattle.std.specs.Prelude.{◌≡◌, ℕ, ◌<◌, Bool, true, false, not, count_by};
ghost use Rattle.lrc_code.specs.Code.{fragment_count, data_count, all_fragments, is_alone, Open};

use lrc_code::Code;

/// How many fragments a decoder reads at least to rebuild a fragment that is not alone lost in its
/// group: as many as the code has data fragments. If fewer remain, the fragment is open, so that no
/// decoder can read fewer. A recipe reads no more.
pub fn least_reads(code: Code) -> u8
    ensures value { result ≡ data_count code }
    ensures least { (fewer : ℕ → Bool) (f : ℕ) → f < fragment_count code → fewer f ≡ true
        → is_alone code fewer f ≡ false
        → count_by (λ i. not (fewer i)) (all_fragments code) < result → Open code fewer f }
{
    code.data_fragments()
}
