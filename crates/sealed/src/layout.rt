//! The number of a blob's stripes, and of the bytes that a stripe holds.
ghost use Rattle.std.specs.Prelude.{◌≡◌, ◌≤◌, ◌↔◌, IsTrue};
ghost use Rattle.sealed.specs.Layout.{HasFragment, stripe_count, stripe_size};

use crate::Width;
use lrc_code::Code;

/// How many bytes of a blob one stripe holds.
#[tactic(auto, using(crate::proofs::Counting::some_data, crate::proofs::Counting::few_data))]
pub fn bytes_per_stripe(code: Code, width: Width) -> u64
    ensures value { result ≡ stripe_size code width }
    ensures range { (1 ≤ result) × (result ≤ 786432) }
{
    u64::from(code.data_fragments()) * u64::from(width.get())
}

/// How many stripes a blob of `len` bytes has, for any length. An empty blob has none.
#[tactic(auto, using(crate::proofs::Counting::rounded_up))]
pub fn count_stripes(code: Code, width: Width, len: u64) -> u64
    ensures { result ≡ stripe_count code width len }
{
    len.div_ceil(bytes_per_stripe(code, width))
}

/// Whether a blob of `len` bytes has this stripe, and its code this fragment. Both are numbered
/// from 0.
pub fn has_fragment(code: Code, width: Width, len: u64, stripe: u64, fragment: u64) -> bool
    ensures { IsTrue result ↔ HasFragment code width len stripe fragment }
{
    stripe < count_stripes(code, width, len) && fragment < u64::from(code.fragments())
}
