//! Encoding: the four parities of the data fragments.

ghost use Rattle.lrc_code.specs.Code.{data_count};
ghost use Rattle.std.specs.Prelude.{◌≡◌, ℕ, ◌<◌, ◌*◌, ◌++◌, [], ◌∷◌, All, IfOk, EachIndex, length};
ghost use Rattle.std.specs.Prelude.{map, slice_index};
ghost use Rattle.lrc_code.specs.Column.{parity_of};
ghost use Rattle.lrc_code.specs.Stripe.{IsStripe, list_at, bytes_at, quarters};

use crate::recipes::weight_of;
use crate::{Code, NoMemory};
use kernels::{combine_lists, write_parities};
use std::alloc::{AllocError, Global};

/// The elements of a slice are below 256: a proof knows it of a parameter, and not of a slice
/// inside another.
fn fits(bytes: &[u8])
    ensures { EachIndex bytes.now (λ k. slice_index bytes.now k < 256) }
{}

/// The same of each of the slices.
fn all_fit(sources: &[&[u8]])
    ensures { (i k : ℕ) → i < length sources.now
        → k < length (list_at (map (λ s. s.now) sources.now) i)
        → slice_index (list_at (map (λ s. s.now) sources.now) i) k < 256 }
{
    for i in 0..sources.len() {
        fits(sources[i]);
    }
}

/// Writes the parity that an equation gives.
fn parity_to(bytes: &mut [u8], code: Code, equation: usize, sources: &[&[u8]])
    requires equation_below { equation < 4 }
    requires count { length sources.now ≡ data_count code }
    requires long { All (λ s. length s.now ≡ length bytes.old) sources.now }
    ensures { EachIndex bytes.new (λ k. slice_index bytes.new k
        ≡ parity_of code equation (bytes_at (map (λ s. s.now) sources.now) k)) }
{
    let mut weights = [0; 12];
    for i in 0..sources.len() {
        weights[i] = weight_of(code, equation, i);
    }
    combine_lists(bytes, &weights[..sources.len()], sources);
}

/// Writes the four parities of a code's data fragments, which have as many bytes as each parity:
/// together they are a stripe of the code. Does not allocate.
pub fn encode_to(
    code: Code,
    sources: &[&[u8]],
    first: &mut [u8],
    second: &mut [u8],
    third: &mut [u8],
    fourth: &mut [u8],
)
    requires count { length sources.now ≡ data_count code }
    requires same { All (λ s. length s.now ≡ length first.old) sources.now }
    requires same_second { length second.old ≡ length first.old }
    requires same_third { length third.old ≡ length first.old }
    requires same_fourth { length fourth.old ≡ length first.old }
    ensures { IsStripe code (length first.new) (list_at (map
        (λ s. s.now) sources.now ++ first.new ∷ second.new ∷ third.new ∷ fourth.new ∷ [])) }
{
    all_fit(sources);
    match code {
        Code::Wide => write_parities(sources, first, second, third, fourth),
        Code::Small => {
            parity_to(first, code, 0, sources);
            parity_to(second, code, 1, sources);
            parity_to(third, code, 2, sources);
            parity_to(fourth, code, 3, sources);
        }
    }
}

/// The four parities of a code's data fragments, which have `w` bytes each: together they are a
/// stripe of the code. Refused memory is `NoMemory`.
pub fn encode_in(
    alloc: Global,
    code: Code,
    sources: &[&[u8]],
    w: usize,
) -> Result<[Vec<u8>; 4], NoMemory>
    requires count { length sources.now ≡ data_count code }
    requires long { All (λ s. length s.now ≡ w) sources.now }
    ensures { IfOk result (λ parities. IsStripe code w (list_at (map (λ s. s.now) sources.now ++ map
        (λ v. v.items) parities))) }
{
    let mut first = vec![in alloc; 0; w]?;
    let mut second = vec![in alloc; 0; w]?;
    let mut third = vec![in alloc; 0; w]?;
    let mut fourth = vec![in alloc; 0; w]?;
    encode_to(
        code,
        sources,
        &mut first,
        &mut second,
        &mut third,
        &mut fourth,
    );
    Ok([first, second, third, fourth])
}

/// Writes the four parities of a code's data fragments, of `w` bytes each, one after the other.
fn encode_quarters(code: Code, sources: &[&[u8]], w: usize, parities: &mut [u8])
    requires count { length sources.now ≡ data_count code }
    requires long { All (λ s. length s.now ≡ w) sources.now }
    requires room { length parities.old ≡ 4 * w }
    ensures { IsStripe code w (list_at (map (λ s. s.now) sources.now ++ quarters w parities.new)) }
{
    let (first, rest) = parities.split_at_mut(w);
    let (second, rest) = rest.split_at_mut(w);
    let (third, fourth) = rest.split_at_mut(w);
    encode_to(code, sources, first, second, third, fourth);
}

/// The four parities of a code's data fragments, which have `w` bytes each, one after the other in
/// one list, for one request for memory. Refused memory is `NoMemory`.
pub fn encode_joined(
    alloc: Global,
    code: Code,
    sources: &[&[u8]],
    w: usize,
) -> Result<Vec<u8>, NoMemory>
    requires count { length sources.now ≡ data_count code }
    requires long { All (λ s. length s.now ≡ w) sources.now }
    ensures long { IfOk result (λ parities. length parities.items ≡ 4 * w) }
    ensures stripe { IfOk result (λ parities. IsStripe code w (list_at (map
        (λ s. s.now) sources.now ++ quarters w parities.items))) }
{
    // no memory has more bytes than a `usize` counts
    let Some(size) = w.checked_mul(4) else {
        return Err(AllocError);
    };
    let mut parities = vec![in alloc; 0; size]?;
    encode_quarters(code, sources, w, &mut parities);
    Ok(parities)
}

/// Fragments 12 to 15 of the stripe of LRC(12,2,2) with these data fragments, which have `w` bytes
/// each. Refused memory is `NoMemory`.
pub fn encode(alloc: Global, sources: &[&[u8]; 12], w: usize) -> Result<[Vec<u8>; 4], NoMemory>
    requires { All (λ s. length s.now ≡ w) sources.now }
    ensures { IfOk result (λ parities. IsStripe Code.Wide w (list_at (map
        (λ s. s.now) sources.now ++ map (λ v. v.items) parities))) }
{
    let parities = encode_in(alloc, Code::Wide, sources, w)?;
    Ok(parities)
}

/// Fragments 6 to 9 of the stripe of LRC(6,2,2) with these data fragments, which have `w` bytes
/// each. Refused memory is `NoMemory`.
pub fn encode_small(alloc: Global, sources: &[&[u8]; 6], w: usize) -> Result<[Vec<u8>; 4], NoMemory>
    requires { All (λ s. length s.now ≡ w) sources.now }
    ensures { IfOk result (λ parities. IsStripe Code.Small w (list_at (map
        (λ s. s.now) sources.now ++ map (λ v. v.items) parities))) }
{
    let parities = encode_in(alloc, Code::Small, sources, w)?;
    Ok(parities)
}
