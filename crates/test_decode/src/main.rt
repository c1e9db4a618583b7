//! Decodes every set of at most four lost fragments of both codes, and compares what is written
//! with what was lost. It prints how many sets are decoded whole, and ends with status 1 at the
//! first difference.
#![tactic(auto)]

ghost use Rattle.std.specs.Prelude.{◌≡◌, ◌<◌, ◌↔◌, true, All, IfSome, IsTrue, length};
ghost use Rattle.lrc_code.specs.Code.{fragment_count};
ghost use Rattle.lrc_code.specs.Stripe.{is_absent};

use anyhow::{Result, ensure};
use decode::decode_to;
use lrc_code::{Code, Left, LostSet, encode_in};
use std::alloc::Global;

/// Bytes of a fragment: at 1 each is made by its recipe, then more and more sets are made by the
/// syndromes. The last width leaves one byte after whole blocks.
const WIDTHS: [usize; 4] = [1, 129, 1024, 4097];

/// The fragments of a stripe.
fn stripe_of(alloc: Global, code: Code, width: usize) -> Result<Vec<Vec<u8>>> {
    let mut fragments = Vec::<Vec<u8>>::new(alloc);
    for f in 0..code.data_fragments() {
        let mut bytes = vec![in alloc; 0; width]?;
        for k in 0..bytes.len() {
            bytes[k] = f
                .wrapping_mul(59)
                .wrapping_add(((k % 256) as u8).wrapping_mul(7));
        }
        fragments.push(bytes)?;
    }
    let [first, second, third, fourth] = parities_of(alloc, code, fragments.as_slice(), width)?;
    fragments.push(first)?;
    fragments.push(second)?;
    fragments.push(third)?;
    fragments.push(fourth)?;
    Ok(fragments)
}

/// The parities of the data.
fn parities_of(
    alloc: Global,
    code: Code,
    fragments: &[Vec<u8>],
    width: usize,
) -> Result<[Vec<u8>; 4]> {
    let mut data = Vec::<&[u8]>::new(alloc);
    for bytes in fragments.iter() {
        data.push(bytes.as_slice())?;
    }
    ensure!(
        data.len() == usize::from(code.data_fragments()) && are_long(data.as_slice(), width),
        "not the data"
    );
    Ok(encode_in(alloc, code, data.as_slice(), width)?)
}

/// Whether each slice has `width` bytes.
fn are_long(slices: &[&[u8]], width: usize) -> bool
    ensures { IsTrue result ↔ All (λ s. length s.now ≡ width) slices.now }
{
    slices.iter().all(|slice| slice.len() == width)
}

/// The remaining fragments of a stripe.
fn left_of(code: Code, stripe: &[Vec<u8>], lost: LostSet) -> Left<'_> {
    let mut fragments = [None; 16];
    for (f, bytes) in stripe.iter().enumerate().take(16) {
        if lost.left(f as u8) {
            fragments[f] = Some(bytes.as_slice());
        }
    }
    Left { code, fragments }
}

/// The lost fragment at a place of the list, or None past its end.
fn chosen_at(left: &Left, lost: &[u8], i: usize) -> Option<u8>
    ensures { IfSome result (λ f. (f < fragment_count left.now.code)
        × (is_absent left.now.fragments f ≡ true)) }
{
    let f = *lost.get(i)?;
    if f < left.code.fragments() && left.fragments[usize::from(f)].is_none() {
        Some(f)
    } else {
        None
    }
}

/// The bytes of the lost fragments, or None if one of them is unrecoverable.
fn decoded(alloc: Global, left: &Left, lost: &[u8], width: usize) -> Result<Option<[Vec<u8>; 4]>> {
    ensure!(left.reaches(width), "a fragment is too short");
    let chosen = [
        chosen_at(left, lost, 0),
        chosen_at(left, lost, 1),
        chosen_at(left, lost, 2),
        chosen_at(left, lost, 3),
    ];
    let mut first = vec![in alloc; 0; width]?;
    let mut second = vec![in alloc; 0; width]?;
    let mut third = vec![in alloc; 0; width]?;
    let mut fourth = vec![in alloc; 0; width]?;
    let did = decode_to(
        left,
        chosen,
        0,
        width,
        &mut first,
        &mut second,
        &mut third,
        &mut fourth,
    );
    Ok(if did {
        Some([first, second, third, fourth])
    } else {
        None
    })
}

/// Whether the set is decoded whole. An error if that is wrong, or the bytes differ.
fn is_whole(
    alloc: Global,
    code: Code,
    stripe: &[Vec<u8>],
    lost: LostSet,
    width: usize,
) -> Result<bool> {
    let numbers = lost.list_in(code);
    let left = left_of(code, stripe, lost);
    let found = decoded(alloc, &left, numbers.as_slice(), width)?;
    let Some(made) = found else {
        ensure!(lost.excess_in(code) > 2, "not decoded");
        return Ok(false);
    };
    for (bytes, f) in made.iter().zip(numbers.as_slice().iter()) {
        let wanted = stripe.get(usize::from(*f));
        ensure!(
            wanted.is_some_and(|wanted| wanted.as_slice() == bytes.as_slice()),
            "other bytes"
        );
    }
    Ok(true)
}

/// How many sets of at most four lost fragments are decoded whole.
fn count_whole(alloc: Global, code: Code, width: usize) -> Result<u32> {
    let stripe = stripe_of(alloc, code, width)?;
    let mut whole = 0u32;
    for bits in 0..=u16::MAX >> (16 - code.fragments()) {
        let lost = LostSet::of_bits(bits);
        if lost.count_in(code) <= 4 && is_whole(alloc, code, stripe.as_slice(), lost, width)? {
            whole = whole.saturating_add(1);
        }
    }
    Ok(whole)
}

fn main(rt: HostRuntime) -> Result<()> {
    for width in WIDTHS {
        let wide = count_whole(rt.alloc(), Code::Wide, width)?;
        let small = count_whole(rt.alloc(), Code::Small, width)?;
        println!(rt; "{width} bytes a fragment: {wide} and {small} lost sets decoded whole")?;
    }
    Ok(())
}
