use super::compare;
use lrc_code::{
    Code, Left, LostSet, NoMemory, Plans, Rebuild, Term, encode, encode_joined, encode_small,
    encode_to, is_alone_in, is_open, rebuild, rebuild_local, rebuild_to, recipe,
};
use std::alloc::Global;
use std::process::Abort;
use std::test::Fail;

/// The letters A to L with their parities.
const LETTERS: [u8; 16] = [
    0x41, 0x42, 0x43, 0x44, 0x45, 0x46, 0x47, 0x48, 0x49, 0x4a, 0x4b, 0x4c, 0x07, 0x0b, 0x13, 0x9f,
];

/// The set whose bits are those of `bits`.
fn set_of(bits: u32) -> LostSet {
    let mut set = LostSet::empty();
    for f in 0..16u8 {
        if bits >> f & 1 == 1 {
            set = set.with(f);
        }
    }
    set
}

/// How many of the sets below `end` are recoverable: all of them, and those of four.
fn recoverable(code: Code, end: u32) -> (u32, u32) {
    let mut all = 0u32;
    let mut of_four = 0u32;
    for bits in 0..end {
        if set_of(bits).excess_in(code) <= 2 {
            all = all.wrapping_add(1);
            if bits.count_ones() == 4 {
                of_four = of_four.wrapping_add(1);
            }
        }
    }
    (all, of_four)
}

/// Whether twelve fragments of one byte have these parities.
fn has_parities(alloc: Global, d: &[u8; 12], wanted: &[u8; 4]) -> Result<bool, NoMemory> {
    let sources = [
        &d[0..1],
        &d[1..2],
        &d[2..3],
        &d[3..4],
        &d[4..5],
        &d[5..6],
        &d[6..7],
        &d[7..8],
        &d[8..9],
        &d[9..10],
        &d[10..11],
        &d[11..12],
    ];
    let parities = encode(alloc, &sources, 1)?;
    Ok(
        parities
            .iter()
            .zip(wanted)
            .all(|(parity, byte)| parity.as_slice() == [*byte].as_slice()),
    )
}

/// What is left of a column where some of its fragments are lost.
fn left_of(column: &[u8; 16], lost: LostSet) -> Left<'_> {
    let mut fragments = [None; 16];
    for f in 0..16u8 {
        if lost.left(f) {
            fragments[usize::from(f)] = Some(&column[usize::from(f)..usize::from(f) + 1]);
        }
    }
    Left {
        code: Code::Wide,
        fragments,
    }
}

/// The byte of a lost fragment, or None where it is open.
fn rebuilt(rt: &impl Abort, alloc: Global, left: &Left, f: usize) -> Option<u8> {
    assert!(rt; f < usize::from(left.code.fragments()));
    let slot = left.fragments[f];
    assert!(rt; slot.is_none() && left.reaches(1));
    match rebuild(alloc, left, f, 0, 1) {
        Ok(bytes) => bytes.first().copied(),
        Err(reason) => {
            compare(rt, reason, Rebuild::Open);
            None
        }
    }
}

/// The same, into a list: the byte that it has afterwards.
fn rebuilt_to(rt: &impl Abort, left: &Left, f: usize) -> (bool, u8) {
    assert!(rt; f < usize::from(left.code.fragments()));
    let slot = left.fragments[f];
    assert!(rt; slot.is_none() && left.reaches(1));
    let mut bytes = [0xee];
    let done = rebuild_to(left, f, 0, 1, &mut bytes);
    (done, bytes[0])
}

/// The same by recipes that are kept.
fn rebuilt_with(
    rt: &impl Abort,
    alloc: Global,
    plans: &mut Plans,
    left: &Left,
    f: usize,
) -> Option<u8> {
    assert!(rt; f < usize::from(left.code.fragments()));
    let slot = left.fragments[f];
    assert!(rt; slot.is_none() && left.reaches(1));
    let bytes = plans.rebuild(alloc, left, f, 0, 1).ok()?;
    bytes.first().copied()
}

/// The byte of a fragment that is alone lost in its group.
fn rebuilt_alone(
    rt: &impl Abort,
    alloc: Global,
    left: &Left,
    f: usize,
) -> Result<Option<u8>, NoMemory> {
    assert!(rt; f < usize::from(left.code.fragments()));
    assert!(rt; left.reaches(1));
    if is_alone_in(left.code, left.lost(), f as u8) {
        let bytes = rebuild_local(alloc, left, f, 0, 1)?;
        return Ok(bytes.first().copied());
    }
    Ok(None)
}

#[test]
fn recoverable_sets(rt: HostRuntime) -> Result<(), Fail> {
    compare(&rt, recoverable(Code::Wide, 65536), (2265, 1568));
    compare(&rt, recoverable(Code::Small, 1024), (356, 180));
    Ok(())
}

/// That the set is of fragment 15 alone.
fn is_of_the_last(rt: &impl Abort, lost: LostSet) {
    assert!(rt; lost.left(3) && !lost.left(15));
    compare(rt, LostSet::of_bits(0x8000), lost);
    compare(rt, lost.excess(), 1);
    assert!(rt; !is_open(lost, 15));
}

/// That the set is of the fragments 2 and 15.
fn is_of_two(rt: &impl Abort, both: LostSet) {
    let counts = (both.count_in(Code::Wide), both.count_in(Code::Small));
    compare(rt, counts, (2, 1));
    assert!(rt; both.list_in(Code::Wide).as_slice() == [2u8, 15].as_slice());
}

#[test]
fn lost_sets(rt: HostRuntime) {
    let lost = LostSet::empty().with(3).with(15).without(3);
    is_of_the_last(&rt, lost);
    compare(&rt, left_of(&LETTERS, lost).lost(), lost);
    is_of_two(&rt, lost.with(2));
}

#[test]
fn parities(rt: HostRuntime) -> Result<(), Fail> {
    assert!(rt; has_parities(rt.alloc(), b"ABCDEFGHIJKL", &[0x07, 0x0b, 0x13, 0x9f])?);
    assert!(rt; has_parities(rt.alloc(), &[1; 12], &[0x00, 0x00, 0x77, 0xb1])?);
    let mut column = [0; 12];
    column[5] = 1;
    assert!(rt; has_parities(rt.alloc(), &column, &[0x01, 0x00, 0x06, 0x14])?);
    column[5] = 0;
    column[6] = 1;
    assert!(rt; has_parities(rt.alloc(), &column, &[0x00, 0x01, 0x10, 0x1d])?);
    Ok(())
}

/// The letters A to F in fragments of one byte.
const SIX: [&[u8]; 6] = [b"A", b"B", b"C", b"D", b"E", b"F"];

/// Their parities.
const FOUR: [u8; 4] = [0x40, 0x47, 0x40, 0xa0];

/// The parities of the six letters, in lists that are lent.
fn encoded_to() -> [u8; 4] {
    let (mut first, mut second, mut third, mut fourth) = ([0xee], [0xee], [0xee], [0xee]);
    encode_to(
        Code::Small,
        &SIX,
        &mut first,
        &mut second,
        &mut third,
        &mut fourth,
    );
    [first[0], second[0], third[0], fourth[0]]
}

#[test]
fn parities_in_lists(rt: HostRuntime) -> Result<(), Fail> {
    compare(&rt, encoded_to(), FOUR);
    let joined = encode_joined(rt.alloc(), Code::Small, &SIX, 1)?;
    compare(&rt, joined.as_slice(), FOUR.as_slice());
    Ok(())
}

/// That each parity has the one byte.
fn are_bytes(rt: &impl Abort, parities: &[Vec<u8>], bytes: &[u8]) {
    for (parity, byte) in parities.iter().zip(bytes) {
        compare(rt, parity.as_slice(), [*byte].as_slice());
    }
}

#[test]
fn parities_of_six(rt: HostRuntime) -> Result<(), Fail> {
    let parities = encode_small(rt.alloc(), &SIX, 1)?;
    are_bytes(&rt, &parities, &FOUR);
    Ok(())
}

#[test]
fn lost_alone(rt: HostRuntime) -> Result<(), Fail> {
    let left = left_of(&LETTERS, LostSet::empty().with(0));
    compare(&rt, rebuilt_alone(&rt, rt.alloc(), &left, 0)?, Some(0x41));
    let left = left_of(&LETTERS, LostSet::empty().with(12));
    compare(&rt, rebuilt_alone(&rt, rt.alloc(), &left, 12)?, Some(0x07));
    Ok(())
}

/// That each of these fragments is rebuilt as this byte.
fn are_rebuilt(rt: &impl Abort, alloc: Global, left: &Left, bytes: &[(usize, u8)]) {
    for (f, byte) in bytes {
        compare(rt, rebuilt(rt, alloc, left, *f), Some(*byte));
    }
}

/// That the four parities are rebuilt, one of them into a list.
fn parities_are_rebuilt(rt: &impl Abort, alloc: Global) {
    let left = left_of(&LETTERS, set_of(0xf000));
    let bytes = [(12, 0x07), (13, 0x0b), (14, 0x13), (15, 0x9f)];
    are_rebuilt(rt, alloc, &left, &bytes);
    compare(rt, rebuilt_to(rt, &left, 14), (true, 0x13));
}

/// That of four fragments of a group the first is not rebuilt.
fn four_are_open(rt: &impl Abort, alloc: Global) {
    let left = left_of(&LETTERS, set_of(0x000f));
    compare(rt, rebuilt(rt, alloc, &left, 0), None);
    compare(rt, rebuilt_to(rt, &left, 0), (false, 0xee));
}

#[test]
fn lost_together(rt: HostRuntime) {
    let left = left_of(&LETTERS, set_of(0x00c3));
    let bytes = [(0, 0x41), (1, 0x42), (6, 0x47), (7, 0x48)];
    are_rebuilt(&rt, rt.alloc(), &left, &bytes);
    parities_are_rebuilt(&rt, rt.alloc());
    four_are_open(&rt, rt.alloc());
}

/// That the terms are of these fragments, each as it is.
fn are_of(rt: &impl Abort, terms: &[Term], fragments: &[u8]) {
    compare(rt, terms.len(), fragments.len());
    for (term, fragment) in terms.iter().zip(fragments) {
        compare(rt, (term.fragment, term.coefficient), (*fragment, 1));
    }
}

#[test]
fn recipes_of_a_group(rt: HostRuntime) -> Result<(), Fail> {
    let terms = recipe(LostSet::empty().with(0), 0).ok_or("open")?;
    are_of(&rt, terms.as_slice(), &[1, 2, 3, 4, 5, 12]);
    Ok(())
}

/// That two fragments are rebuilt over and over.
fn are_rebuilt_with(rt: &impl Abort, alloc: Global, plans: &mut Plans, left: &Left) {
    for _ in 0..3 {
        compare(rt, rebuilt_with(rt, alloc, plans, left, 0), Some(0x41));
        compare(rt, rebuilt_with(rt, alloc, plans, left, 1), Some(0x42));
    }
}

/// Whether a recipe is kept.
fn is_kept(plans: &Plans, lost: LostSet, f: u8) -> bool {
    plans.find(Code::Wide, lost, f).is_some()
}

#[test]
fn kept_recipes(rt: HostRuntime) {
    let lost = set_of(0x0003);
    let mut plans = Plans::new(rt.alloc());
    are_rebuilt_with(&rt, rt.alloc(), &mut plans, &left_of(&LETTERS, lost));
    compare(&rt, plans.known(), 2);
    assert!(rt; is_kept(&plans, lost, 1));
    assert!(rt; !is_kept(&plans, lost, 2));
    assert!(rt; !is_kept(&plans, set_of(0x0007), 1));
}

/// That fragments which are lost together are recoverable, with two to be made up for.
fn are_recoverable(rt: &impl Abort, lost: LostSet) {
    compare(rt, lost.excess(), 2);
    for f in 0..16u8 {
        assert!(rt; !is_open(lost, f));
    }
}

/// With the coefficients 1 to 6 and 7 to 12 the byte 1 at 0, 5, 6 and 13 would be a column, so
/// these four would be unrecoverable.
#[test]
fn coefficients_in_order(rt: HostRuntime) {
    // what the four weigh in each equation
    let squares = [gf256::square(1), gf256::square(6), gf256::square(7), 0];
    for [a, b, c, d] in &[[1, 1, 0, 0], [0, 0, 1, 1], [1, 6, 7, 0], squares] {
        compare(&rt, *a ^ *b ^ *c ^ *d, 0);
    }
    are_recoverable(&rt, LostSet::empty().with(0).with(5).with(6).with(13));
}
