use bytes::Bytes;
use lent::{Asked, Grant, Piece};
use lrc_code::{Code, Plans};
use sealed::{Sealed, Width, count_stripes, seal_as};
use std::alloc::Global;
use std::process::Abort;
use std::sync::Arc;
use std::test::Fail;

/// A blob that is sealed in a code with fragments of `w` bytes.
pub(super) fn blob_in(
    rt: &impl Abort,
    alloc: Global,
    code: Code,
    bytes: &'static [u8],
    w: u32,
) -> Arc<Sealed> {
    let width = Width::new(w).expect(rt, "a width");
    match seal_as(alloc, Bytes::from_static(bytes), width, code) {
        Ok(sealed) => Arc::new(alloc, sealed).expect(rt, "memory"),
        Err(fault) => panic!(rt; "{fault}"),
    }
}

/// The same in LRC(12,2,2).
pub(super) fn blob(rt: &impl Abort, alloc: Global, bytes: &'static [u8], w: u32) -> Arc<Sealed> {
    blob_in(rt, alloc, Code::Wide, bytes, w)
}

pub(super) fn grant(rt: &impl Abort, sealed: &Arc<Sealed>, start: u64, len: u64) -> Grant {
    match Grant::ask(sealed, start, len).expect(rt, "memory") {
        Asked::Granted(grant) => grant,
        Asked::OutOfRange => panic!(rt; "out of range"),
        Asked::Unrecoverable => panic!(rt; "unrecoverable"),
    }
}

fn is_outside(rt: &impl Abort, sealed: &Arc<Sealed>, start: u64, len: u64) -> bool {
    matches!(
        Grant::ask(sealed, start, len).expect(rt, "memory"),
        Asked::OutOfRange
    )
}

/// That a walk gives these pieces, all lent.
fn gives(rt: &impl Abort, alloc: Global, grant: &Grant, pieces: &[&[u8]]) {
    let mut walk = grant.walk();
    for want in pieces {
        let piece = walk
            .next_piece(alloc)
            .expect(rt, "memory")
            .expect(rt, "a piece");
        assert!(rt; matches!(piece, Piece::Lent(_)));
        assert!(rt; piece.bytes() == *want);
    }
    assert!(rt; walk.next_piece(alloc).expect(rt, "memory").is_none());
}

#[test]
fn pieces_end_where_fragments_end(rt: HostRuntime) -> Result<(), Fail> {
    let letters = b"ABCDEFGHIJKLMNOPQRSTUVWXYZabcdefghijklmnopqrstuv";
    let sealed = blob(&rt, rt.alloc(), letters, 4);
    gives(
        &rt,
        rt.alloc(),
        &grant(&rt, &sealed, 3, 6),
        &[b"D".as_slice(), b"EFGH".as_slice(), b"I".as_slice()],
    );
    Ok(())
}

#[test]
fn fragments_of_one_byte(rt: HostRuntime) -> Result<(), Fail> {
    let sealed = blob(&rt, rt.alloc(), b"HELLO", 1);
    let range = grant(&rt, &sealed, 1, 3);
    assert_eq!(rt; range.version(), 0);
    gives(
        &rt,
        rt.alloc(),
        &range,
        &[b"E".as_slice(), b"L".as_slice(), b"L".as_slice()],
    );
    Ok(())
}

#[test]
fn ranges_outside(rt: HostRuntime) -> Result<(), Fail> {
    let sealed = blob(&rt, rt.alloc(), b"ABCDEFGHIJKL", 1);
    gives(&rt, rt.alloc(), &grant(&rt, &sealed, 12, 0), &[]);
    assert!(rt; is_outside(&rt, &sealed, 13, 0));
    assert!(rt; is_outside(&rt, &sealed, 12, 1));
    assert!(rt; is_outside(&rt, &sealed, 18446744073709551615, 2));
    Ok(())
}

/// The value without these fragments of a stripe.
pub(super) fn without(
    rt: &impl Abort,
    alloc: Global,
    sealed: &Arc<Sealed>,
    stripe: u64,
    lost: &[u8],
) -> Arc<Sealed> {
    let mut value = Arc::try_clone(sealed).expect(rt, "memory");
    for f in lost {
        assert!(rt;
            stripe < count_stripes(value.code, value.width, value.len)
                && *f < value.code.fragments()
        );
        match value.without(alloc, stripe, *f) {
            Ok(next) => value = Arc::new(alloc, next).expect(rt, "memory"),
            Err(fault) => panic!(rt; "{fault}"),
        }
    }
    value
}

/// Twelve bytes at width 1 without these fragments.
fn twelve_without(rt: &impl Abort, alloc: Global, lost: &[u8]) -> Arc<Sealed> {
    without(rt, alloc, &blob(rt, alloc, b"ABCDEFGHIJKL", 1), 0, lost)
}

fn is_unrecoverable(rt: &impl Abort, sealed: &Arc<Sealed>, start: u64, len: u64) -> bool {
    matches!(
        Grant::ask(sealed, start, len).expect(rt, "memory"),
        Asked::Unrecoverable
    )
}

/// How many pieces are lent and how many are built, and what they join to.
#[derive(Drop)]
struct Tally {
    lent: u32,
    built: u32,
    joined: Vec<u8>,
}

impl Tally {
    fn new(alloc: Global) -> Tally {
        Tally {
            lent: 0,
            built: 0,
            joined: Vec::new(alloc),
        }
    }

    fn add(&mut self, rt: &impl Abort, piece: &Piece) {
        match piece {
            Piece::Lent(_) => self.lent = self.lent.wrapping_add(1),
            Piece::Built(_) => self.built = self.built.wrapping_add(1),
        }
        self.joined
            .extend_from_slice(piece.bytes())
            .expect(rt, "memory");
    }

    fn is(&self, rt: &impl Abort, counts: (u32, u32), bytes: &[u8]) {
        assert_eq!(rt; (self.lent, self.built), counts);
        assert!(rt; self.joined.as_slice() == bytes);
    }
}

/// That the pieces of a range are so many lent and so many built ones, and join to these bytes.
fn joins(rt: &impl Abort, alloc: Global, grant: &Grant, counts: (u32, u32), bytes: &[u8]) {
    let pieces = grant.collect(alloc).expect(rt, "memory");
    let mut tally = Tally::new(alloc);
    for piece in pieces.as_slice() {
        tally.add(rt, piece);
    }
    tally.is(rt, counts, bytes);
}

#[test]
fn an_absent_fragment_is_built(rt: HostRuntime) -> Result<(), Fail> {
    let letters = b"ABCDEFGHIJKLMNOPQRSTUVWXYZabcdefghijklmnopqrstuv";
    let sealed = blob(&rt, rt.alloc(), letters, 4);
    let range = grant(&rt, &without(&rt, rt.alloc(), &sealed, 0, &[1]), 3, 6);
    let pieces = range.collect(rt.alloc()).expect(&rt, "memory");
    assert!(rt; pieces.len() == 3);
    assert!(rt; matches!(&pieces[0], Piece::Lent(_)) && pieces[0].bytes() == b"D".as_slice());
    assert!(rt; matches!(&pieces[1], Piece::Built(_)) && pieces[1].bytes() == b"EFGH".as_slice());
    assert!(rt; matches!(&pieces[2], Piece::Lent(_)) && pieces[2].bytes() == b"I".as_slice());
    Ok(())
}

#[test]
fn one_absent(rt: HostRuntime) -> Result<(), Fail> {
    let lost = twelve_without(&rt, rt.alloc(), &[0]);
    let all = grant(&rt, &lost, 0, 12);
    joins(&rt, rt.alloc(), &all, (11, 1), b"ABCDEFGHIJKL");
    Ok(())
}

#[test]
fn two_absent_of_each_group(rt: HostRuntime) -> Result<(), Fail> {
    let lost = twelve_without(&rt, rt.alloc(), &[0, 1, 6, 7]);
    let all = grant(&rt, &lost, 0, 12);
    joins(&rt, rt.alloc(), &all, (8, 4), b"ABCDEFGHIJKL");
    Ok(())
}

#[test]
fn four_absent_of_a_group(rt: HostRuntime) -> Result<(), Fail> {
    let lost = twelve_without(&rt, rt.alloc(), &[0, 1, 2, 3]);
    assert!(rt; is_unrecoverable(&rt, &lost, 0, 1));
    let others = grant(&rt, &lost, 4, 8);
    joins(&rt, rt.alloc(), &others, (8, 0), b"EFGHIJKL");
    Ok(())
}

/// The local parity of its group gives a fragment though others are open.
#[test]
fn built_beside_open_fragments(rt: HostRuntime) -> Result<(), Fail> {
    let lost = twelve_without(&rt, rt.alloc(), &[0, 1, 6, 14, 15]);
    let seventh = grant(&rt, &lost, 6, 1);
    joins(&rt, rt.alloc(), &seventh, (0, 1), b"G");
    assert!(rt; is_unrecoverable(&rt, &lost, 0, 1));
    Ok(())
}

#[test]
fn five_absent_of_the_data(rt: HostRuntime) -> Result<(), Fail> {
    let lost = twelve_without(&rt, rt.alloc(), &[0, 1, 2, 6, 7]);
    let last = grant(&rt, &lost, 8, 4);
    joins(&rt, rt.alloc(), &last, (4, 0), b"IJKL");
    assert!(rt; is_unrecoverable(&rt, &lost, 6, 2));
    Ok(())
}

#[test]
fn open_in_the_last_stripe(rt: HostRuntime) -> Result<(), Fail> {
    let sealed = blob(&rt, rt.alloc(), b"ABCDEFGHIJKLM", 1);
    let lost = without(&rt, rt.alloc(), &sealed, 1, &[0, 1, 2, 3]);
    assert!(rt; is_unrecoverable(&rt, &lost, 12, 1));
    let first = grant(&rt, &lost, 0, 12);
    joins(&rt, rt.alloc(), &first, (12, 0), b"ABCDEFGHIJKL");
    let lost = without(&rt, rt.alloc(), &sealed, 1, &[1, 2, 3, 4]);
    let last = grant(&rt, &lost, 12, 1);
    joins(&rt, rt.alloc(), &last, (1, 0), b"M");
    Ok(())
}

#[test]
fn spans_are_the_cut(rt: HostRuntime) -> Result<(), Fail> {
    let letters = b"ABCDEFGHIJKLMNOPQRSTUVWXYZabcdefghijklmnopqrstuv";
    let sealed = blob(&rt, rt.alloc(), letters, 4);
    let range = grant(&rt, &without(&rt, rt.alloc(), &sealed, 0, &[1]), 3, 6);
    let mut spans = range.spans();
    for (fragment, from, to, bytes) in &[
        (0u8, 3usize, 4usize, Some(b"D".as_slice())),
        (1, 0, 4, None),
        (2, 0, 1, Some(b"I".as_slice())),
    ] {
        let span = spans.next().expect(&rt, "a span");
        assert_eq!(rt; (span.stripe, span.fragment), (0, *fragment));
        assert_eq!(rt; (span.from, span.to), (*from, *to));
        assert!(rt; span.bytes == *bytes);
    }
    assert!(rt; spans.next().is_none());
    let empty = grant(&rt, &sealed, 5, 0);
    assert!(rt; empty.spans().next().is_none());
    Ok(())
}

/// The same of a walk with recipes that are kept.
fn joins_with(
    rt: &impl Abort,
    alloc: Global,
    grant: &Grant,
    plans: &mut Plans,
    counts: (u32, u32),
    bytes: &[u8],
) {
    let mut walk = grant.walk_with(plans);
    let mut tally = Tally::new(alloc);
    for _ in 0..counts.0.wrapping_add(counts.1) {
        let piece = walk
            .next_piece(alloc)
            .expect(rt, "memory")
            .expect(rt, "a piece");
        tally.add(rt, &piece);
    }
    assert!(rt; walk.next_piece(alloc).expect(rt, "memory").is_none());
    tally.is(rt, counts, bytes);
}

#[test]
fn stripes_share_recipes(rt: HostRuntime) -> Result<(), Fail> {
    let letters = b"ABCDEFGHIJKLMNOPQRSTUVWXYZabcdefghij";
    let mut sealed = blob(&rt, rt.alloc(), letters, 1);
    for stripe in 0..3u64 {
        sealed = without(&rt, rt.alloc(), &sealed, stripe, &[0, 1]);
    }
    let all = grant(&rt, &sealed, 0, 36);
    let mut plans = Plans::new(rt.alloc());
    joins_with(
        &rt,
        rt.alloc(),
        &all,
        &mut plans,
        (30, 6),
        letters.as_slice(),
    );
    assert_eq!(rt; plans.known(), 2);
    Ok(())
}

/// How many lost fragments of a stripe the global parities have to make up for.
fn excess(rt: &impl Abort, sealed: &Arc<Sealed>, stripe: u64) -> u8 {
    assert!(rt; stripe < count_stripes(sealed.code, sealed.width, sealed.len));
    sealed.lost(stripe).excess_in(sealed.code)
}

/// Four stripes of LRC(6,2,2), the last of them filled up, without two data fragments of each
/// group. The last two share their recipes.
#[test]
fn two_absent_of_each_small_group(rt: HostRuntime) -> Result<(), Fail> {
    let letters = b"ABCDEFGHIJKLMNOPQRSTUVWXYZabcdefghijklmnopqrstu";
    let mut sealed = blob_in(&rt, rt.alloc(), Code::Small, letters, 2);
    let lost = [[0, 1, 3, 4], [0, 2, 4, 5], [1, 2, 3, 5], [1, 2, 3, 5]];
    for (stripe, fragments) in (0u64..4).zip(&lost) {
        sealed = without(&rt, rt.alloc(), &sealed, stripe, fragments.as_slice());
        assert_eq!(rt; excess(&rt, &sealed, stripe), 2);
    }
    let all = grant(&rt, &sealed, 0, 47);
    joins(&rt, rt.alloc(), &all, (8, 16), letters.as_slice());
    let mut plans = Plans::new(rt.alloc());
    for _ in 0..2 {
        joins_with(
            &rt,
            rt.alloc(),
            &all,
            &mut plans,
            (8, 16),
            letters.as_slice(),
        );
        assert_eq!(rt; plans.known(), 12);
    }
    Ok(())
}
