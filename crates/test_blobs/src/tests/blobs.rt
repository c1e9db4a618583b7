use bytes::Bytes;
use lrc_code::Code;
use sealed::{Fault, Sealed, Width, count_stripes, seal, seal_as, seal_copy};
use std::alloc::Global;
use std::process::Abort;
use std::test::Fail;

const LETTERS: &[u8] = b"ABCDEFGHIJKLMNOPQRSTUVWXYZabcdefghijklmnopqrstuv";

fn width(rt: &impl Abort, bytes: u32) -> Width {
    Width::new(bytes).expect(rt, "a width")
}

fn sealed(rt: &impl Abort, alloc: Global, bytes: Bytes, w: u32) -> Sealed {
    match seal(alloc, bytes, width(rt, w)) {
        Ok(sealed) => sealed,
        Err(fault) => panic!(rt; "{fault}"),
    }
}

/// The bytes of a fragment that is there.
fn fragment<'a>(rt: &impl Abort, sealed: &'a Sealed, stripe: u64, f: u8) -> &'a [u8] {
    assert!(rt; stripe < count_stripes(sealed.code, sealed.width, sealed.len) && f < 16);
    sealed.fragment(stripe, f).expect(rt, "a fragment")
}

/// Checks that it is the blob "HELLO" in fragments of one byte.
fn check_hello(rt: &impl Abort, value: &Sealed) {
    assert_eq!(rt; value.version, 0);
    assert_eq!(rt; value.len, 5);
    assert_eq!(rt; value.stripes.len(), 1);
    let stripe = b"HELLO\0\0\0\0\0\0\0\x42\x00\x55\x5f";
    for f in 0..16u8 {
        let bytes = fragment(rt, value, 0, f);
        assert!(rt; bytes.len() == 1);
        assert_eq!(rt; bytes[0], stripe[usize::from(f)]);
    }
}

#[test]
fn one_stripe_filled_up(rt: HostRuntime) -> Result<(), Fail> {
    check_hello(
        &rt,
        &sealed(&rt, rt.alloc(), Bytes::from_static(b"HELLO"), 1),
    );
    Ok(())
}

#[test]
fn part_of_a_stripe(rt: HostRuntime) -> Result<(), Fail> {
    let owned = Bytes::copy_from_slice(rt.alloc(), &LETTERS[..17]).expect(&rt, "memory");
    let value = sealed(&rt, rt.alloc(), owned, 1);
    assert_eq!(rt; value.len, 17);
    assert_eq!(rt; value.stripes.len(), 2);
    assert!(rt; fragment(&rt, &value, 0, 11) == b"L".as_slice());
    assert!(rt; fragment(&rt, &value, 1, 4) == b"Q".as_slice());
    assert!(rt; fragment(&rt, &value, 1, 5) == b"\0".as_slice());
    Ok(())
}

#[test]
fn one_stripe_of_a_slice(rt: HostRuntime) -> Result<(), Fail> {
    let value = seal_copy(rt.alloc(), b"HELLO", width(&rt, 1), Code::Wide).expect(&rt, "memory");
    check_hello(&rt, &value);
    Ok(())
}

#[test]
fn a_blob_is_shown_by_its_shape(rt: HostRuntime) -> Result<(), Fail> {
    let value = sealed(&rt, rt.alloc(), Bytes::from_static(b"HELLO"), 1);
    let shown = format!(in rt.alloc(); "{value:?}")?;
    let expected = "Sealed { version: 0, len: 5, width: Width { bytes: 1 }, code: Wide, .. }";
    assert_eq!(rt; shown.as_str(), expected);
    Ok(())
}

#[test]
fn an_empty_blob_has_no_stripe(rt: HostRuntime) -> Result<(), Fail> {
    let value = sealed(&rt, rt.alloc(), Bytes::new(), 1);
    assert_eq!(rt; value.len, 0);
    assert_eq!(rt; value.stripes.len(), 0);
    Ok(())
}

#[test]
fn fragments_of_four_bytes(rt: HostRuntime) -> Result<(), Fail> {
    let value = sealed(&rt, rt.alloc(), Bytes::from_static(LETTERS), 4);
    assert_eq!(rt; value.stripes.len(), 1);
    assert!(rt; fragment(&rt, &value, 0, 0) == b"ABCD".as_slice());
    assert!(rt; fragment(&rt, &value, 0, 11) == b"stuv".as_slice());
    assert!(rt; fragment(&rt, &value, 0, 12) == b"\x04\x04\x04\x1c".as_slice());
    assert!(rt; fragment(&rt, &value, 0, 15) == b"\x8f\xbf\x96\x11".as_slice());
    Ok(())
}

#[test]
fn most_stripes(rt: HostRuntime) -> Result<(), Fail> {
    let zeros = Bytes::from_vec(vec![in rt.alloc(); 0u8; 49153].expect(&rt, "memory")).expect(
        &rt, "memory",
    );
    assert!(rt; zeros.len() == 49153);
    let most = zeros.slice(0..49152).expect(&rt, "memory");
    assert_eq!(rt; sealed(&rt, rt.alloc(), most, 1).stripes.len(), 4096);
    match seal(rt.alloc(), zeros, width(&rt, 1)) {
        Ok(_) => assert!(rt; false),
        Err(fault) => assert!(rt; fault == Fault::TooLong),
    }
    Ok(())
}

#[test]
fn small(rt: HostRuntime) -> Result<(), Fail> {
    let value = seal_as(
        rt.alloc(),
        Bytes::from_static(b"ABCDEFG"),
        width(&rt, 1),
        Code::Small,
    )
    .expect(&rt, "memory");
    assert_eq!(rt; value.stripes.len(), 2);
    assert!(rt; fragment(&rt, &value, 0, 6) == [0x40u8].as_slice());
    assert!(rt; fragment(&rt, &value, 0, 9) == [0xa0u8].as_slice());
    assert!(rt; fragment(&rt, &value, 1, 0) == b"G".as_slice());
    assert!(rt; value.fragment(1, 10).is_none());
    let renamed = value.with_version(7);
    assert_eq!(rt; renamed.version, 7);
    Ok(())
}

/// Takes out a fragment. Only out of memory can refuse it.
fn take_out(rt: &impl Abort, alloc: Global, sealed: &mut Sealed, stripe: u64, f: u8) {
    assert!(rt; stripe < count_stripes(sealed.code, sealed.width, sealed.len));
    assert!(rt; f < sealed.code.fragments());
    sealed.take_out(alloc, stripe, f).expect(rt, "memory");
}

/// Which are there: the first two fragments of stripe 0, and the first one of stripe 1.
fn are_there(rt: &impl Abort, sealed: &Sealed) -> [bool; 3] {
    assert!(rt; 1 < count_stripes(sealed.code, sealed.width, sealed.len));
    [
        sealed.fragment(0, 0).is_some(),
        sealed.fragment(0, 1).is_some(),
        sealed.fragment(1, 0).is_some(),
    ]
}

#[test]
fn who_shares_a_stripe_keeps_it(rt: HostRuntime) -> Result<(), Fail> {
    let alloc = rt.alloc();
    let mut first = sealed(
        &rt,
        alloc,
        Bytes::from_static(b"ABCDEFGHIJKLMNOPQRSTUVWX"),
        1,
    );
    take_out(&rt, alloc, &mut first, 0, 0);
    assert!(rt; 0 < count_stripes(first.code, first.width, first.len));
    let mut second = first.without(alloc, 0, 1).expect(&rt, "memory");
    take_out(&rt, alloc, &mut second, 1, 0);
    assert!(rt; 0 < count_stripes(second.code, second.width, second.len));
    assert!(rt; second.width.get() == 1);
    second
        .put_back(alloc, 0, 0, Bytes::from_static(b"A"))
        .expect(&rt, "memory");
    assert!(rt; are_there(&rt, &first) == [false, true, true]);
    assert!(rt; are_there(&rt, &second) == [true, false, false]);
    assert!(rt; fragment(&rt, &first, 0, 1) == b"B".as_slice());
    assert!(rt; fragment(&rt, &second, 0, 0) == b"A".as_slice());
    Ok(())
}

#[test]
fn who_shares_a_small_blob_has_a_copy(rt: HostRuntime) -> Result<(), Fail> {
    let alloc = rt.alloc();
    let mut first = sealed(&rt, alloc, Bytes::from_static(b"HELLO"), 1);
    assert!(rt; 0 < count_stripes(first.code, first.width, first.len));
    let second = first.without(alloc, 0, 1).expect(&rt, "memory");
    take_out(&rt, alloc, &mut first, 0, 15);
    assert!(rt; fragment(&rt, &first, 0, 1) == b"E".as_slice());
    assert!(rt; fragment(&rt, &second, 0, 0) == b"H".as_slice());
    assert!(rt; fragment(&rt, &second, 0, 15) == [0x5fu8].as_slice());
    Ok(())
}

#[test]
fn what_is_put_back_lies_where_it_was(rt: HostRuntime) -> Result<(), Fail> {
    let alloc = rt.alloc();
    let mut value = sealed(&rt, alloc, Bytes::from_static(b"ABCDEFGHIJK"), 1);
    assert!(rt; value.len == 11);
    let whole = value.run(0, 11) == b"ABCDEFGHIJK".as_slice();
    take_out(&rt, alloc, &mut value, 0, 3);
    assert!(rt; value.len == 11);
    let cut = value.run(0, 11) == b"A".as_slice();
    assert!(rt; 0 < count_stripes(value.code, value.width, value.len));
    assert!(rt; value.width.get() == 1);
    value
        .put_back(alloc, 0, 3, Bytes::from_static(b"D"))
        .expect(&rt, "memory");
    assert!(rt; value.len == 11);
    let mended = value.run(0, 11) == b"ABCDEFGHIJK".as_slice();
    assert!(rt; [whole, cut, mended] == [true, true, true]);
    Ok(())
}

#[test]
fn a_stripe_filled_up_has_a_loss(rt: HostRuntime) -> Result<(), Fail> {
    let alloc = rt.alloc();
    let mut value = sealed(&rt, alloc, Bytes::from_static(b"ABCDEFGHIJKLHELLO"), 1);
    take_out(&rt, alloc, &mut value, 1, 0);
    assert!(rt; 1 < count_stripes(value.code, value.width, value.len));
    assert!(rt; value.fragment(1, 0).is_none());
    let stripe = b"HELLO\0\0\0\0\0\0\0\x42\x00\x55\x5f";
    for f in 1..16u8 {
        assert!(rt; fragment(&rt, &value, 1, f) == [stripe[usize::from(f)]].as_slice());
    }
    assert!(rt; fragment(&rt, &value, 0, 11) == b"L".as_slice());
    Ok(())
}

#[test]
fn a_lost_fragment_is_rebuilt(rt: HostRuntime) -> Result<(), Fail> {
    let alloc = rt.alloc();
    let mut value = sealed(&rt, alloc, Bytes::from_static(LETTERS), 4);
    let has = [
        value.has_fragment(0, 15),
        value.has_fragment(0, 16),
        value.has_fragment(1, 0),
    ];
    assert!(rt; has == [true, false, false]);
    assert!(rt; !value.is_rebuildable(0, 11));
    for f in &[11u8, 4, 5] {
        take_out(&rt, alloc, &mut value, 0, *f);
    }
    let can_be_rebuilt = value.is_rebuildable(0, 11);
    assert!(rt; can_be_rebuilt);
    let bytes = value.rebuild_fragment(alloc, 0, 11).expect(&rt, "memory");
    assert!(rt; bytes.as_slice() == b"stuv".as_slice());
    for f in &[12u8, 13] {
        take_out(&rt, alloc, &mut value, 0, *f);
    }
    assert!(rt; !value.is_rebuildable(0, 4));
    assert!(rt; !value.is_rebuildable(1, 0));
    Ok(())
}
