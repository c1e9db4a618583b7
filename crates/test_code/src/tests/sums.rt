ghost use Rattle.std.specs.Prelude.{◌≡◌, length};

use kernels::{combine_lists, write_parities};
use std::alloc::Global;
use std::process::Abort;

/// No place, fewer than a block, a block, and more of them, with a part of one.
const WIDTHS: [usize; 9] = [0, 1, 31, 32, 33, 64, 65, 97, 200];

/// A list of `w` bytes.
fn list_of(rt: &impl Abort, alloc: Global, byte: u8, w: usize) -> Vec<u8>
    ensures { length result.items ≡ w }
{
    vec![in alloc; byte; w].expect(rt, "memory")
}

/// Whether each byte is this one.
fn are_all(bytes: &[u8], byte: u8) -> bool {
    bytes.iter().all(|it| *it == byte)
}

/// Whether three lists that have 0x80, 0x87 and 0x10 at each of `w` places have this sum.
fn has_sum(rt: &impl Abort, alloc: Global, w: usize, coefficients: &[u8; 3], sum: u8) -> bool {
    let a = list_of(rt, alloc, 0x80, w);
    let b = list_of(rt, alloc, 0x87, w);
    let c = list_of(rt, alloc, 0x10, w);
    let mut target = list_of(rt, alloc, 0xee, w);
    combine_lists(&mut target, coefficients, &[&a, &b, &c]);
    are_all(&target, sum)
}

/// 2 times 0x80 is 0x1d, 2 times 0x87 is 0x13, and 0x10 times 0x10 is 0x1d.
#[test]
fn combined_lists(rt: HostRuntime) {
    for w in WIDTHS {
        assert!(rt; has_sum(&rt, rt.alloc(), w, &[2, 2, 0x10], 0x1d ^ 0x13 ^ 0x1d));
        assert!(rt; has_sum(&rt, rt.alloc(), w, &[1, 1, 1], 0x80 ^ 0x87 ^ 0x10));
    }
}

/// Whether the parities of twelve slices are these. One slice has 1 at each of its `w` indices, and
/// the others 0.
fn has_parities(
    rt: &impl Abort,
    alloc: Global,
    w: usize,
    second_group: bool,
    wanted: &[u8; 4],
) -> bool {
    let (zeros, ones) = (list_of(rt, alloc, 0, w), list_of(rt, alloc, 1, w));
    if second_group {
        write_and_compare(rt, alloc, &zeros, &zeros, &ones, wanted)
    } else {
        write_and_compare(rt, alloc, &zeros, &ones, &zeros, wanted)
    }
}

/// The same of twelve slices: all zeros except the sixth and the seventh.
fn write_and_compare(
    rt: &impl Abort,
    alloc: Global,
    o: &[u8],
    sixth: &[u8],
    seventh: &[u8],
    wanted: &[u8; 4],
) -> bool
    requires { (length sixth.now ≡ length o.now) × (length seventh.now ≡ length o.now) }
{
    let mut made = list_of(rt, alloc, 0xee, o.len());
    let mut second = list_of(rt, alloc, 0xee, o.len());
    let mut third = list_of(rt, alloc, 0xee, o.len());
    let mut fourth = list_of(rt, alloc, 0xee, o.len());
    write_parities(
        &[o, o, o, o, o, sixth, seventh, o, o, o, o, o],
        &mut made,
        &mut second,
        &mut third,
        &mut fourth,
    );
    let first_two = are_all(&made, wanted[0]) && are_all(&second, wanted[1]);
    first_two && are_all(&third, wanted[2]) && are_all(&fourth, wanted[3])
}

/// The coefficients of the last list of the first group, and of the first of the second.
#[test]
fn parities_of_one(rt: HostRuntime) {
    for w in WIDTHS {
        assert!(rt; has_parities(&rt, rt.alloc(), w, false, &[0x01, 0x00, 0x06, 0x14]));
        assert!(rt; has_parities(&rt, rt.alloc(), w, true, &[0x00, 0x01, 0x10, 0x1d]));
    }
}
