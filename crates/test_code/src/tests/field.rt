use super::compare;
use gf256::{add_scaled, inv, mul, square, xor_into};
use std::num::NonZero;
use std::process::Abort;
use std::test::Fail;

#[test]
fn products(rt: HostRuntime) -> Result<(), Fail> {
    let rows: [(u8, u8, u8); 6] = [
        (0x02, 0x80, 0x1d),
        (0x10, 0x10, 0x1d),
        (0x20, 0x20, 0x74),
        (0xf6, 0x10, 0xdb),
        (0xc8, 0x1d, 0xdd),
        (0x00, 0xff, 0x00),
    ];
    for (a, b, product) in &rows {
        compare(&rt, mul(*a, *b), *product);
        compare(&rt, mul(*b, *a), *product);
    }
    Ok(())
}

#[test]
fn inverses(rt: HostRuntime) -> Result<(), Fail> {
    let rows: [(u8, u8); 4] = [(0x01, 0x01), (0x02, 0x8e), (0x03, 0xf4), (0x10, 0xd8)];
    for (x, inverse) in &rows {
        if let Some(x) = NonZero::<u8>::new(*x) {
            compare(&rt, inv(x), *inverse);
        }
    }
    Ok(())
}

const FIRST: [u8; 16] = [
    0x01, 0x02, 0x04, 0x08, 0x10, 0x20, 0x40, 0x80, 0x1d, 0x3a, 0x74, 0xe8, 0xcd, 0x87, 0x13, 0x26,
];

/// That this is x to the `i`: the first sixteen are known, and the last, and none but the first
/// is 1.
fn is_power(rt: &impl Abort, power: u8, i: usize) {
    if i < 16 {
        compare(rt, power, FIRST[i]);
    }
    if i == 254 {
        compare(rt, power, 0x8e);
    }
    assert!(rt; (power == 1) == (i == 0), "x^{i}");
}

#[test]
fn powers_of_x(rt: HostRuntime) {
    let mut power = 1;
    for i in 0..255usize {
        is_power(&rt, power, i);
        power = mul(power, 2);
    }
    compare(&rt, power, 1);
}

#[test]
fn squares(rt: HostRuntime) -> Result<(), Fail> {
    for x in 0..=255u8 {
        compare(&rt, square(x), mul(x, x));
    }
    Ok(())
}

/// Bytes that rise by this.
fn rising(by: u8) -> [u8; 37] {
    let mut bytes = [0u8; 37];
    for i in 0..37u8 {
        bytes[usize::from(i)] = i.wrapping_mul(by);
    }
    bytes
}

/// That each byte of a sum is that of the target and 0x53 times that of the source.
fn is_sum(rt: &impl Abort, sum: &[u8; 37], target: &[u8; 37], source: &[u8; 37]) {
    for i in 0..37 {
        compare(rt, sum[i], target[i] ^ mul(0x53, source[i]));
    }
}

// Two whole blocks and a tail.
#[test]
fn kernels(rt: HostRuntime) {
    let (source, before) = (rising(7), rising(3));
    let mut target = before;
    add_scaled(&mut target, 0x53, &source);
    is_sum(&rt, &target, &before, &source);
    xor_into(&mut target, &before);
    is_sum(&rt, &target, &[0; 37], &source);
}
