//! The products of a byte with all bytes.
ghost use Rattle.std.specs.Prelude.{◌≡◌, IfOk, EachIndex, slice_index};
ghost use Rattle.gf256.specs.Field.{product};
ghost use Rattle.test_vectors.specs.Products.{HasProducts};

use anyhow::{Context, Result, ensure};
use gf256::mul;

/// The products of `a` with 0 to 255.
fn products_of(a: u8) -> [u8; 256]
    ensures { EachIndex result (λ b. slice_index result b ≡ product a b) }
{
    let mut products = [0; 256];
    for b in 0..256usize {
        products[b] = mul(a, b as u8);
    }
    products
}

/// Compares the products of `a` with 0 to 255, two digits each, and returns how many there are.
pub fn compare(a: usize, line: &str) -> Result<u32>
    ensures count { IfOk result (λ count. count ≡ 256) }
    ensures same { IfOk result (λ _. HasProducts a line.now) }
{
    let a = u8::try_from(a).context("no byte")?;
    let products = products_of(a);
    let mut digits = [0; 512];
    hex::encode_to_slice(products, &mut digits)?;
    ensure!(
        line.as_bytes() == digits.as_slice(),
        "other products of {a}"
    );
    Ok(256)
}
