//! Compares the field and the two codes with what other programs computed (`data/ORIGIN.md`).
//! It prints what it compared, and ends with status 1 at the first line that differs.
#![tactic(auto)]

mod products;
mod stripes;

use anyhow::{Context, Result};
use lrc_code::Code;
use std::fs;
use stripes::Comparison;

/// Compares each stripe of a file, and each fragment that is rebuilt.
fn compare_stripes(rt: &HostRuntime, path: &str, code: Code) -> Result<()> {
    let text = fs::read_to_string(rt, path)?;
    let mut comparison = Comparison::new(rt.alloc(), code);
    for (i, line) in text.as_str().lines().enumerate() {
        comparison
            .take_line(rt.alloc(), line)
            .context(format_args!("{path}, after {i} lines"))?;
    }
    println!(rt; "{path}: {comparison}")?;
    Ok(())
}

/// Compares all products.
fn compare_products(rt: &HostRuntime, path: &str) -> Result<()> {
    let text = fs::read_to_string(rt, path)?;
    let mut count = 0u32;
    for (a, line) in text.as_str().lines().enumerate() {
        count = count.saturating_add(products::compare(a, line).context(format_args!(
            "{path}, after {a} lines"
        ))?);
    }
    println!(rt; "{path}: {count} products")?;
    Ok(())
}

fn main(rt: HostRuntime) -> Result<()> {
    compare_products(&rt, "products.txt")?;
    compare_stripes(&rt, "encode_wide.txt", Code::Wide)?;
    compare_stripes(&rt, "encode_small.txt", Code::Small)?;
    compare_stripes(&rt, "decode_wide.txt", Code::Wide)?;
    compare_stripes(&rt, "decode_small.txt", Code::Small)?;
    Ok(())
}
