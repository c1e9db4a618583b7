//! The cost of reading a lost fragment: the fragments that it is built from.
ghost use Rattle.std.specs.Prelude.{◌<◌, All};

use anyhow::{Result, ensure};
use lrc_code::{Code, LostSet, recipe_in};

/// Prints from which fragments the first one is built if these are lost, or that it is
/// unrecoverable.
fn show<R: Print>(rt: &R, lost: &[u8]) -> Result<()>
    requires { All (λ f. f < 16) lost.now }
{
    let mut set = LostSet::empty();
    print!(rt; "lost")?;
    for fragment in lost {
        print!(rt; " {fragment}")?;
        set = set.with(*fragment);
    }
    ensure!(!set.left(0), "the first one is there");
    match recipe_in(Code::Wide, set, 0) {
        Some(recipe) => {
            print!(rt; ": 0 is built from")?;
            for term in &recipe {
                print!(rt; " {}", term.fragment)?;
            }
        }
        None => print!(rt; ": 0 is open")?,
    }
    println!(rt; "")?;
    Ok(())
}

/// Prints four cases of LRC(12,2,2).
pub(crate) fn show_all<R: Print>(rt: &R) -> Result<()> {
    show(rt, &[0])?;
    show(rt, &[0, 1])?;
    show(rt, &[0, 1, 6, 7])?;
    show(rt, &[0, 1, 2, 3])
}
