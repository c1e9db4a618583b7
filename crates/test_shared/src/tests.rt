mod locks;
mod stores;

use std::fmt::Debug;
use std::process::Abort;

/// Asserts that what was found is what was wanted. For the prover a call is one state, and
/// `assert_eq!` in place is many.
fn compare<T: PartialEq + Debug + Drop>(rt: &impl Abort, found: T, wanted: T) {
    assert_eq!(rt; found, wanted);
}
