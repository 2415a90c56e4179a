//! Assertions in one call, which costs the checker less than an `assert_eq!` in its place.

use std::fmt::Debug;
use std::process::Abort;

/// Asserts that two values are equal.
pub fn same<T: PartialEq + Debug + Drop>(rt: &impl Abort, name: &str, actual: T, wanted: T) {
    assert_eq!(rt; actual, wanted, "{name}");
}

/// Asserts a condition.
pub fn holds(rt: &impl Abort, name: &str, condition: bool) {
    assert!(rt; condition, "{name}");
}
