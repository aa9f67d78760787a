//! Tables of worked examples, row by row, and answers beside those that are wanted.

use std::fmt::Debug;
use std::process::Abort;

/// Fails where these are not the same, and says what both are.
pub(crate) fn assert_same<R: Abort, T: Copy + PartialEq + Debug>(rt: &R, found: T, wanted: T) {
    assert_eq!(rt; found, wanted);
}

/// Fails where a row is wrong, and says which, counted from 0.
pub(crate) fn assert_no_row<R: Abort>(rt: &R, wrong: Option<usize>) {
    assert_eq!(rt; wrong, None);
}
