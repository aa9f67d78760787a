//! Worked examples of the texts of rules and patterns and of pictures, and what the tests of texts
//! share.

mod banded_rows;
mod macrocell_nodes;
mod macrocell_texts;
mod pictures;
mod rle_items;
mod rle_texts;
mod rules;
mod written_texts;

use rle_reader::Comments;
use std::fmt::Debug;
use std::process::Abort;

// Fails where there is a first row that is otherwise, and says what it is.
fn assert_none<R: Abort, T: Copy + PartialEq + Debug>(rt: &R, first: Option<T>) {
    assert_eq!(rt; first, None);
}

// Fails where these are not the same, and says what both are.
fn assert_same<R: Abort, T: Copy + PartialEq + Debug>(rt: &R, found: T, wanted: T) {
    assert_eq!(rt; found, wanted);
}

// The bytes of a text, if there is one.
fn bytes_of(text: Option<&str>) -> Option<&[u8]> {
    match text {
        Some(text) => Some(text.as_bytes()),
        None => None,
    }
}

// Whether this comment is all that is kept, or nothing where it is empty.
fn are_only(comments: Comments<'_>, comment: &str) -> bool {
    let mut kept = comments;
    match kept.next() {
        Some(first) => {
            !comment.is_empty() && first == comment.as_bytes() && kept.next().is_none()
        }
        None => comment.is_empty() && kept.next().is_none(),
    }
}
