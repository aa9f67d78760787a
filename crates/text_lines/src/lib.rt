//! What the readers of pattern files share: the lines of a text with their places, blanks at the
//! ends of a text, numbers of any length, comments, and faults at a place.
#![tactic(auto)]

mod bytes;
mod comments;
mod faults;
mod laws;
mod lines;
mod numbers;

pub use bytes::{begins_with, first_blank, trim, trim_end};
pub use comments::{Comments, is_blank_line, is_comment, is_settings_line};
pub use faults::fault_at;
pub use laws::lines_are_slices;
pub use lines::{Line, Lines, line_length};
pub use numbers::{number, with_digit};
pub use rule_text::{is_blank, trim_start};
