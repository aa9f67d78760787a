//! The kept comments of a pattern file, owned, so that they outlive the file's bytes.

ghost use Rattle.std.specs.Prelude.{◌≡◌, IfOk};
ghost use Rattle.std.specs.List.{AllByRecursion};
ghost use Rattle.pattern_writers.specs.Reading.{IsComment};
ghost use Rattle.engine.specs.KeptComments.{comments_in};

use std::alloc::{AllocError, Global};
use text_lines::{Comments, Lines};

/// The kept comments of a pattern file, owned: each on a line of its own.
#[derive(Drop)]
pub(crate) struct KeptComments {
    // The comments, each with CR and LF behind it. A line loses one CR at its end, so that a
    // comment that ends with a CR keeps it.
    text: Vec<u8>,
}

impl KeptComments {
    /// Copies of these comments. `AllocError` where there is no room for them.
    pub(crate) fn of(alloc: Global, comments: Comments<'_>) -> Result<KeptComments, AllocError>
        requires { AllByRecursion IsComment comments }
        ensures { IfOk result (λ kept. comments_in kept ≡ comments.entry) }
    {
        let mut text = Vec::new(alloc);
        for comment in comments {
            text.extend_from_slice(comment)?;
            text.extend_from_slice(b"\r\n")?;
        }
        Ok(KeptComments { text })
    }

    /// The comments.
    pub(crate) fn comments(&self) -> Comments<'_>
        ensures { result ≡ comments_in self.now }
    {
        Comments::new(Lines::new(self.text.as_slice()))
    }
}
