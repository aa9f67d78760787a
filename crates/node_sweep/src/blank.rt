//! Words without a square, into which squares are copied.

ghost use Rattle.std.specs.Prelude.{◌^◌, IfOk};
ghost use Rattle.node_sweep.specs.Blank.{AreBlank};
ghost use Rattle.node_sweep.specs.CopiedStills.{IsResized};
ghost use Rattle.node_sweep.specs.Copying.{AreBlankWords};

use std::alloc::{AllocError, Global};
use table_core::{Key, Shape};

/// Words without a square, into which squares are copied.
#[derive(Drop)]
pub struct BlankWords {
    pub(crate) key: Key,
    pub(crate) words: Vec<u64>,
}

// The head of a table of this shape, under the same rule and exponent.
fn resize(from: &Key, shape: Shape) -> Key
    ensures { IsResized from.now result (2 ^ shape.bits) }
{
    Key {
        shape,
        rule: from.rule,
        exponent: from.exponent,
    }
}

// Words under this head without a square.
fn blank_words(alloc: Global, key: &Key) -> Result<Vec<u64>, AllocError>
    ensures { IfOk result (λ words. AreBlankWords key.now words.items) }
{
    let mut words = vec![in alloc; 0; key.shape.word_count() as usize]?;
    words[0] = key.head();
    Ok(words)
}

impl BlankWords {
    /// Words of this shape, under the rule and the exponent of this head.
    pub fn new(alloc: Global, from: &Key, shape: Shape) -> Result<BlankWords, AllocError>
        ensures { IfOk result (AreBlank from.now (2 ^ shape.bits)) }
    {
        let key = resize(from, shape);
        let words = blank_words(alloc, &key)?;
        Ok(BlankWords { key, words })
    }
}
