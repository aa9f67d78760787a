//! The text of a pattern as a macrocell file.

ghost use Rattle.std.specs.Prelude.{◌≡◌, ◌⊎◌, ◌≤◌, OnOk, IfErr};
ghost use Rattle.rule_text.specs.RuleText.{canonical_text};
ghost use Rattle.plane.specs.Device.{IsWriteRefusal};
ghost use Rattle.squares.specs.Book.{IsKnown};
ghost use Rattle.pattern_writers.specs.Reading.{IsReadBackFromMc};
ghost use Rattle.pattern_writers.specs.McText.{BeginsMc, WritesMc, mc_preamble};
ghost use Rattle.squares.specs.Roots.{square_plane};
ghost use Rattle.squares.specs.declared.sq.TheConstants.{HIGHEST_ROOT_LEVEL};
ghost use Rattle.pattern_writers.specs.Output.{IfTaken};

mod leaf;
mod listing;
mod node;
mod root;
mod whole;

use crate::comments::begin;
use arrayvec::ArrayVec;
use node::write_nodes;
use plane::{Refusal, Sink, TextLine, write_all};
use rle_reader::Comments;
use rule_text::Rule;
use squares::{Look, Sq};
use std::alloc::Global;
use std::thread::Threads;
use whole::pattern_nodes;

// Room for the first line, a rule and a number of up to 40 digits.
const OPENING_ROOM: usize = 100;

/// Writes the cells of a square of a level from 3 to 63, whose centre corner is (0,0), with the
/// comments, the rule and the generation. The root in the file has the smallest level of at least 4
/// that covers the cells, whatever the square's level. It refuses `NoMemory` before the first byte,
/// and `WriteFailed` where the sink failed, which took a beginning of the text then. It is handed
/// the runtime as the writer of RLE is, and starts no thread.
///
/// What the sink took is read as the same cells, rule and generation, and as the same comments
/// where none ends with a CR, if the generation is at most 2^63, there are fewer than 2^32 nodes
/// and each comment is a line that is kept.
pub fn write_mc<R: Threads + Sync, B: Look, V: Sink>(
    _rt: &R,
    alloc: Global,
    book: &B,
    sq: Sq,
    comments: Comments<'_>,
    rule: &Rule,
    generation: u64,
    file: &mut V,
) -> Result<(), Refusal>
    requires known { IsKnown (B.book book.now) sq.level sq }
    requires high { sq.level ≤ HIGHEST_ROOT_LEVEL }
    ensures written { OnOk result (WritesMc (square_plane (B.book book.now) sq)
        comments.entry rule.now generation (V.taken file.old) (V.taken file.new)) }
    ensures read_back { OnOk result (IfTaken (V.taken file.old) (V.taken file.new)
        (IsReadBackFromMc (square_plane (B.book book.now) sq) comments.entry rule.now generation)) }
    ensures unfailed { OnOk result (V.failure_count file.new ≡ V.failure_count file.old) }
    ensures refused { IfErr result (λ refusal.
        (refusal ≡ Refusal.NoMemory × file.new ≡ file.old)
        ⊎ (IsWriteRefusal (V.failure_count file.old) (V.failure_count file.new) refusal
        × BeginsMc (square_plane (B.book book.now) sq)
        comments.entry rule.now generation (V.taken file.old) (V.taken file.new))) }
{
    let nodes = pattern_nodes(alloc, book, sq, rule)?;
    let preamble = preamble_lines(rule, generation);
    let mut block = ArrayVec::new();
    begin(file, &mut block, preamble.as_bytes(), comments)?;
    write_nodes(file, &mut block, nodes.as_slice())?;
    write_all(file, block.as_slice())
}

// The first line, the rule and the generation.
fn preamble_lines(rule: &Rule, generation: u64) -> TextLine<OPENING_ROOM>
    ensures { result ≡ mc_preamble (canonical_text rule.now) generation }
{
    let mut lines = TextLine::new();
    lines.push("[M2] (lifebatch 1)\n#R ");
    lines.push(rule.text().as_str());
    lines.push("\n#G ");
    lines.push_number(generation);
    lines.push("\n");
    lines
}
