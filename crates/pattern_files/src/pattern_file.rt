//! A checked pattern file, in either format.

ghost use Rattle.std.specs.Prelude.{◌≡◌, ◌⊎◌, true, Ok, Err, IfOk, IfErr, ⊤};
ghost use Rattle.std.specs.Option.{option_copied};
ghost use Rattle.plane.specs.Fault.{placeless};
ghost use Rattle.pattern_files.specs.Meaning.{is_macrocell, judged, meaning_of};

use crate::live_runs::live_runs_to_square;
use crate::nodes::nodes_to_square;
use macrocell_reader::McFile;
use plane::{Fault, Refusal};
use rle_reader::RleFile;
use squares::{Build, Sq, Squares};
use std::alloc::Global;
use text_lines::{Comments, begins_with};

// What a macrocell file begins with.
const MACROCELL: &[u8] = b"[M2]";

/// A pattern file whose text is accepted, in the format that its beginning names.
#[derive(Drop)]
pub enum PatternFile<'a> {
    /// A run length encoded file.
    Rle(RleFile<'a>),
    /// A macrocell file, which begins with `[M2]`.
    Macrocell(McFile<'a>),
}

impl<'a> PatternFile<'a> {
    /// Checks a text in the format that its beginning names. It refuses the text's first fault, and
    /// `NoMemory` where there is no room to check a macrocell file.
    pub fn open(alloc: Global, bytes: &'a [u8]) -> Result<Self, Fault>
        ensures accepted { IfOk result (λ file. judged bytes.now ≡ Ok (meaning_of file)) }
        ensures refused { IfErr result (λ fault. (judged bytes.now ≡ Err fault)
            ⊎ ((is_macrocell bytes.now ≡ true) × (fault ≡ placeless Refusal.NoMemory))) }
    {
        if begins_with(bytes, MACROCELL) {
            return Ok(PatternFile::Macrocell(McFile::open(alloc, bytes)?));
        }
        Ok(PatternFile::Rle(RleFile::open(bytes)?))
    }

    /// The generation that the file is of, 0 where it names none.
    pub fn generation(&self) -> u64
        ensures { result ≡ (meaning_of self.now).generation }
    {
        match self {
            PatternFile::Rle(file) => file.generation(),
            PatternFile::Macrocell(file) => file.generation(),
        }
    }

    /// The text of the file's rule, if it names one.
    pub fn rule_slice(&self) -> Option<&'a [u8]>
        ensures { option_copied result ≡ (meaning_of self.now).rule }
    {
        match self {
            PatternFile::Rle(file) => file.rule_slice(),
            PatternFile::Macrocell(file) => file.rule_slice(),
        }
    }

    /// The place, in bytes, to which the rule's faults belong.
    pub fn rule_place(&self) -> u64
        ensures { result ≡ (meaning_of self.now).rule_place }
    {
        match self {
            PatternFile::Rle(file) => file.rule_place(),
            PatternFile::Macrocell(file) => file.rule_place(),
        }
    }

    /// The kept comments, in the file's order.
    pub fn comments(&self) -> Comments<'a>
        ensures { result ≡ (meaning_of self.now).comments }
    {
        match self {
            PatternFile::Rle(file) => file.comments(),
            PatternFile::Macrocell(file) => file.comments(),
        }
    }
}

impl Build for PatternFile<'_> {
    ghost live = { λ file. (meaning_of file).live };

    ghost is_lawful = { λ _. ⊤ };

    fn build<S: Squares>(&self, alloc: Global, book: &mut S) -> Result<Sq, Refusal> {
        match self {
            PatternFile::Rle(file) => live_runs_to_square(alloc, book, file),
            PatternFile::Macrocell(file) => nodes_to_square(alloc, book, file.lines()),
        }
    }
}
