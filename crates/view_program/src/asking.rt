//! What the words of a command line ask for.

ghost use Rattle.std.specs.Prelude.{◌≡◌, List, codes, IfOk, IfErr};
ghost use Rattle.clap.specs.Words.{Text, found_of, one_text};
ghost use Rattle.program_parts.specs.Asking.{IsReasonOf};
ghost use Rattle.program_parts.specs.Texts.{AreMatchesIn};
ghost use Rattle.program_parts.specs.Values.{IsUnfit};
ghost use Rattle.view_program.specs.CommandLine.{AskForView, HasFiles, IsSizeNumber, command_form, command_line};

use crate::picture_format::ImageFormat;
use crate::shown::window_asked;
use clap::ArgMatches;
use engine::RunOptions;
use plane::Bounds;
use png_writer::IMAGE_SIDE_LIMIT;
use program_parts::{Misfit, WordsReason, number_for, rule_asked, run_numbers, window_numbers};

/// The least that [`View::size`] may be.
pub const SMALLEST_SIZE: u32 = 16;

/// The most that [`View::size`] may be.
pub const LARGEST_SIZE: u32 = IMAGE_SIDE_LIMIT;

/// What is drawn: the last generation of a run.
#[derive(Clone, Copy, Debug, PartialEq, Eq)]
pub struct View {
    /// The run whose last generation it is.
    pub run: RunOptions,
    /// The rectangle of cells that is shown, if one is given; its sides lie from -2^62 to 2^62.
    /// Else it is the bounding box of the live cells, or the cell (0,0) where there are none.
    pub window: Option<Bounds>,
    /// The most pixels on a side of the picture, 16 to 4096.
    pub size: u32,
    /// The format of the picture's file.
    pub format: ImageFormat,
}

/// What the words of a command line ask for.
#[derive(Drop)]
pub struct Asked {
    /// What is drawn.
    pub view: View,
    /// The file that is read.
    pub file: String,
    /// The picture that is written.
    pub output: String,
}

/// What is drawn by the words, which name a file, and a picture whose name is that of a format.
pub(crate) fn view_by(matches: &ArgMatches<'_>, format: ImageFormat) -> Result<View, WordsReason>
    ensures format { IfOk result (λ view. view.format ≡ format) }
    ensures asks { (words : List Text) → AreMatchesIn command_form words matches.now →
        IfOk result (AskForView words) }
    ensures faults { (words : List Text) → AreMatchesIn command_form words matches.now →
        HasFiles words → IfErr result (IsReasonOf command_line words) }
{
    let run = run_numbers(matches)?;
    let size = size_asked(matches)?;
    let numbers = window_numbers(matches.get_str("window"))?;
    let rule = rule_asked(matches.get_str("rule"))?;
    let window = window_asked(numbers)?;
    Ok(View {
        run: RunOptions { rule, ..run },
        window,
        size,
        format,
    })
}

// The most pixels on a side of the picture.
fn size_asked(matches: &ArgMatches<'_>) -> Result<u32, WordsReason>
    ensures ok { IfOk result (IsSizeNumber (one_text (found_of matches.now) (codes "size"))) }
    ensures err { IfErr result (IsUnfit Misfit.Other
        (IsSizeNumber (one_text (found_of matches.now) (codes "size")))) }
{
    let number = number_for(matches, "size")?;
    match u32::try_from(number) {
        Ok(size) if size >= SMALLEST_SIZE && size <= LARGEST_SIZE => Ok(size),
        _ => Err(WordsReason::Unfit(Misfit::Other)),
    }
}
