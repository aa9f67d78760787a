//! The numbers of a window, as the words of a command line give them.

ghost use Rattle.std.specs.Prelude.{◌≡◌, None, IfSome, IfOk, IfErr};
ghost use Rattle.std.specs.Option.{option_copied};
ghost use Rattle.plane.specs.Window.{Rectangle};
ghost use Rattle.program_parts.specs.WindowText.{AreNumbersOf, IsFitWindow, WritesWindow};

use crate::reason::{Misfit, WordsReason};

/// The numbers of a window, which may be too large or too far away.
#[derive(Clone, Copy, Debug, PartialEq, Eq)]
pub struct WindowNumbers {
    /// The first column.
    pub x: i64,
    /// The first row.
    pub y: i64,
    /// How many columns there are.
    pub width: u64,
    /// How many rows there are.
    pub height: u64,
}

impl WindowNumbers {
    ghost use Rattle.program_parts.specs.WindowText.{rectangle_of};

    /// The numbers of a text `X,Y,W,H`, if it is one.
    pub fn read(text: &str) -> Option<Self>
        ensures written { IfSome result (λ numbers.
            WritesWindow 64 text.now (rectangle_of numbers)) }
        ensures none { result ≡ None → (window : Rectangle) → ¬ WritesWindow 64 text.now window }
    {
        let (x, behind) = text.split_once(',')?;
        let (y, behind) = behind.split_once(',')?;
        let (width, height) = behind.split_once(',')?;
        Some(WindowNumbers {
            x: x.parse().ok()?,
            y: y.parse().ok()?,
            width: width.parse().ok()?,
            height: height.parse().ok()?,
        })
    }
}

/// The numbers of the window that is asked for, if one is. `Unfit` with `Window` where the text is
/// not four numbers.
pub fn window_numbers(text: Option<&str>) -> Result<Option<WindowNumbers>, WordsReason>
    ensures ok { IfOk result (AreNumbersOf 64 (option_copied text.entry)) }
    ensures err { IfErr result (λ fault.
        (fault ≡ WordsReason.Unfit Misfit.Window) × ¬ IsFitWindow 64 (option_copied text.entry)) }
{
    match text {
        Some(text) => match WindowNumbers::read(text) {
            Some(numbers) => Ok(Some(numbers)),
            None => Err(WordsReason::Unfit(Misfit::Window)),
        },
        None => Ok(None),
    }
}
