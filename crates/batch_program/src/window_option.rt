//! A window, as the words of a command line give it.

ghost use Rattle.std.specs.Prelude.{◌≡◌, ◌↔◌, ◌<◌, ◌^◌, IfOk, IfErr, IsTrue};
ghost use Rattle.std.specs.Option.{option_copied};
ghost use Rattle.plane.specs.Window.{IsWindow};
ghost use Rattle.program_parts.specs.WindowText.{AreNumbersOf, HasNoWindow, IsFitWindow, IsWindowOf, rectangle_of};

use plane::{Refusal, Window};
use program_parts::{Misfit, WindowNumbers, WordsReason, window_numbers};

/// The numbers of the window that is asked for, if one is. `Unfit` with `Window` where the text is
/// not four numbers, or those of columns and rows have more than 32 bits.
pub(crate) fn narrow_numbers(text: Option<&str>) -> Result<Option<WindowNumbers>, WordsReason>
    ensures ok { IfOk result (AreNumbersOf 32 (option_copied text.entry)) }
    ensures err { IfErr result (λ fault.
        (fault ≡ WordsReason.Unfit Misfit.Window) × ¬ IsFitWindow 32 (option_copied text.entry)) }
{
    match window_numbers(text)? {
        Some(numbers) if !is_narrow(numbers) => Err(WordsReason::Unfit(Misfit::Window)),
        numbers => Ok(numbers),
    }
}

// Whether the numbers of columns and rows fit 32 bits.
fn is_narrow(numbers: WindowNumbers) -> bool
    ensures { IsTrue result ↔ ((numbers.width < 2 ^ 32) × (numbers.height < 2 ^ 32)) }
{
    numbers.width <= u64::from(u32::MAX) && numbers.height <= u64::from(u32::MAX)
}

/// The window that has these numbers, if one is asked for.
pub(crate) fn window_asked(numbers: Option<WindowNumbers>) -> Result<Option<Window>, Refusal>
    ensures ok { IfOk result (IsWindowOf IsWindow (λ window. window) numbers) }
    ensures err { IfErr result (λ refusal.
        (refusal ≡ Refusal.WindowTooLarge) × HasNoWindow IsWindow numbers) }
{
    match numbers {
        Some(numbers) => Ok(Some(window_of(numbers)?)),
        None => Ok(None),
    }
}

// The window that has these numbers. `WindowTooLarge` where none has.
fn window_of(numbers: WindowNumbers) -> Result<Window, Refusal>
    ensures ok { IfOk result (λ window. IsWindow window × (window ≡ rectangle_of numbers)) }
    ensures too_large { IfErr result (λ refusal.
        (refusal ≡ Refusal.WindowTooLarge) × ¬ IsWindow (rectangle_of numbers)) }
{
    match (u32::try_from(numbers.width), u32::try_from(numbers.height)) {
        (Ok(width), Ok(height)) => Window::new(numbers.x, numbers.y, width, height),
        _ => Err(Refusal::WindowTooLarge),
    }
}
