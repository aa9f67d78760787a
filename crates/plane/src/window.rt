//! Windows: rectangles of the plane that a picture can show.

ghost use Rattle.std.specs.Prelude.{◌≡◌, ◌↔◌, IfOk, IfErr, IsTrue};
ghost use Rattle.plane.specs.Window.{IsWindow, IsWindowCorner, IsWindowSide, rectangle_at};

use crate::refusal::Refusal;
use std::marker::Model;

/// The most columns of a window, and the most rows.
pub const WINDOW_SIDE_LIMIT: u32 = 1024;

/// Windows begin at coordinates from `-WINDOW_CORNER_LIMIT` to `WINDOW_CORNER_LIMIT`.
pub(crate) const WINDOW_CORNER_LIMIT: i64 = 1 << 62;

/// A rectangle of the plane that a picture can show. It is never empty.
#[derive(Clone, Copy, Debug, PartialEq, Eq)]
pub struct Window {
    x: i64,
    y: i64,
    width: u32,
    height: u32,
}

impl Model for Window {
    ghost use Rattle.plane.specs.Window.{Rectangle, IsWindow, rectangle_at};

    ghost Value = { Rectangle };

    ghost view = { λ window. rectangle_at window.x window.y window.width window.height };

    ghost invariant = { λ window.
        IsWindow (rectangle_at window.x window.y window.width window.height) };

    ghost inverse = { λ rectangle. record {
      x = rectangle.x;
      y = rectangle.y;
      width = rectangle.width;
      height = rectangle.height;
    } };
}

// Whether a window may have so many columns, or rows.
fn is_window_side(cells: u32) -> bool
    ensures { IsTrue result ↔ IsWindowSide cells }
{
    1 <= cells && cells <= WINDOW_SIDE_LIMIT
}

// Whether a window may begin at this coordinate.
fn is_window_corner(z: i64) -> bool
    ensures { IsTrue result ↔ IsWindowCorner z }
{
    -WINDOW_CORNER_LIMIT <= z && z <= WINDOW_CORNER_LIMIT
}

impl Window {
    /// The window whose upper left cell is (x, y), with so many columns and rows. `WindowTooLarge`
    /// unless there are 1 to `WINDOW_SIDE_LIMIT` of each, and x and y are from
    /// `-WINDOW_CORNER_LIMIT` to `WINDOW_CORNER_LIMIT`.
    pub fn new(x: i64, y: i64, width: u32, height: u32) -> Result<Window, Refusal>
        ensures ok { IfOk result (λ window.
            IsWindow window × (window ≡ rectangle_at x y width height)) }
        ensures too_large { IfErr result (λ refusal.
            (refusal ≡ Refusal.WindowTooLarge) × ¬ IsWindow (rectangle_at x y width height)) }
    {
        let is_near = is_window_corner(x) && is_window_corner(y);
        let is_drawable = is_window_side(width) && is_window_side(height);
        if !is_near || !is_drawable {
            return Err(Refusal::WindowTooLarge);
        }
        Ok(Window {
            x,
            y,
            width,
            height,
        })
    }

    /// The first column.
    pub fn x(&self) -> i64
        ensures value { result ≡ self.now.x }
        ensures window { IsWindow self.now }
    {
        self.x
    }

    /// The first row.
    pub fn y(&self) -> i64
        ensures value { result ≡ self.now.y }
        ensures window { IsWindow self.now }
    {
        self.y
    }

    /// How many columns there are.
    pub fn width(&self) -> u32
        ensures value { result ≡ self.now.width }
        ensures window { IsWindow self.now }
    {
        self.width
    }

    /// How many rows there are.
    pub fn height(&self) -> u32
        ensures value { result ≡ self.now.height }
        ensures window { IsWindow self.now }
    {
        self.height
    }
}
