//! A line of text that takes no memory from the allocator.

ghost use Rattle.std.specs.Prelude.{◌≡◌, ◌+◌, ◌≤◌, [], ◌++◌, length, OnErr, OnOk};
ghost use Rattle.std.specs.Fmt.{signed_decimal};
ghost use Rattle.std.specs.Io.KnownBytes.{Appends};
ghost use Rattle.plane.specs.Device.{AppendsBeginning, TellsFailure};

use crate::device::{Sink, write_all};
use crate::refusal::Refusal;
use arrayvec::ArrayString;
use itoa::{Buffer, Integer};
use std::marker::Model;

/// A text of at most `N` bytes, which is built from texts and numbers. It is seen as its bytes.
#[derive(Drop)]
pub struct TextLine<const N: usize> {
    text: ArrayString<N>,
}

impl<const N: usize> Model for TextLine<N> {
    ghost use Rattle.std.specs.Prelude.{List, ℕ};

    ghost Value = { List ℕ };

    ghost view = { λ line. line.text.bytes };
}

impl<const N: usize> TextLine<N> {
    /// The empty text.
    pub fn new() -> Self
        ensures { result ≡ [] }
    {
        TextLine {
            text: ArrayString::new(),
        }
    }

    /// Adds a text.
    pub fn push(&mut self, text: &str)
        requires { length self.old + length text.now ≤ N }
        ensures text { self.new ≡ self.old ++ text.now }
        ensures length { length self.new ≡ length self.old + length text.now }
    {
        self.text.push_str(text);
    }

    /// Adds an unsigned number. There must be room for 40 digits.
    pub fn push_number<I: Integer>(&mut self, number: I)
        requires { length self.old + 40 ≤ N }
        ensures text { self.new ≡ self.old ++ I.text number }
        ensures length { length self.new ≤ length self.old + 40 }
    {
        self.text.push_str(Buffer::new().format(number));
    }

    /// Adds a signed number. There must be room for 40 digits.
    pub fn push_signed(&mut self, number: i64)
        requires { length self.old + 40 ≤ N }
        ensures text { self.new ≡ self.old ++ signed_decimal number }
        ensures length { length self.new ≤ length self.old + 40 }
    {
        self.text.push_str(Buffer::new().format(number));
    }

    /// Its bytes.
    pub fn as_bytes(&self) -> &[u8]
        ensures bytes { result.now ≡ self.now }
        ensures short { length result.now ≤ N }
    {
        self.text.as_str().as_bytes()
    }

    /// Its text.
    pub fn as_str(&self) -> &str
        ensures bytes { result.now ≡ self.now }
        ensures short { length result.now ≤ N }
    {
        self.text.as_str()
    }

    /// Writes it. `WriteFailed` if the sink failed, which took a beginning of it then.
    pub fn write_to<W: Sink>(&self, sink: &mut W) -> Result<(), Refusal>
        ensures written { OnOk result (Appends (W.taken sink.old) (W.taken sink.new) self.now) }
        ensures beginning { OnErr result
            (AppendsBeginning (W.taken sink.old) (W.taken sink.new) self.now) }
        ensures failure { TellsFailure
            (W.failure_count sink.old) (W.failure_count sink.new) result }
    {
        write_all(sink, self.text.as_str().as_bytes())
    }
}
