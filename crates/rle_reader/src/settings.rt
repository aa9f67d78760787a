//! The words of the `#CXRLE` lines.

ghost use Rattle.std.specs.Prelude.{◌≡◌, ◌∷◌, ◌<◌, length, map, IfSome};
ghost use Rattle.std.specs.Option.{option_copied};
ghost use Rattle.rle_reader.specs.Words.{cell_at, generation_at, position_of, word_of, words};
ghost use Rattle.text_lines.specs.Faults.{at_place};
ghost use Rattle.text_lines.specs.Numbers.{number_of};
ghost use Rattle.rle_reader.specs.Settings.{nothing_said, after_word, after_readings, after_line, lower, words_left};

use crate::bytes::split_at_byte;
use crate::number::integer;
use plane::{Cell, Fault, GENERATION_LIMIT, Refusal, is_coordinate};
use text_lines::{Line, fault_at, first_blank, is_settings_line, number};

/// What the `#CXRLE` lines say.
#[derive(Clone, Copy)]
pub(crate) struct Settings {
    /// Where the pattern's upper left corner lies.
    pub(crate) pos: Cell,
    pub(crate) generation: u64,
}

/// What one word says.
#[derive(Clone, Copy)]
pub(crate) enum Word {
    Pos(Cell),
    Gen(u64),
    Other,
}

impl Settings {
    /// What holds where no word says otherwise.
    pub(crate) fn new() -> Self
        ensures { result ≡ nothing_said }
    {
        Settings {
            pos: Cell { y: 0, x: 0 },
            generation: 0,
        }
    }

    /// These settings after a line before the header.
    #[tactic(auto, unfolding(crate::specs::Settings::after_line))]
    pub(crate) fn after_line(self, line: Line<'_>) -> Result<Settings, Fault>
        ensures { result ≡ at_place line.entry.place (after_line self line.entry.text.now) }
    {
        if !is_settings_line(line.text) {
            return Ok(self);
        }
        self.after_words(line.text)
            .map_err(|refusal| fault_at(refusal, line.place))
    }

    // These settings after the words of a line, or the lowest fault of a word.
    fn after_words(self, line: &[u8]) -> Result<Settings, Refusal>
        ensures { result ≡ after_readings self (map word_of (words line.now)) }
    {
        let mut settings = self;
        let mut lowest_refusal = None;
        let mut rest = Some(line);
        while let Some(text) = rest {
            let (word, others) = first_word(text);
            match read_word(word) {
                Ok(word) => settings = settings.after_word(word),
                Err(refusal) => lowest_refusal = lower(lowest_refusal, refusal),
            }
            rest = others;
        }
        match lowest_refusal {
            Some(refusal) => Err(refusal),
            None => Ok(settings),
        }
    }

    // These settings after a word.
    fn after_word(self, word: Word) -> Settings
        ensures { result ≡ after_word self word }
    {
        match word {
            Word::Pos(pos) => Settings {
                pos,
                generation: self.generation,
            },
            Word::Gen(generation) => Settings {
                pos: self.pos,
                generation,
            },
            Word::Other => self,
        }
    }
}

// What stands before the first blank of a text, and what stands after it, if there is one.
fn first_word(text: &[u8]) -> (&[u8], Option<&[u8]>)
    ensures words { words text.now ≡ result.0.now ∷ words_left (option_copied result.1) }
    ensures shorter { IfSome result.1 (λ others. length others.now < length text.now) }
{
    match first_blank(text) {
        Some(at) => (&text[..at], Some(&text[at + 1..])),
        None => (text, None),
    }
}

// Of two refusals the one of the lower number.
fn lower(lowest_refusal: Option<Refusal>, refusal: Refusal) -> Option<Refusal>
    ensures { result ≡ lower lowest_refusal refusal }
{
    match lowest_refusal {
        Some(other) if other.number() <= refusal.number() => Some(other),
        _ => Some(refusal),
    }
}

// What a word says.
#[tactic(auto, unfolding(crate::specs::Words::word_of))]
fn read_word(text: &[u8]) -> Result<Word, Refusal>
    ensures { result ≡ word_of text.now }
{
    if let Some(value) = text.strip_prefix(b"Pos=") {
        return position(value).map(Word::Pos);
    }
    if let Some(value) = text.strip_prefix(b"Gen=") {
        return generation_of(value).map(Word::Gen);
    }
    Ok(Word::Other)
}

// Two whole numbers and a comma between them, both in the range of coordinates.
fn position(text: &[u8]) -> Result<Cell, Refusal>
    ensures { result ≡ position_of text.now }
{
    match split_at_byte(text, b',') {
        Some((x, y)) => cell(integer(x), integer(y)),
        None => Err(Refusal::BadHeader),
    }
}

// The cell of two coordinates: first of all both have to be numbers, and then both in the range.
#[tactic(auto, unfolding(crate::specs::Words::cell_at))]
fn cell(x: Option<i64>, y: Option<i64>) -> Result<Cell, Refusal>
    ensures { result ≡ cell_at x y }
{
    let (Some(x), Some(y)) = (x, y) else {
        return Err(Refusal::BadHeader);
    };
    if is_coordinate(x) && is_coordinate(y) {
        Ok(Cell { y, x })
    } else {
        Err(Refusal::OutOfRange)
    }
}

// The generation that a text of digits gives.
fn generation_of(text: &[u8]) -> Result<u64, Refusal>
    ensures { result ≡ generation_at (number_of text.now) }
{
    generation(number(text))
}

// The generation, if there is a number and it is no more than the last generation.
#[tactic(auto, unfolding(crate::specs::Words::generation_at))]
fn generation(number: Option<u64>) -> Result<u64, Refusal>
    ensures { result ≡ generation_at number }
{
    number
        .filter(|generation| *generation <= GENERATION_LIMIT)
        .ok_or(Refusal::BadGen)
}
