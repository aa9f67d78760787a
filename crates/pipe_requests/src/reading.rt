//! Lines that are read as requests.

ghost use Rattle.std.specs.Prelude.{◌≡◌, ◌≤◌, ℕ, length, None, IfErr, IfNone, IfOk, IfSome};
ghost use Rattle.std.specs.Option.{option_copied};
ghost use Rattle.pipe_requests.specs.Meaning.{AreBad, AreRule, Ask, HasWords, IsBad, IsFormat, Means, named};
ghost use Rattle.pipe_requests.specs.Words.{words_behind};

use crate::bad::Bad;
use crate::name::Name;
use crate::numbers::{limited, signed, unsigned};
use crate::parameters::{cut, four, next, none, one};
use crate::request::{
    LARGEST_MOST, LARGEST_MULTIPLE, LARGEST_SIZE, Request, SMALLEST_SIZE, TextFormat,
};
use rule_text::{Rule, RuleFault};

/// What a line asks for, without the LF that ends it. It is bad for the first of these: `Name`,
/// `Words`, `Format`, `Number`.
pub fn read_request(line: &[u8]) -> Result<Request, Bad>
    ensures ok { IfOk result (Means line.now) }
    ensures err { IfErr result (IsBad line.now) }
{
    let (word, rest) = cut(line);
    let Some(name) = Name::of(word) else {
        return Err(Bad::Name);
    };
    read_named(name, rest)
}

// What a request of this name asks for.
fn read_named(name: Name, rest: Option<&[u8]>) -> Result<Request, Bad>
    ensures ok { IfOk result (Ask (named name (option_copied rest.entry))) }
    ensures err { IfErr result (AreBad (named name (option_copied rest.entry))) }
{
    match name {
        Name::Generation => plain(name, rest, Request::Generation),
        Name::Rule => plain(name, rest, Request::Rule),
        Name::Population => plain(name, rest, Request::Population),
        Name::Bounds => plain(name, rest, Request::Bounds),
        Name::Runs => plain(name, rest, Request::Runs),
        Name::Close => plain(name, rest, Request::Close),
        Name::Open => read_open(rest),
        Name::Advance => read_advance(rest),
        Name::Window => read_window(rest),
        Name::Write => read_write(rest),
        Name::Picture => read_picture(rest),
        Name::Period => read_period(rest),
        Name::Multiple => read_multiple(rest),
        Name::Same => read_same(rest),
    }
}

// A request that is one word.
fn plain(name: Name, rest: Option<&[u8]>, request: Request) -> Result<Request, Bad>
    requires asks { Ask (named name None) request }
    requires alone { (count : ℕ) → HasWords name count → count ≡ 1 }
    ensures ok { IfOk result (Ask (named name (option_copied rest.entry))) }
    ensures err { IfErr result (AreBad (named name (option_copied rest.entry))) }
{
    none(rest)?;
    Ok(request)
}

fn read_open(rest: Option<&[u8]>) -> Result<Request, Bad>
    ensures ok { IfOk result (Ask (named Name.Open (option_copied rest.entry))) }
    ensures err { IfErr result (AreBad (named Name.Open (option_copied rest.entry))) }
{
    let (word, rest) = next(rest)?;
    let rule = read_rule(rest)?;
    let length = unsigned(word)?;
    Ok(Request::Open { length, rule })
}

// The rule that the one word gives, if there is a word.
fn read_rule(rest: Option<&[u8]>) -> Result<Option<Result<Rule, RuleFault>>, Bad>
    ensures ok { IfOk result (AreRule (words_behind (option_copied rest.entry))) }
    ensures err { IfErr result (λ why. (why ≡ Bad.Words)
        × (2 ≤ length (words_behind (option_copied rest.entry)))) }
{
    match rest {
        Some(_) => Ok(Some(Rule::read(one(rest)?))),
        None => Ok(None),
    }
}

fn read_advance(rest: Option<&[u8]>) -> Result<Request, Bad>
    ensures ok { IfOk result (Ask (named Name.Advance (option_copied rest.entry))) }
    ensures err { IfErr result (AreBad (named Name.Advance (option_copied rest.entry))) }
{
    let generations = unsigned(one(rest)?)?;
    Ok(Request::Advance { generations })
}

fn read_window(rest: Option<&[u8]>) -> Result<Request, Bad>
    ensures ok { IfOk result (Ask (named Name.Window (option_copied rest.entry))) }
    ensures err { IfErr result (AreBad (named Name.Window (option_copied rest.entry))) }
{
    let (x, y, width, height) = four(rest)?;
    Ok(Request::Window {
        x: signed(x)?,
        y: signed(y)?,
        width: unsigned(width)?,
        height: unsigned(height)?,
    })
}

fn read_write(rest: Option<&[u8]>) -> Result<Request, Bad>
    ensures ok { IfOk result (Ask (named Name.Write (option_copied rest.entry))) }
    ensures err { IfErr result (AreBad (named Name.Write (option_copied rest.entry))) }
{
    let format = format_of(one(rest)?).ok_or(Bad::Format)?;
    Ok(Request::Write { format })
}

// The format that a word names, if it names one.
fn format_of(word: &[u8]) -> Option<TextFormat>
    ensures some { IfSome result (IsFormat word.now) }
    ensures none { IfNone result ((format : TextFormat) → IsFormat word.now format → ⊥) }
{
    if word == b"rle".as_slice() {
        Some(TextFormat::Rle)
    } else if word == b"mc".as_slice() {
        Some(TextFormat::Macrocell)
    } else {
        None
    }
}

fn read_picture(rest: Option<&[u8]>) -> Result<Request, Bad>
    ensures ok { IfOk result (Ask (named Name.Picture (option_copied rest.entry))) }
    ensures err { IfErr result (AreBad (named Name.Picture (option_copied rest.entry))) }
{
    let (left, rest) = next(rest)?;
    let (top, right, bottom, size) = four(rest)?;
    Ok(Request::Picture {
        left: signed(left)?,
        top: signed(top)?,
        right: signed(right)?,
        bottom: signed(bottom)?,
        size: limited(size, u64::from(SMALLEST_SIZE), u64::from(LARGEST_SIZE))? as u32,
    })
}

fn read_period(rest: Option<&[u8]>) -> Result<Request, Bad>
    ensures ok { IfOk result (Ask (named Name.Period (option_copied rest.entry))) }
    ensures err { IfErr result (AreBad (named Name.Period (option_copied rest.entry))) }
{
    let most = limited(one(rest)?, 1, LARGEST_MOST)?;
    Ok(Request::Period { most })
}

fn read_multiple(rest: Option<&[u8]>) -> Result<Request, Bad>
    ensures ok { IfOk result (Ask (named Name.Multiple (option_copied rest.entry))) }
    ensures err { IfErr result (AreBad (named Name.Multiple (option_copied rest.entry))) }
{
    let whole = limited(one(rest)?, 1, LARGEST_MULTIPLE)?;
    Ok(Request::Multiple { whole })
}

fn read_same(rest: Option<&[u8]>) -> Result<Request, Bad>
    ensures ok { IfOk result (Ask (named Name.Same (option_copied rest.entry))) }
    ensures err { IfErr result (AreBad (named Name.Same (option_copied rest.entry))) }
{
    let length = unsigned(one(rest)?)?;
    Ok(Request::Same { length })
}
