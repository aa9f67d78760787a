//! The items of a body.

ghost use Rattle.std.specs.Prelude.{◌≡◌, ◌<◌, ◌≤◌, ◌∷◌, if◌then◌else◌, length, IfOk, IfSome, OnSome};
ghost use Rattle.std.specs.Option.{option_map};
ghost use Rattle.std.specs.Result.{result_map_both};
ghost use Rattle.plane.specs.declared.refusal.Refusal.TheVariants.{BadCount};
ghost use Rattle.text_lines.specs.Faults.{fault_at};
ghost use Rattle.rle_reader.specs.Items.{items_after, next_of, kept, item_slice_from, tag_of};
ghost use Rattle.rle_reader.specs.Left.{bytes_left, items_left};
ghost use Rattle.rle_reader.specs.Seen.{seen_next, IsCount};

use crate::body::{Body, LocatedByte};
use plane::{Fault, Refusal};
use text_lines::{fault_at, with_digit};

/// What an item is about.
#[derive(Clone, Copy, Debug, PartialEq, Eq)]
pub enum Tag {
    /// Dead cells.
    Dead,
    /// Live cells.
    Live,
    /// Ends of rows.
    Row,
}

/// An item of the body: so many dead cells, live cells or ends of rows.
#[derive(Clone, Copy, Debug, PartialEq, Eq)]
pub struct Run<'a> {
    /// The file's slice from the item's first digit, or from its tag if it has no count, to its
    /// tag.
    pub text: &'a [u8],
    /// The index of the slice's first byte in the file.
    pub place: u64,
    /// How many, at least 1.
    pub count: u64,
    pub tag: Tag,
}

// The digits at the front of a body.
#[derive(Clone, Copy)]
struct Count {
    /// Their value, or the largest `u64` if it is larger; 1 where there is no digit.
    value: u64,
    /// Whether there is a digit.
    is_written: bool,
    /// The byte after them.
    next: Option<LocatedByte>,
}

/// Takes the next item. There is none where the body ends or has a `!`.
pub(crate) fn next_run<'a>(body: &mut Body<'a>) -> Result<Option<Run<'a>>, Fault>
    ensures source { body.new.source.now ≡ body.old.source.now }
    ensures progress { IfOk result (λ next. IfSome next (λ run. body.old.at < body.new.at)) }
    ensures next { seen_next result ≡ result_map_both (option_map kept) (λ fault. fault)
        (next_of body.old.source.now (items_left body.old)) }
    ensures rest { IfOk result (λ next. OnSome next
        (items_left body.new ≡ items_after (items_left body.old))) }
{
    let Some(first) = body.next_byte() else {
        return Ok(None);
    };
    let count = read_count(body, first);
    match count.next {
        Some(last) if last.byte != b'!' => {
            tagged_run(body.source(), first.place, count.value, last)
        }
        _ => check_end(first.place, count.is_written),
    }
}

// The item from a place to its tag.
fn tagged_run<'a>(
    source: &'a [u8],
    place: usize,
    count: u64,
    last: LocatedByte,
) -> Result<Option<Run<'a>>, Fault>
    requires order { place ≤ last.place }
    requires within { last.place < length source.now }
    ensures { seen_next result
        ≡ result_map_both (λ run. Some run) (λ refusal. fault_at refusal place)
        (item_slice_from source.now place count last) }
{
    let tag = match tag_of(last.byte) {
        Ok(tag) => tag,
        Err(refusal) => return Err(fault_at(refusal, place)),
    };
    if count == 0 {
        return Err(fault_at(Refusal::BadCount, place));
    }
    Ok(Some(Run {
        text: &source[place..last.place + 1],
        place: place as u64,
        count,
        tag,
    }))
}

// The end of the body, where a count that no tag follows is a fault.
fn check_end<'a>(place: usize, is_written: bool) -> Result<Option<Run<'a>>, Fault>
    ensures { seen_next result ≡ (if is_written then Err (fault_at BadCount place) else Ok None) }
{
    if is_written {
        Err(fault_at(Refusal::BadCount, place))
    } else {
        Ok(None)
    }
}

// Takes digits, of which `first` is the first if it is one, and the byte after them.
fn read_count(body: &mut Body<'_>, first: LocatedByte) -> Count
    requires { first.place < body.old.at }
    ensures source { body.new.source.now ≡ body.old.source.now }
    ensures place { body.old.at ≤ body.new.at }
    ensures within { body.new.at ≤ length body.new.source.now }
    ensures next { IfSome result.next (λ last.
        (first.place ≤ last.place) × (last.place < body.new.at)) }
    ensures count { IsCount (first ∷ bytes_left body.old) result (bytes_left body.new) }
{
    if !first.byte.is_ascii_digit() {
        return Count {
            value: 1,
            is_written: false,
            next: Some(first),
        };
    }
    let mut value = with_digit(0, first.byte);
    while let Some(next) = body.next_byte() {
        if !next.byte.is_ascii_digit() {
            return Count {
                value,
                is_written: true,
                next: Some(next),
            };
        }
        value = with_digit(value, next.byte);
    }
    Count {
        value,
        is_written: true,
        next: None,
    }
}

/// The tag that a byte stands for.
#[tactic(auto, unfolding(crate::specs::Items::tag_of))]
pub(crate) fn tag_of(byte: u8) -> Result<Tag, Refusal>
    ensures { result ≡ tag_of byte }
{
    match byte {
        b'b' | b'.' => Ok(Tag::Dead),
        b'o' | b'A' => Ok(Tag::Live),
        b'$' => Ok(Tag::Row),
        b'p'..=b'y' | b'B'..=b'X' => Err(Refusal::MoreStates),
        _ => Err(Refusal::BadTag),
    }
}
