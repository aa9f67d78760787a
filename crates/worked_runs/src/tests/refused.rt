//! Runs that are refused: by which name, at which place, and with what written until then.

use crate::tests::rows::{RLE, Row, assert_rows};
use plane::Refusal;
use std::alloc::AllocError;

pub(crate) const REFUSED: &[Row] = &[
    Row {
        file: "x = 1, y = 1\n0o!",
        refusal: Some(Refusal::BadCount),
        place: Some(13),
        ..RLE
    },
    Row {
        file: "x = 1, y = 1\n3B!",
        refusal: Some(Refusal::MoreStates),
        place: Some(13),
        ..RLE
    },
    Row {
        file: "x = 1, y = 1\n3z!",
        refusal: Some(Refusal::BadTag),
        place: Some(13),
        ..RLE
    },
    Row {
        file: "x = 1, y",
        refusal: Some(Refusal::BadHeader),
        place: Some(0),
        ..RLE
    },
    Row {
        file: "x = 1, y = 1\n3!",
        refusal: Some(Refusal::BadCount),
        place: Some(13),
        ..RLE
    },
    Row {
        file: "",
        refusal: Some(Refusal::NotAPattern),
        place: Some(0),
        ..RLE
    },
    Row {
        file: "x = 1, y = 1\n99999999999999999999o!",
        refusal: Some(Refusal::OutOfRange),
        place: Some(13),
        ..RLE
    },
    Row {
        file: "x = 1, y = 1\n268435457o!",
        refusal: Some(Refusal::TooManyCells),
        place: Some(13),
        ..RLE
    },
    Row {
        file: "#CXRLE Pos=4611686018427387903,0\nx = 1, y = 1\n2o!",
        refusal: Some(Refusal::OutOfRange),
        place: Some(46),
        ..RLE
    },
    Row {
        file: "x = 1, y = 1\n4611686018427387904$o!",
        refusal: Some(Refusal::OutOfRange),
        place: Some(33),
        ..RLE
    },
    Row {
        file: "#CXRLE Gen=9223372036854775809\nx = 1, y = 1\no!",
        refusal: Some(Refusal::BadGen),
        place: Some(0),
        ..RLE
    },
    Row {
        file: "x = 1, y = 1, rule = B03/S23\no!",
        refusal: Some(Refusal::BirthOnZero),
        place: Some(0),
        ..RLE
    },
    Row {
        file: "x = 1, y = 1, rule = B3/S235V\no!",
        refusal: Some(Refusal::BadRule),
        place: Some(0),
        ..RLE
    },
    Row {
        file: "#C one\nx = 1, y = 1, rule = Life\no!",
        refusal: Some(Refusal::BadRule),
        place: Some(7),
        ..RLE
    },
    Row {
        file: "#CXRLE Pos=4611686018427387903,0\nx = 1, y = 1\no!",
        generations: 1,
        refusal: Some(Refusal::TooFar),
        ..RLE
    },
    Row {
        file: "#CXRLE Gen=9223372036854775808\nx = 1, y = 1\no!",
        generations: 1,
        refusal: Some(Refusal::TooFar),
        ..RLE
    },
    Row {
        file: "#CXRLE Gen=1\nx = 1, y = 1\n!",
        generations: u64::MAX,
        refusal: Some(Refusal::TooFar),
        ..RLE
    },
    // The report stands where the box is too large for an RLE file.
    Row {
        file: "x = 1, y = 1\no2147483646bo!",
        refusal: Some(Refusal::BoxTooLarge),
        report: "0: 2\n",
        ..RLE
    },
];

#[test]
fn names_what_is_wrong(rt: HostRuntime) -> Result<(), AllocError> {
    assert_rows(&rt, REFUSED)
}
