//! Futures of squares of the levels 4 to 6, and the expansions that they take, calculated cell by
//! cell apart from this program. A square of level 5 takes nine futures of level 4, and four more
//! where there is time for them; one of level 6 takes none.

ghost use Rattle.std.specs.Prelude.{◌<◌};
ghost use Rattle.squares.specs.Book.{IsKnown};

use crate::tests::books::{book_of, root_of_cells};
use crate::tests::places::cell_at;
use crate::tests::rows::assert_no_row;
use crate::tests::soups::{SOUP_16, SOUP_32, SOUP_64};
use hashlife_step::{Tally, future, trim};
use plane::{CellSet, Refusal};
use squares::{Sq, Squares};
use std::alloc::Global;

// A square around (0,0) as leaves row by row, and its middle after 2^exponent generations, or fewer
// if it is too small for so many.
struct Row {
    rule: &'static str,
    exponent: u8,
    leaves: &'static [u64],
    middle: &'static [u64],
    expansions: u64,
}

const ROWS: &[Row] = &[
    Row {
        rule: "B3/S23",
        exponent: 0,
        leaves: &SOUP_16,
        middle: &[0xe06c260030406041],
        expansions: 1,
    },
    Row {
        rule: "B3/S23",
        exponent: 1,
        leaves: &SOUP_16,
        middle: &[0x300efe31a0d0e000],
        expansions: 1,
    },
    Row {
        rule: "B3/S23",
        exponent: 40,
        leaves: &SOUP_16,
        middle: &[0x2e3b040302000060],
        expansions: 1,
    },
    Row {
        rule: "B2/S34H",
        exponent: 1,
        leaves: &SOUP_16,
        middle: &[0x6c3967a2aeb1460c],
        expansions: 1,
    },
    Row {
        rule: "B3/S23",
        exponent: 0,
        leaves: &SOUP_32,
        middle: &[
            0xd30580614eff4c22,
            0x4e188f7f0184051d,
            0x0667f94b69da52ec,
            0x58f06566f866285b,
        ],
        expansions: 10,
    },
    Row {
        rule: "B3/S23",
        exponent: 1,
        leaves: &SOUP_32,
        middle: &[
            0x1040c26700010122,
            0x0210c0f0f101053d,
            0x0800080a088b030c,
            0x18000d0709040842,
        ],
        expansions: 10,
    },
    Row {
        rule: "B3/S23",
        exponent: 2,
        leaves: &SOUP_32,
        middle: &[
            0x58c685c581432500,
            0x80800038517a503c,
            0x140888129a18081b,
            0x41200d0c0f0e0680,
        ],
        expansions: 10,
    },
    Row {
        rule: "B3/S23",
        exponent: 3,
        leaves: &SOUP_32,
        middle: &[
            0x9801160561c00000,
            0x60187fdb040c0818,
            0x002f50560201027a,
            0x6687370300008080,
        ],
        expansions: 14,
    },
    Row {
        rule: "B3/S23",
        exponent: 40,
        leaves: &SOUP_32,
        middle: &[
            0x9801160561c00000,
            0x60187fdb040c0818,
            0x002f50560201027a,
            0x6687370300008080,
        ],
        expansions: 14,
    },
    Row {
        rule: "B36/S23",
        exponent: 0,
        leaves: &SOUP_32,
        middle: &[
            0xd30580614eff4c22,
            0x4e188f7f0184051d,
            0x0667f94b69da52ec,
            0x58f06566fa66285b,
        ],
        expansions: 10,
    },
    Row {
        rule: "B36/S23",
        exponent: 1,
        leaves: &SOUP_32,
        middle: &[
            0x1040c2e7a0010023,
            0x0210d0f0f101053d,
            0x08000a3a08aba30c,
            0x2c000d000c930846,
        ],
        expansions: 10,
    },
    Row {
        rule: "B36/S23",
        exponent: 2,
        leaves: &SOUP_32,
        middle: &[
            0xe846240400002603,
            0x046c28287079500c,
            0x13170e2b7a289813,
            0x083a000308100909,
        ],
        expansions: 10,
    },
    Row {
        rule: "B36/S23",
        exponent: 3,
        leaves: &SOUP_32,
        middle: &[
            0xba02810001030d00,
            0x0161412818000403,
            0x30b884482058d038,
            0x0008000b03010139,
        ],
        expansions: 14,
    },
    Row {
        rule: "B2/S34H",
        exponent: 3,
        leaves: &SOUP_32,
        middle: &[
            0x1380354344a2810a,
            0x00000c0204001bc1,
            0x0002902030903005,
            0x92246c5b0fa20300,
        ],
        expansions: 14,
    },
    Row {
        rule: "B13/S024V",
        exponent: 3,
        leaves: &SOUP_32,
        middle: &[
            0x777ff96b35d0f5f1,
            0xa98873fdbf71f9fc,
            0xbbe60d7eca5167fb,
            0x0d52f2826cfc062d,
        ],
        expansions: 14,
    },
    Row {
        rule: "B3/S23",
        exponent: 0,
        leaves: &SOUP_64,
        middle: &[
            0x3004a0971416b26d,
            0x0010095e98140102,
            0x80b0ec18a3383c97,
            0x10183c202d22f43e,
            0x42070d070f010302,
            0x3301228a0414dc86,
            0xe080078b8c000377,
            0x70a11006bf7fc078,
            0x14d2ed9678341059,
            0x0700000000008007,
            0x5010c868ea1b1f7c,
            0x8c1b9b898c000850,
            0x42e6f01636a2a0a0,
            0x7a6c72c002cd5906,
            0x416343a2b8020f06,
            0x221e018056557b0c,
        ],
        expansions: 1,
    },
    Row {
        rule: "B3/S23",
        exponent: 3,
        leaves: &SOUP_64,
        middle: &[
            0x0000000040408040,
            0x601602000040c580,
            0x361a00c0c7448560,
            0x0000006060a30301,
            0xde0c078300000000,
            0x01e2c808000a8040,
            0x83deb2f5870100a8,
            0x04020020a132e4c2,
            0x0002040400000a56,
            0x0000000000808080,
            0xd800402810010102,
            0x70c080000c713121,
            0x42c145496171f107,
            0x8509321101040100,
            0xc08082a240181850,
            0x6040000020182830,
        ],
        expansions: 1,
    },
    Row {
        rule: "B3/S23",
        exponent: 4,
        leaves: &SOUP_64,
        middle: &[
            0x0702000000000000,
            0x8608008080303070,
            0x05000402c080e0b0,
            0x0000000001000100,
            0x0d80a4202001010d,
            0x6173482428001824,
            0x09d30bfb0c80cc00,
            0x8a02060506010000,
            0x20c000000006c064,
            0x0201000000808001,
            0x0c1c1c20300141b1,
            0x140000207058241a,
            0x20e0400040000000,
            0x1500001c1a030404,
            0x64e3600000000000,
            0xb140000609103010,
        ],
        expansions: 1,
    },
    Row {
        rule: "B36/S23",
        exponent: 4,
        leaves: &SOUP_64,
        middle: &[
            0x0000800100000000,
            0x000003013b251d08,
            0xc00a0a0420e00040,
            0x0403146c60e08102,
            0x06011c2468201101,
            0x0000002068484800,
            0x0804028244000040,
            0x53881bdd8014040c,
            0x0601408003111000,
            0x0103020100000000,
            0x40c0f85020000000,
            0x61800000081c233d,
            0x064604404040c05e,
            0x82404005b0956800,
            0xff44dc03121e0c80,
            0x41a0410100000000,
        ],
        expansions: 1,
    },
    Row {
        rule: "B36/S125H",
        exponent: 2,
        leaves: &SOUP_64,
        middle: &[
            0x212890961211000c,
            0x02f0064000100e00,
            0x0031500000808060,
            0x42203c3e05032029,
            0x0c04010007050402,
            0x00020bb8f0f07034,
            0x8000078680000060,
            0x60d0600140b024e0,
            0x2540704801030d0f,
            0x1007020000000000,
            0xa060445e25130006,
            0x0080000a10121801,
            0x7800043402831840,
            0x0040400000818020,
            0x420000133a4d8040,
            0x00010180b1010202,
        ],
        expansions: 1,
    },
    Row {
        rule: "B13/S024V",
        exponent: 3,
        leaves: &SOUP_64,
        middle: &[
            0x04d18a4c48d74e55,
            0x1cacbddb8596f33c,
            0xad9f23560ef375e5,
            0x6e418eaeb40aa0d4,
            0x4955ffe97fd51a82,
            0xb20cb6814c6dce22,
            0x0dbfbb3601422b12,
            0x1a2c0e83ec1b18f1,
            0xa88a5c257e3258fd,
            0x181a3b6165df4f81,
            0x16fd50846a1318c3,
            0x6a92e9aabfa9cd65,
            0x1cc6d62a6b033b8f,
            0x9c8beb07074ec16d,
            0x575c268f1a04bfe7,
            0x18b3bfa47a969b9f,
        ],
        expansions: 1,
    },
];

// How many leaves stand side by side.
fn across(leaves: &[u64]) -> usize {
    match leaves.len() {
        64 => 8,
        16 => 4,
        4 => 2,
        _ => 1,
    }
}

// A column or a row of a square of so many leaves, for one that is counted from the middle.
fn place_of(from_middle: i8, across: usize) -> Option<usize> {
    let shifted = i64::from(from_middle) + 32;
    if shifted < 0 {
        return None;
    }
    let place = (shifted as usize)
        .wrapping_add(across.wrapping_mul(4))
        .wrapping_sub(32);
    if place / 8 < across {
        Some(place)
    } else {
        None
    }
}

// Whether a cell is live, whose column and row are counted from the middle.
fn is_live(leaves: &[u64], x: i8, y: i8) -> bool {
    let across = across(leaves);
    let Some(column) = place_of(x, across) else {
        return false;
    };
    let Some(row) = place_of(y, across) else {
        return false;
    };
    match leaves.get(across.wrapping_mul(row / 8).wrapping_add(column / 8)) {
        Some(word) => (*word >> (8 * (row % 8) + column % 8)) % 2 == 1,
        None => false,
    }
}

// The cells of leaves row by row, around (0,0).
fn cells_of(alloc: Global, leaves: &[u64]) -> Result<CellSet, Refusal> {
    let mut cells = CellSet::new(alloc);
    for y in -32..32i8 {
        for x in -32..32i8 {
            if is_live(leaves, x, y) {
                cells.insert(cell_at((x, y)))?;
            }
        }
    }
    Ok(cells)
}

// The future of a square, at the smallest level.
fn trimmed_future<S: Squares>(book: &mut S, sq: Sq, tally: &mut Tally) -> Result<Sq, Refusal>
    requires known { IsKnown (S.book book.old) sq.level sq }
    requires low { 3 < sq.level }
{
    let future = future(book, sq, tally)?;
    trim(book, future)
}

// The level of a row's square, its expansions, and whether its future has the cells of the middle.
fn reckoned(alloc: Global, row: &Row) -> Result<(u8, u64, bool), Refusal> {
    let mut book = book_of(alloc, row.rule, row.exponent)?;
    let sq = root_of_cells(alloc, &mut book, &cells_of(alloc, row.leaves)?)?;
    let mut tally = Tally { expansions: 0 };
    let future = trimmed_future(&mut book, sq, &mut tally)?;
    let middle = root_of_cells(alloc, &mut book, &cells_of(alloc, row.middle)?)?;
    Ok((sq.level, tally.expansions, future == middle))
}

// The level of a square of so many leaves.
fn level_of(leaves: &[u64]) -> u8 {
    match leaves.len() {
        64 => 6,
        16 => 5,
        _ => 4,
    }
}

fn first_wrong_row(alloc: Global, rows: &[Row]) -> Option<usize> {
    for (place, row) in rows.iter().enumerate() {
        if reckoned(alloc, row) != Ok((level_of(row.leaves), row.expansions, true)) {
            return Some(place);
        }
    }
    None
}

#[test]
fn futures_of_soups(rt: HostRuntime) {
    assert_no_row(&rt, first_wrong_row(rt.alloc(), ROWS));
}
