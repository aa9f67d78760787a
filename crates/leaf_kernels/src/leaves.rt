//! The leaves of a square of 64 by 64 cells and its rows, each from the other.
ghost use Rattle.std.specs.Prelude.{◌≡◌, ℕ, ◌+◌, ◌*◌, ◌/◌, ◌%◌, ◌^◌, ◌<◌, slice_index};
ghost use Rattle.plane.specs.Square.{IsSame, bit, centre_of};
ghost use Rattle.leaf_kernels.specs.Rows.{four_fours_plane, four_sixteens_plane, rows_plane};
ghost use Rattle.plane.specs.Leaves.{cell_at};
ghost use Rattle.leaf_kernels.specs.Words.{AreTransposed, lane_at};

use std::simd::prelude::*;

/// The leaves of a square of 64 by 64 cells: of each quarter its sixteen, 8 by 8 cells each, row by
/// row. The quarters are the upper left, the upper right, the lower left and the lower right.
pub type Leaves64 = [[u64; 16]; 4];

/// The rows of the square that four squares of sixteen leaves make.
#[inline(always)]
pub(crate) fn rows_of(quarters: Leaves64) -> [u64x4; 16]
    ensures { IsSame (rows_plane result) (four_sixteens_plane quarters) }
{
    let [upper_left, upper_right, lower_left, lower_right] = quarters;
    let [first, second, third, fourth] = bands(upper_left, upper_right);
    let [fifth, sixth, seventh, eighth] = bands(lower_left, lower_right);
    let [a, b, c, d, e, f, g, h] = by_lane([first, third, fifth, seventh]);
    let [i, j, k, l, m, n, o, p] = by_lane([second, fourth, sixth, eighth]);
    [a, b, c, d, e, f, g, h, i, j, k, l, m, n, o, p]
}

/// The leaves in the middle of sixty-four rows, quarter by quarter.
#[inline(always)]
pub(crate) fn middle_of(rows: [u64x4; 16]) -> [[u64; 4]; 4]
    ensures { IsSame (four_fours_plane result) (centre_of 6 (rows_plane rows)) }
{
    let [a, b, c, d, e, f, g, h, i, j, k, l, m, n, o, p] = rows;
    let [first, third] = middle_lanes([a, b, c, d, e, f, g, h]);
    let [second, fourth] = middle_lanes([i, j, k, l, m, n, o, p]);
    let first = transpose(first).to_array();
    let second = transpose(second).to_array();
    let third = transpose(third).to_array();
    let fourth = transpose(fourth).to_array();
    [
        [first[2], first[3], second[2], second[3]],
        [first[4], first[5], second[4], second[5]],
        [third[2], third[3], fourth[2], fourth[3]],
        [third[4], third[5], fourth[4], fourth[5]],
    ]
}

// Four times eight rows, from the top, of two squares of sixteen leaves beside each other.
#[inline(always)]
fn bands(left: [u64; 16], right: [u64; 16]) -> [u64x8; 4]
    ensures left { (four column place row : ℕ) → four < 4 → column < 4 → place < 8 → row < 8
        → cell_at (lane_at result four row) column place
        ≡ cell_at (slice_index left (4 * four + column)) row place }
    ensures right { (four column place row : ℕ) → four < 4 → column < 4 → place < 8 → row < 8
        → cell_at (lane_at result four row) (4 + column) place
        ≡ cell_at (slice_index right (4 * four + column)) row place }
{
    let [a, b, c, d, e, f, g, h, i, j, k, l, m, n, o, p] = left;
    let [q, r, s, t, u, v, w, x, y, z, aa, bb, cc, dd, ee, ff] = right;
    [
        transpose(u64x8::from_array([a, b, c, d, q, r, s, t])),
        transpose(u64x8::from_array([e, f, g, h, u, v, w, x])),
        transpose(u64x8::from_array([i, j, k, l, y, z, aa, bb])),
        transpose(u64x8::from_array([m, n, o, p, cc, dd, ee, ff])),
    ]
}

// Four vectors of eight as eight of four: lane `y` of vector `x` is lane `x` of vector `y`.
#[inline(always)]
fn by_lane(bands: [u64x8; 4]) -> [u64x4; 8]
    ensures { (row lane : ℕ) → row < 8 → lane < 4
        → lane_at result row lane ≡ lane_at bands lane row }
{
    let [first, second, third, fourth] = bands;
    let [a, b, c, d, e, f, g, h] = first.to_array();
    let [i, j, k, l, m, n, o, p] = second.to_array();
    let [q, r, s, t, u, v, w, x] = third.to_array();
    let [y, z, aa, bb, cc, dd, ee, ff] = fourth.to_array();
    [
        u64x4::from_array([a, i, q, y]),
        u64x4::from_array([b, j, r, z]),
        u64x4::from_array([c, k, s, aa]),
        u64x4::from_array([d, l, t, bb]),
        u64x4::from_array([e, m, u, cc]),
        u64x4::from_array([f, n, v, dd]),
        u64x4::from_array([g, o, w, ee]),
        u64x4::from_array([h, p, x, ff]),
    ]
}

/// The lanes 1 and 2 of eight vectors.
#[inline(always)]
pub(crate) fn middle_lanes(rows: [u64x4; 8]) -> [u64x8; 2]
    ensures { (row lane : ℕ) → row < 8 → lane < 2
        → lane_at result lane row ≡ lane_at rows row (1 + lane) }
{
    let [a, b, c, d, e, f, g, h] = rows;
    let [_, a1, a2, _] = a.to_array();
    let [_, b1, b2, _] = b.to_array();
    let [_, c1, c2, _] = c.to_array();
    let [_, d1, d2, _] = d.to_array();
    let [_, e1, e2, _] = e.to_array();
    let [_, f1, f2, _] = f.to_array();
    let [_, g1, g2, _] = g.to_array();
    let [_, h1, h2, _] = h.to_array();
    [
        u64x8::from_array([a1, b1, c1, d1, e1, f1, g1, h1]),
        u64x8::from_array([a2, b2, c2, d2, e2, f2, g2, h2]),
    ]
}

/// Eight leaves beside each other as eight rows, and eight rows as the eight leaves.
#[inline(always)]
pub(crate) fn transpose(words: u64x8) -> u64x8
    ensures { AreTransposed words result }
{
    words_of_bytes(interleave(bytes_of_words(words)))
}

// The bytes of eight words, the lowest byte of each first.
#[inline(always)]
fn bytes_of_words(words: u64x8) -> u8x64
    ensures { (word place : ℕ) → word < 8 → place < 8
        → slice_index result (8 * word + place) ≡ slice_index words word / 256 ^ place % 256 }
{
    words.to_le_bytes()
}

// The bytes of eight words in turn, the first byte of each first.
#[inline(always)]
fn interleave(bytes: u8x64) -> u8x64
    ensures { (word place : ℕ) → word < 8 → place < 8
        → slice_index result (8 * place + word) ≡ slice_index bytes (8 * word + place) }
{
    bytes.swizzle([
        0, 8, 16, 24, 32, 40, 48, 56, 1, 9, 17, 25, 33, 41, 49, 57, 2, 10, 18, 26, 34, 42, 50, 58,
        3, 11, 19, 27, 35, 43, 51, 59, 4, 12, 20, 28, 36, 44, 52, 60, 5, 13, 21, 29, 37, 45, 53,
        61, 6, 14, 22, 30, 38, 46, 54, 62, 7, 15, 23, 31, 39, 47, 55, 63,
    ])
}

// Words of eight bytes each, the lowest first.
#[inline(always)]
fn words_of_bytes(bytes: u8x64) -> u64x8
    ensures { (column place row : ℕ) → column < 8 → place < 8 → row < 8
        → cell_at (slice_index result row) column place
        ≡ bit (slice_index bytes (8 * row + column)) place }
{
    u64x8::from_le_bytes(bytes)
}
