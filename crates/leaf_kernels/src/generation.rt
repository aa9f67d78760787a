//! Sixty-four rows some generations on, by anything that makes the next generation of four rows
//! from the rows above and below.
ghost use Rattle.rule_text.specs.CountRule.{CountRule};
ghost use Rattle.plane.specs.Plane.{after, next};
ghost use Rattle.plane.specs.Square.{IsSame, cut};
ghost use Rattle.leaf_kernels.specs.Generation.{AreNext};
ghost use Rattle.leaf_kernels.specs.Inside.{AgreeInside};
ghost use Rattle.leaf_kernels.specs.Rows.{rows_plane};

use crate::life::{Life, is_life};
use crate::masks::Masks;
use crate::moore::EightNeighbours;
use crate::rows::{from_lane_before, from_lane_behind};
use rule_text::{Neighbourhood, Rule};
use std::simd::prelude::*;

/// What makes the next generation of cells from their rows and the rows above and below.
pub(crate) trait NextCells {
    // The rule by which it makes them.
    ghost rule: { Self → CountRule };

    /// The next generation of the middle rows.
    fn next_cells(&self, above: u64x4, here: u64x4, below: u64x4) -> u64x4
        ensures { AreNext (rule self.now) above here below result };
}

/// Sixty-four rows so many generations on by a rule. In each of them cells outside the 64 by 64 are
/// taken as dead, so those are right that lie further inside.
#[inline(always)]
pub(crate) fn later_rows(rule: &Rule, rows: [u64x4; 16], generations: u8) -> [u64x4; 16]
    ensures { AgreeInside 64 generations (rows_plane result)
        (after rule.now (rows_plane rows) generations) }
{
    if is_life(rule) {
        return rows_after(&Life, rows, generations);
    }
    match rule.neighbourhood() {
        Neighbourhood::Moore => rows_after(&EightNeighbours::new(*rule), rows, generations),
        _ => rows_after(&Masks::new(*rule), rows, generations),
    }
}

// The same by what makes the next generation.
fn rows_after<N: NextCells>(kernel: &N, rows: [u64x4; 16], generations: u8) -> [u64x4; 16]
    ensures { AgreeInside 64 generations (rows_plane result)
        (after (N.rule kernel.now) (rows_plane rows) generations) }
{
    let mut later = rows;
    for _ in 0..generations {
        advance(kernel, &mut later);
    }
    later
}

// Puts their next generation in the place of sixty-four rows. Cells outside the 64 by 64 are taken
// as dead, and those that would become live there are left out.
#[inline(always)]
fn advance<N: NextCells>(kernel: &N, rows: &mut [u64x4; 16])
    ensures { IsSame (rows_plane rows.new)
        (cut 64 0 0 (next (N.rule kernel.now) (rows_plane rows.old))) }
{
    let [a, b, c, d, e, f, g, h, i, j, k, l, m, n, o, p] = *rows;
    *rows = [
        kernel.next_cells(from_lane_before(p), a, b),
        kernel.next_cells(a, b, c),
        kernel.next_cells(b, c, d),
        kernel.next_cells(c, d, e),
        kernel.next_cells(d, e, f),
        kernel.next_cells(e, f, g),
        kernel.next_cells(f, g, h),
        kernel.next_cells(g, h, i),
        kernel.next_cells(h, i, j),
        kernel.next_cells(i, j, k),
        kernel.next_cells(j, k, l),
        kernel.next_cells(k, l, m),
        kernel.next_cells(l, m, n),
        kernel.next_cells(m, n, o),
        kernel.next_cells(n, o, p),
        kernel.next_cells(o, p, from_lane_behind(a)),
    ];
}
