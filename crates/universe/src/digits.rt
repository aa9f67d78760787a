//! The steps of a number of generations, one for each of its binary digits, and the table of each.

ghost use Rattle.std.specs.Prelude.{◌≡◌, ◌^◌, sum_by};

use arrayvec::ArrayVec;
use hashlife_step::plan;

// How far the exponents of the steps at one table may lie above the table's own.
const SPAN: u8 = 2;

/// A step of 2^exponent generations, at the table of this exponent or of a lower one.
#[derive(Clone, Copy, Default)]
pub(crate) struct Step {
    pub(crate) exponent: u8,
    pub(crate) table: u8,
}

/// The steps of so many generations, in their order: the largest first if the cells are at its
/// table, else the smallest first.
pub(crate) fn steps_of(generations: u64, here: u8) -> ArrayVec<Step, 64>
    ensures { sum_by (λ step. 2 ^ step.exponent) result.items ≡ generations }
{
    let mut steps = rising_steps(generations);
    if matches!(steps.as_slice().last(), Some(largest) if largest.table == here) {
        steps.as_mut_slice().reverse();
    }
    steps
}

// The steps of so many generations, the smallest first. Those of a group of digits are taken at the
// table of its lowest one.
fn rising_steps(generations: u64) -> ArrayVec<Step, 64>
    ensures { sum_by (λ step. 2 ^ step.exponent) result.items ≡ generations }
{
    let mut steps = ArrayVec::new();
    let mut table = generations.trailing_zeros() as u8;
    let digits = plan(generations);
    for digit in digits.as_slice() {
        if *digit > table.saturating_add(SPAN) {
            table = *digit;
        }
        steps.push(Step {
            exponent: *digit,
            table,
        });
    }
    steps
}
