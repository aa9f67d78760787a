//! The sizes of tables, from a small one on.

ghost use Rattle.std.specs.Prelude.{◌≡◌, ◌<◌, ◌≤◌, ◌⊎◌, ◌+◌, ◌^◌, IfNone, IfSome};

use crate::policy::{
    BITS_OF_LARGE_STEPS, BITS_OF_SMALL_STEPS, COUNTED_PART, FEW_PARTS, LARGE_BITS, START_BITS,
};
use node_sweep::CopyPlan;
use table_core::{DEFAULT_PAIR_COUNT, Kind, Shape};

/// The shape of a new table: 4096 pair slots, or the largest.
pub fn smallest(limit: Shape) -> Shape
    ensures { result.bits ≤ limit.bits }
{
    let bits = limit.bits.min(START_BITS);
    Shape { bits }
}

/// By which factor a full table grows, as long as it isn't large.
#[derive(Clone, Copy)]
pub enum GrowthFactor {
    Four,
    Sixteen,
}

/// The shape of a new table that is likely to need so many pair slots: the smallest that has them
/// of 2^12, 2^16, 2^20 and each larger power of two, or the largest.
pub fn expected_shape(pairs: u64, limit: Shape) -> Shape
    ensures within { result.bits ≤ limit.bits }
    ensures enough { (pairs ≤ 2 ^ result.bits) ⊎ (result.bits ≡ limit.bits) }
{
    let mut bits = smallest(limit).bits;
    while bits < limit.bits && (1u64 << bits) < pairs {
        let larger = if bits < BITS_OF_LARGE_STEPS {
            bits + 4
        } else {
            bits + 1
        };
        bits = limit.bits.min(larger);
    }
    Shape { bits }
}

/// The shape of the table that replaces a full one. It has four or sixteen times as many pair
/// slots, as the factor says; after a large one four times as many, or sixteen times where the
/// largest shape is above the default; and never more than the largest. `None` where the full one
/// has the largest shape.
pub fn larger(shape: Shape, limit: Shape, growth_factor: GrowthFactor) -> Option<Shape>
    ensures some { IfSome result (λ next. (shape.bits < next.bits) × (next.bits ≤ limit.bits)) }
    ensures none { IfNone result (limit.bits ≤ shape.bits) }
{
    if shape.bits >= limit.bits {
        return None;
    }
    let grows_at_once = match growth_factor {
        GrowthFactor::Sixteen if shape.bits < LARGE_BITS => true,
        _ => shape.bits >= BITS_OF_LARGE_STEPS && exceeds_default(limit),
    };
    let bits = shape.bits + if grows_at_once { 4 } else { 2 };
    let bits = limit.bits.min(bits);
    Some(Shape { bits })
}

/// Whether a table of this shape has more pair slots than the tables of a run may have by default.
pub(crate) fn exceeds_default(shape: Shape) -> bool {
    shape.slot_count(Kind::Pair) > DEFAULT_PAIR_COUNT
}

/// The shape with four times as many pair slots as this one, if a full table of this one is replaced
/// by a still larger one unless the step has come far.
pub fn shape_between(from: Shape, to: Shape, workers: usize) -> Option<Shape>
    ensures { IfSome result
        (λ between. (between.bits ≡ from.bits + 2) × (between.bits < to.bits)) }
{
    let bits = from.bits + 2;
    let least = match workers {
        1 => BITS_OF_SMALL_STEPS,
        _ => BITS_OF_LARGE_STEPS,
    };
    if from.bits < least || bits >= to.bits {
        return None;
    }
    Some(Shape { bits })
}

/// Whether the step under this exponent that filled the table of the plan has come far: the table
/// has many small parts of squares that are just large enough for a whole step. No clause promises
/// the answer: it only decides how much larger the next table is.
pub fn has_come_far(plan: &CopyPlan, exponent: u8) -> bool {
    // The square of a step has the level exponent + 3, so its counted parts are no leaves.
    exponent > COUNTED_PART && plan.square_count(exponent - COUNTED_PART + 3) > FEW_PARTS
}

/// How many pair slots a table of this shape has.
pub fn pair_count(shape: Shape) -> u64
    ensures { result ≡ 2 ^ shape.bits }
{
    u64::from(shape.slot_count(Kind::Pair))
}
