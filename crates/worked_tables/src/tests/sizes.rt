//! The sizes of new tables, as powers of two. No clause says them.

ghost use Rattle.std.specs.Prelude.{◌≤◌};

use std::test::Fail;
use table_core::Shape;
use table_growth::{expected_shape, shape_between, smallest};

fn shape(bits: u8) -> Shape
    requires { (10 ≤ bits) × (bits ≤ 28) }
{
    Shape { bits }
}

// A new table has 2^12 pair slots, or as many as there may be.
#[test]
fn new_tables_are_small(rt: HostRuntime) -> Result<(), Fail> {
    for (limit, bits) in [(shape(10), 10), (shape(12), 12), (shape(28), 12)] {
        assert_eq!(rt; smallest(limit).bits, bits);
    }
    Ok(())
}

// Where more pairs are expected, it has 2^12, 2^16, 2^20 or a larger power of two.
#[test]
fn tables_of_long_files_are_larger(rt: HostRuntime) -> Result<(), Fail> {
    for (pairs, limit, bits) in [
        (0, shape(22), 12),
        (1 << 12, shape(22), 12),
        ((1 << 12) + 1, shape(22), 16),
        ((1 << 16) + 1, shape(22), 20),
        ((1 << 20) + 1, shape(22), 21),
        ((1 << 16) + 1, shape(17), 17),
        (u64::MAX, shape(28), 28),
    ] {
        assert_eq!(rt; expected_shape(pairs, limit).bits, bits);
    }
    Ok(())
}

// From 2^16 pair slots on there is a size between a full table's and that of sixteen times as many;
// from 2^20 on where several workers take the steps.
#[test]
fn large_tables_grow_by_four_first(rt: HostRuntime) -> Result<(), Fail> {
    for (from, to, workers, bits) in [
        (shape(12), shape(16), 1, None),
        (shape(16), shape(20), 1, Some(18)),
        (shape(16), shape(20), 2, None),
        (shape(18), shape(20), 1, None),
        (shape(20), shape(24), 2, Some(22)),
        (shape(26), shape(28), 1, None),
    ] {
        let between = shape_between(from, to, workers).map(|shape| shape.bits);
        assert_eq!(rt; between, bits);
    }
    Ok(())
}
