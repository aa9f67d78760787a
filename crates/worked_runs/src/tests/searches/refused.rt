//! Searches that are refused.

use crate::tests::searches::searched::{searched, searched_in};
use crate::tests::sessions::opened;
use period_search::{Candidates, Period};
use plane::{Fault, Refusal};
use rule_text::Rule;
use sample_patterns::R_PENTOMINO;
use std::test::Fail;

// A block at the right end of the range: one more column on each side is too many.
const LAST_BLOCK: &str = "#CXRLE Pos=4611686018427387902,0\nx = 2, y = 2\n2o$2o!";

// A block that has one column to its right, and a glider that does.
const LAST_BLOCK_BUT_ONE: &str = "#CXRLE Pos=4611686018427387901,0\nx = 2, y = 2\n2o$2o!";

const LAST_GLIDER: &str = "#CXRLE Pos=4611686018427387900,0\nx = 3, y = 3\nbo$2bo$3o!";

#[test]
fn refuses_what_leaves_the_range(rt: HostRuntime) -> Result<(), Fault> {
    let all = Candidates::UpTo(1000);
    let still = Period {
        generations: 1,
        right: 0,
        down: 0,
    };
    let (of_last, generation) = searched_in(&rt, LAST_BLOCK, all, 1)?;
    let (of_last_but_one, _) = searched_in(&rt, LAST_BLOCK_BUT_ONE, all, 1)?;
    // It comes to the last column after three generations, and the fourth may be beyond it.
    let (of_glider, _) = searched_in(&rt, LAST_GLIDER, all, 1)?;
    let too_far = Err(Refusal::TooFar);
    assert_eq!(rt;
        (of_last, generation, of_last_but_one, of_glider),
        (too_far, 0, Ok(Some(still)), too_far)
    );
    Ok(())
}

// The R-pentomino, 808 generations before the last one.
const LATE_PENTOMINO: &str = "#CXRLE Gen=9223372036854775000\nx = 3, y = 3\nb2o$2o$bo!";

// What was tried before is no answer: no power of two up to 512 is a period of it, and 1024
// generations are too many.
#[test]
fn refuses_a_divisor_beyond_the_last_generation(rt: HostRuntime) -> Result<(), Fault> {
    let ended = searched_in(&rt, LATE_PENTOMINO, Candidates::DivisorsOf(1024), 1)?;
    assert_eq!(rt; ended, (Err(Refusal::TooFar), 9223372036854775512));
    Ok(())
}

// By this rule no cell dies.
#[test]
fn refuses_full_tables(rt: HostRuntime) -> Result<(), Fail> {
    let rule = Some(Rule::read(b"B3/S012345678")?);
    let mut session = opened(&rt, R_PENTOMINO, rule, 1024)?;
    let found = searched(&rt, &mut session, Candidates::UpTo(5000), 1);
    let generation = session.generation();
    assert_eq!(rt; found, Err(Refusal::NodesFull));
    assert!(rt; generation > 0 && generation < 5000);
    Ok(())
}
