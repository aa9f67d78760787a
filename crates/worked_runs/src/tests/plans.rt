//! Which steps a run is planned in, from one line of its report to the next.

use crate::tests::ended::Ended;
use crate::tests::rows::{FAR_GLIDER, PLAIN, assert_told};
use engine::Options;
use hashlife_step::plan;
use std::test::Fail;

// Ten generations with a line after each fourth.
const REPORT: &str = "0: 5\n4: 5\n8: 5\n10: 5\n";

// The exponents of the steps up to the second line, the third and the last.
const PLANS: &[&[u8]] = &[&[2], &[2], &[1]];

fn generation_of(line: &str) -> Result<u64, Fail> {
    let Some((generation, _)) = line.split_once(": ") else {
        return Err("a line without a population")?;
    };
    Ok(generation.parse::<u64>()?)
}

#[test]
fn each_stretch_between_two_lines_has_its_own_plan(rt: HostRuntime) -> Result<(), Fail> {
    let options = Options {
        gens: 10,
        step: 4,
        ..PLAIN
    };
    let end = Ended::of(&rt, FAR_GLIDER.file, &options)?;
    assert_told(&rt, FAR_GLIDER.file, &end, (None, REPORT, ""));
    let mut plans = PLANS.iter();
    let mut done = 0u64;
    for line in end.report.text().lines().skip(1) {
        let next = generation_of(line)?;
        let exponents = plan(next.saturating_sub(done));
        assert_eq!(rt; Some(exponents.as_slice()), plans.next().copied());
        done = next;
    }
    assert!(rt; plans.next().is_none());
    Ok(())
}
