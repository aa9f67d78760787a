//! What a run leaves behind.

use crate::tests::short_writes::ShortWrites;
use engine::{Options, Summary, run};
use plane::Fault;
use std::alloc::AllocError;
use std::process::Abort;
use std::thread::Threads;
use table_core::Shape;

/// How a run ended, and what it wrote.
#[derive(Drop)]
pub(crate) struct Ended {
    pub(crate) outcome: Result<Summary, Fault>,
    pub(crate) report: ShortWrites,
    pub(crate) file: ShortWrites,
}

impl Ended {
    /// Runs a file with devices that take all that is written.
    pub(crate) fn of<R: Abort + AllocGlobal + Threads + Sync>(
        rt: &R,
        file: &str,
        options: &Options,
    ) -> Result<Ended, AllocError> {
        Ended::of_bytes(rt, file.as_bytes(), options)
    }

    /// The same for a file that need not be a text.
    pub(crate) fn of_bytes<R: Abort + AllocGlobal + Threads + Sync>(
        rt: &R,
        file: &[u8],
        options: &Options,
    ) -> Result<Ended, AllocError> {
        Ended::with_devices(rt, file, options, usize::MAX, (0, 0))
    }

    /// Runs a file with devices that take so many bytes at a time, of which the report and the file
    /// fail at these calls, or at none for 0.
    pub(crate) fn with_devices<R: Abort + AllocGlobal + Threads + Sync>(
        rt: &R,
        file: &[u8],
        options: &Options,
        most: usize,
        calls: (u64, u64),
    ) -> Result<Ended, AllocError> {
        assert!(rt; Shape::is_pair_count(options.pairs));
        assert!(rt; options.workers >= 1 && options.workers <= 64);
        let mut report = ShortWrites::new(rt.alloc(), most, calls.0)?;
        let mut written = ShortWrites::new(rt.alloc(), most, calls.1)?;
        let outcome = run(rt, rt.alloc(), file, options, &mut report, &mut written);
        Ok(Ended {
            outcome,
            report,
            file: written,
        })
    }

    /// Whether it ended well, with this last generation and so many live cells in it.
    pub(crate) fn is_summed_up_by(&self, generation: u64, population: u128) -> bool {
        match self.outcome {
            Ok(summary) => summary.generation == generation && summary.population == population,
            Err(_) => false,
        }
    }

    /// How it was refused, if it was, and the texts of the report and of the file.
    pub(crate) fn told(&self) -> (Option<Fault>, &str, &str) {
        (self.outcome.err(), self.report.text(), self.file.text())
    }
}
