//! The items of a file, one after the other.

ghost use Rattle.std.specs.Prelude.{◌≡◌, ◌≤◌, [], ◌∷◌, true, length, MatchOption};
ghost use Rattle.std.specs.Iterator.{YieldsFirstBy, item_count};
ghost use Rattle.rle_reader.specs.Body.{stripped_from};
ghost use Rattle.rle_reader.specs.Left.{runs_left};
ghost use Rattle.rle_reader.specs.Meaning.{runs_kept};
ghost use Rattle.rle_reader.specs.Seen.{run_seen};

use crate::body::Body;
use crate::item::{Run, next_run};
use std::marker::Model;

/// The items of a file, in order. A contract sees the items that are still to come.
#[derive(Drop)]
pub struct Runs<'a> {
    body: Body<'a>,
}

impl<'a> Model for Runs<'a> {
    ghost use Rattle.std.specs.Prelude.{List};
    ghost use Rattle.rle_reader.specs.Items.{ItemSlice};
    ghost use Rattle.rle_reader.specs.Left.{runs_left};

    ghost Value = { List ItemSlice };

    ghost view = { λ runs. runs_left runs.body };
}

impl<'a> Runs<'a> {
    pub(crate) fn new(source: &'a [u8], at: usize) -> Self
        requires { at ≤ length source.now }
        ensures { result ≡ runs_kept source.now (stripped_from source.now at true) }
    {
        Runs {
            body: Body::new(source, at),
        }
    }
}

impl<'a> Iterator for Runs<'a> {
    type Item = Run<'a>;

    ghost next_gives = { YieldsFirstBy run_seen (λ runs. runs) };

    ghost remaining = { item_count (λ runs. runs) };

    fn next(&mut self) -> Option<Run<'a>> {
        take_run(&mut self.body)
    }
}

// Takes the next item, or all that is left if there is none.
fn take_run<'a>(body: &mut Body<'a>) -> Option<Run<'a>>
    ensures { MatchOption result ((runs_left body.old ≡ []) × (runs_left body.new ≡ []))
        (λ run. runs_left body.old ≡ run_seen run ∷ runs_left body.new) }
{
    match next_run(body) {
        Ok(Some(run)) => Some(run),
        _ => {
            body.close();
            None
        }
    }
}
