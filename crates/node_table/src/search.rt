//! The search for a word along its probe sequence: for an equal word, or the first empty slot.
ghost use Rattle.std.specs.Prelude.{◌≢◌, IfSome, IfNone, IsNone};
ghost use Rattle.table_core.specs.Lawful.{KnowsPartsFor};
ghost use Rattle.node_table.specs.DesksAtWork.{LearnsBlocks};
ghost use Rattle.node_table.specs.Numbers.{IsNumber};
ghost use Rattle.node_table.specs.Refusals.{HasNoRoom, known_by};

use crate::at::At;
use table_core::{Kind, SHARD_LEN};

impl At<'_> {
    /// The number of a word: where it stands on its way, or comes to stand there now. There is none
    /// where another word stands at each place.
    pub(crate) fn number(&mut self, kind: Kind, word: u64) -> Option<u32>
        requires some { word ≢ 0 }
        requires parts { KnowsPartsFor (known_by self.old.desk) kind word }
        ensures learns { LearnsBlocks self.old self.new }
        ensures some { IfSome result (IsNumber self.old.table.now.key.shape.bits
            (known_by self.old.desk) (known_by self.new.desk) kind word) }
        ensures none { IfNone result (HasNoRoom self.new.table.now self.new.desk kind word) }
        ensures refused { HasNoRoom self.old.table.now self.old.desk kind word → IsNone result }
    {
        let shape = self.table.key.shape;
        for place in 0..SHARD_LEN {
            let index = shape.way_index(kind, word, place);
            let found = self.look(index);
            if found == word {
                return Some(index);
            }
            if found == 0 {
                let found = self.claim(index, word);
                if found == 0 || found == word {
                    return Some(index);
                }
            }
        }
        None
    }
}
