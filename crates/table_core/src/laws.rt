//! What holds of all tables, as calls that do nothing and say it in their clause.

ghost use Rattle.table_core.specs.FullWays.{EveryFullWayStays};
ghost use Rattle.table_core.specs.Laws.{EveryWay, EveryEventTeaches, EveryResultHasItsSlot, EveryTruthIsConsistent, FullShardIsSeen, GoodWordsCanBeKnown};
ghost use Rattle.table_core.specs.Opening.{EveryFreshTable, EveryReopening};
ghost use Rattle.table_core.specs.EveryRun.{EveryRun};

/// The way of a word has each slot of its shard, once.
pub fn every_way()
    ensures { EveryWay }
{}

/// After every list of events, splits and joins: the words are good, no word that stood there has
/// changed, some desk knows each word that came, what each desk knows is true and no less than
/// before, and a block has one number, whichever desks know it.
pub fn every_run()
    ensures { EveryRun }
{}

/// The words of a table that was just made, with a head and nothing else, are good.
pub fn every_fresh_table()
    ensures { EveryFreshTable }
{}

/// Good words that are opened under another rule or exponent, with the results that may stay, are
/// opening words under the new head.
pub fn every_reopening()
    ensures { EveryReopening }
{}

/// Whatever word stands in good words after a lawful event, there is what the desk then knows, and
/// it is true and no less than before.
pub fn every_event_teaches()
    ensures { EveryEventTeaches }
{}

/// What is true of good words agrees with itself: a number shows one block, a block has one number.
pub fn every_truth_is_consistent()
    ensures { EveryTruthIsConsistent }
{}

/// What a desk truly knows of a table's words has no more results than the table has pair slots:
/// each result stands beside a slot of its own.
pub fn every_result_has_its_slot()
    ensures { EveryResultHasItsSlot }
{}

/// Of all good words a desk may know everything: each word, each block and each result.
pub fn good_words_can_be_known()
    ensures { GoodWordsCanBeKnown }
{}

/// The test for a full shard tells whether a desk has seen a word in each slot of one.
pub fn full_shard_is_seen()
    ensures { FullShardIsSeen }
{}

/// Where a desk has seen other words in all slots of a word's way, these stay there for good:
/// whatever the desk learns and whatever words come, it knows so, and that word stands nowhere.
pub fn every_full_way_stays()
    ensures { EveryFullWayStays }
{}
