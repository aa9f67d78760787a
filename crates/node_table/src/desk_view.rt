//! What a desk has seen of the table, only for contracts.
use table_core::{Key, Knowledge};

/// What a desk has seen: the table's key, and what the desk knows of the words. That of a desk that
/// was joined into another has no key, and knows nothing. No value of it is ever made: only
/// contracts speak of it.
pub(crate) struct DeskView {
    pub(crate) key: Option<Key>,
    pub(crate) known: Knowledge,
}
